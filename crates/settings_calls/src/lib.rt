#![tactic(auto)]
// What a host sets, behind the guards: a new unit by its settings, pairing mode and the battery level.
pub mod battery;
pub mod pairing;
pub mod settings;
