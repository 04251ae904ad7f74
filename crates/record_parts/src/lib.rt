#![tactic(auto)]
// The parts of the unit's stored record without keys and nonces: each module writes and reads one group of fields, at any place of the bytes. Inner calls: the
// bytes have room for the group from the place on.
pub mod clock;
pub mod protection;
pub mod settings;
pub mod sound;
