#![tactic(auto)]
// What an account key and the end of a connection do on a unit that passed the guards: their own refusals, and the unit after them.
pub mod accounts;
pub mod connection;
