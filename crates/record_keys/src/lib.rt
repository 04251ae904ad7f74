#![tactic(auto)]
// The parts of the unit's stored record that hold keys and nonces: each module writes and reads one group of fields, at any place of the
// bytes. Inner calls: the bytes have room for the group from the place on.
pub mod accounts;
pub mod identity;
pub mod issued_nonces;
pub mod owner;
