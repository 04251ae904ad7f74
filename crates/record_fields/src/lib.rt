#![tactic(auto)]
// The kinds of fields that the unit's stored record has: each is written and read at any place of the bytes. Inner calls: the bytes have
// room for the field from the place on.
// Kept: bytes and a place are two parameters: each contract says what stands at the place and that the rest stays.
pub mod kinds;
pub mod plain;
