#![tactic(auto)]
// The field GF(2^8) of FIPS 197 in bytes, and its two substitution boxes as tables.
mod byte_field;
mod inv_sbox;
mod lookup;
mod sbox;

pub use byte_field::times_two;
pub use inv_sbox::inv_sub_table;
pub use lookup::look_up;
pub use sbox::sub_table;
