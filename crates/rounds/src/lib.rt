#![tactic(auto)]
// The rounds of AES (FIPS 197, §5.1 and §5.3) over Nr: one block under a key schedule, each way.
mod block;

pub use block::{cipher, inv_cipher};
