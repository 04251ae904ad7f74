#![tactic(auto)]
// The key expansion of AES (FIPS 197, §5.2) over Nk.
mod schedule;

pub use schedule::expand;
