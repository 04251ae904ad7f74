#![tactic(auto)]
// The full rounds of AES and of its inverse by table (FIPS 197, §5.1 and §5.3.5): all four steps of a round on one column at a time, in a word.
mod forward;
mod inverse;

pub use forward::full_round;
pub use inverse::inv_full_round;
