#![tactic(auto)]
// InvMixColumns on one column in a word (FIPS 197, §5.3.3).
mod column;

pub use column::unmixed;
