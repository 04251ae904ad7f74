#![tactic(auto)]
// The steps of a round of AES and their inverses (FIPS 197, §5.1 and §5.3): each takes the state by value and gives the next one.
// Kept: the two looks into a box are functions of their own, by the standard's names.
pub mod forward;
pub mod inverse;
