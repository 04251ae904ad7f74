#![tactic(auto)]
// SHA-256's functions on words and its message schedule (FIPS 180-4, §4.1.2 and §6.2.2, step 1).

// The six functions on words of 32 bits.
pub mod word;
// The message schedule, in one buffer of sixteen words.
pub mod schedule;
