#![tactic(auto)]
// How an answer is printed: numbers and bytes as text. For the crates of the session file: these functions may ask something of their caller.
pub mod text;
