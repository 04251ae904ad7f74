#![tactic(auto)]
// The multiple of a point by a number, on a curve with a = p - 3 over any field, and the way back to x.
pub mod multiple;
