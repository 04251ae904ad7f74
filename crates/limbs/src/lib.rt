#![tactic(auto)]
// Arithmetic on numbers of any width: limbs of 32 bits, the least significant first, as many as the slices have. No
// function knows a modulus: it is a slice among the parameters.
pub mod limb;
pub mod plain;
