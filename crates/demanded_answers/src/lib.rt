#![tactic(auto)]
// No code: what each call gives and leaves, in literal numbers, as statements in specs/ with their proofs in proofs/.
