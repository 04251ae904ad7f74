#![tactic(auto)]
// No code: what is demanded of time, rings, consent and sleep, as statements in specs/ with their proofs in proofs/.
