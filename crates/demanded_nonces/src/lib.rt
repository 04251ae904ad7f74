#![tactic(auto)]
// No code: what is demanded of nonces over histories of calls, as statements in specs/ with their proofs in proofs/.
