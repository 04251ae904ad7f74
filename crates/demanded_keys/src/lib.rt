#![tactic(auto)]
// No code: what is demanded of account keys by use, of recovery and of a key that waits, as statements in specs/ with their proofs in proofs/.
