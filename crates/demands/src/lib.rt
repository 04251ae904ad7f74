#![tactic(auto)]
// No code: the client's demands stand in specs/, as statements, and their proofs in proofs/.
