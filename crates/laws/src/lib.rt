#![tactic(auto)]
// No code: definitions that several crates cite are in specs/, their laws in proofs/.
