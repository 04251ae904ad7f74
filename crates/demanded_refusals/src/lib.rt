#![tactic(auto)]
// No code: how every call ends, and which refusal comes when, as statements in specs/ with their proofs in proofs/.
