#![tactic(auto)]
// No code: arithmetic modulo p, points and SEC 2's curves are in specs/, their laws in proofs/.
