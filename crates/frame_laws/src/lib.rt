#![tactic(auto)]
// No code: what the writer and the reader of frames mean to each other, in specs/ReadBack.
