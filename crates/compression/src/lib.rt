#![tactic(auto)]
// The hash computation of SHA-256 (FIPS 180-4, §6.2.2) on one block.

// The 64 turns.
mod block;

pub use block::compress;

// Eight words of 32 bits: the working variables a to h of FIPS 180-4, and the hash value H0 to H7.
#[derive(Clone, Copy)]
pub struct Working {
    pub a: u32,
    pub b: u32,
    pub c: u32,
    pub d: u32,
    pub e: u32,
    pub f: u32,
    pub g: u32,
    pub h: u32,
}
