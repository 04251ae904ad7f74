#![tactic(auto)]
// The x coordinate of r times the base point of a curve: SECP160R1 and SECP256R1 of SEC 2, as two uses of functions over the curve.
ghost use Rattle.curves.specs.Parameters.{Usable};

use field::Factored;

pub mod base;
pub mod secp160r1;
pub mod secp256r1;

// A curve's domain parameters (SEC 1 section 3.1.1) as limbs: W of those modulo the prime p, with the exponent p - 2 of
// the inverse, and S of the order n of the base point (x, y). Every number below n has so many bits.
#[derive(Clone, Copy)]
pub struct Domain<const W: usize, const S: usize> {
    pub p: Factored<W>,
    pub exponent: [u32; W],
    pub x: [u32; W],
    pub y: [u32; W],
    pub n: [u32; S],
    pub bits: usize,
    pub ghost usable: { Usable p.prime.m exponent x y n },
}

// A multiple of the base point: r, and the x coordinate in N bytes
#[derive(Clone, Copy)]
pub struct Multiple<const N: usize> {
    pub r: [u8; 32],
    pub x: [u8; N],
}
