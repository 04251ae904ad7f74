// SECP256R1 of SEC 2, section 2.7.2.
ghost use Rattle.curve_laws.specs.Curves.{SECP256R1};
ghost use Rattle.curves.specs.Base as base;
ghost use Rattle.curves.specs.Base.{Of};

use super::base::times_base;
use super::{Domain, Multiple};
use field::{Factored, Prime};

fn domain() -> Domain<8, 8>
    ensures { Of SECP256R1 result }
{
    Domain {
        p: Factored {
            prime: Prime {
                m: [0xffffffff, 0xffffffff, 0xffffffff, 0, 0, 0, 1, 0xffffffff],
                inv: 1,
            },
            factor: [
                3, 0, 0xffffffff, 0xfffffffb, 0xfffffffe, 0xffffffff, 0xfffffffd, 4,
            ],
        },
        exponent: [0xfffffffd, 0xffffffff, 0xffffffff, 0, 0, 0, 1, 0xffffffff],
        x: [
            0xd898c296, 0xf4a13945, 0x2deb33a0, 0x77037d81, 0x63a440f2, 0xf8bce6e5, 0xe12c4247,
            0x6b17d1f2,
        ],
        y: [
            0x37bf51f5, 0xcbb64068, 0x6b315ece, 0x2bce3357, 0x7c0f9e16, 0x8ee7eb4a, 0xfe1a7f9b,
            0x4fe342e2,
        ],
        n: [
            0xfc632551, 0xf3b9cac2, 0xa7179e84, 0xbce6faad, 0xffffffff, 0xffffffff, 0, 0xffffffff,
        ],
        bits: 256,
    }
}

// The number modulo n as r, and the x coordinate of r times G
pub fn secp256r1(number: [u8; 32]) -> Multiple<32>
    ensures { base.Multiple SECP256R1 number 32 result.r result.x }
{
    let mut x = [0; 32];
    let r = times_base(&domain(), number, &mut x);
    Multiple { r, x }
}
