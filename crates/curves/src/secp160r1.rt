// SECP160R1 of SEC 2, section 2.4.2.
ghost use Rattle.curve_laws.specs.Curves.{SECP160R1};
ghost use Rattle.curves.specs.Base as base;
ghost use Rattle.curves.specs.Base.{Of};

use super::base::times_base;
use super::{Domain, Multiple};
use field::{Factored, Prime};

fn domain() -> Domain<5, 6>
    ensures { Of SECP160R1 result }
{
    Domain {
        p: Factored {
            prime: Prime {
                m: [0x7fffffff, 0xffffffff, 0xffffffff, 0xffffffff, 0xffffffff],
                inv: 0x80000001,
            },
            factor: [1, 0x40000001, 0, 0, 0],
        },
        exponent: [0x7ffffffd, 0xffffffff, 0xffffffff, 0xffffffff, 0xffffffff],
        x: [0x13cbfc82, 0x68c38bb9, 0x46646989, 0x8ef57328, 0x4a96b568],
        y: [0x7ac5fb32, 0x04235137, 0x59dcc912, 0x3168947d, 0x23a62855],
        n: [0xca752257, 0xf927aed3, 0x0001f4c8, 0, 0, 1],
        bits: 161,
    }
}

// The number modulo n as r, and the x coordinate of r times G
pub fn secp160r1(number: [u8; 32]) -> Multiple<20>
    ensures { base.Multiple SECP160R1 number 20 result.r result.x }
{
    let mut x = [0; 20];
    let r = times_base(&domain(), number, &mut x);
    Multiple { r, x }
}
