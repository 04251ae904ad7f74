#![tactic(auto)]
// Montgomery's product: instead of dividing by m, each step adds the multiple of m that makes the lowest limb 0 and
// drops that limb (P. L. Montgomery, Modular multiplication without trial division, 1985).
ghost use Rattle.std.specs.Prelude.{◌≡◌, ◌+◌, ◌*◌, ◌%◌, ◌^◌, length};
ghost use Rattle.limbs.specs.Limbs.{over, value, quotient, Below, Modulus};

use limbs::limb::{high, low, sum};
use modular::reduce_once;

// t with top above it and x b added, divided by the base: the multiple of m that is added makes that exact. The result
// stands above t.
fn step(t: &mut [u32], top: u32, x: u32, b: &[u32], m: &[u32], inv: u32) -> u32
    requires { Modulus m.now inv × (length t.old ≡ length m.now) × (length b.now ≡ length m.now) }
    ensures { 4294967296 * over t.new result ≡ over t.old top + x * value b.now + quotient (value t.old + x * value b.now) inv * value m.now }
{
    let first = sum(t[0], x, b[0], 0);
    let bottom = low(first);
    let q = low(sum(0, bottom, inv, 0));
    let mut carry = high(first);
    let mut carry_m = high(sum(bottom, q, m[0], 0));
    for i in 1..m.len() {
        let s = sum(t[i], x, b[i], carry);
        carry = high(s);
        let z = sum(low(s), q, m[i], carry_m);
        carry_m = high(z);
        t[i - 1] = low(z);
    }
    let last = top as u64 + carry as u64 + carry_m as u64;
    t[m.len() - 1] = low(last);
    high(last)
}

// a b over the power of the base above m's limbs, modulo m. t is 0 at first.
pub fn montgomery(t: &mut [u32], a: &[u32], b: &[u32], m: &[u32], inv: u32)
    requires { Modulus m.now inv × Below t.old m.now × Below b.now m.now × (length a.now ≡ length m.now) × (value t.old ≡ 0) }
    ensures { Below t.new m.now × (value t.new * 4294967296 ^ length m.now % value m.now ≡ value a.now * value b.now % value m.now) }
{
    let mut top: u32 = 0;
    for &x in a {
        top = step(t, top, x, b, m, inv);
    }
    reduce_once(t, top, m);
}
