// Numbers of the same width, not yet modulo anything: a sum with a multiple, a double, a difference, an order. Each goes
// limb by limb, and what does not fit the width is the result.
// Kept: slices, and a `requires` that two have one width: a number of limbs in the type would ask more of a caller who
// learns it at run time.
ghost use Rattle.std.specs.Prelude.{◌≡◌, ◌+◌, ◌*◌, ◌≤◌, ltb, length};
ghost use Rattle.limbs.specs.Limbs.{over, value};

use super::limb::{high, low, sum};

// t + x b, with the limb that stands above it
pub fn add_times(t: &mut [u32], x: u32, b: &[u32]) -> u32
    requires { length t.old ≡ length b.now }
    ensures { over t.new result ≡ value t.old + x * value b.now }
{
    let mut carry: u32 = 0;
    for i in 0..b.len() {
        let s = sum(t[i], x, b[i], carry);
        t[i] = low(s);
        carry = high(s);
    }
    carry
}

// 2 t + bit, with the bit that stands above it
pub fn twice(t: &mut [u32], bit: u32) -> u32
    ensures { over t.new result ≡ 2 * value t.old + bit }
{
    let mut carry: u32 = bit;
    for i in 0..t.len() {
        let s = sum(0, 2, t[i], carry);
        t[i] = low(s);
        carry = high(s);
    }
    carry
}

// t - b, with a limb of 1 lent above t: the result is 1 where it was not needed
// Kept: the limb that is left, and no flag: the contract counts it above t, and a `bool` would be no plainer there.
pub fn subtract(t: &mut [u32], b: &[u32]) -> u32
    requires { length t.old ≡ length b.now }
    ensures { (over t.new result + value b.now ≡ over t.old 1) × (result ≤ 1) }
{
    let mut carry: u32 = 1;
    for i in 0..b.len() {
        let s = sum(t[i], 1, u32::MAX - b[i], carry);
        t[i] = low(s);
        carry = high(s);
    }
    carry
}

// Whether a is less than b: the highest limbs that differ decide
pub fn less(a: &[u32], b: &[u32]) -> bool
    requires { length a.now ≡ length b.now }
    ensures { result ≡ ltb (value a.now) (value b.now) }
{
    for i in (0..a.len()).rev() {
        if a[i] < b[i] {
            return true;
        }
        if b[i] < a[i] {
            return false;
        }
    }
    false
}
