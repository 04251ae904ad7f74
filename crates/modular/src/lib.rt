#![tactic(auto)]
// Numbers of the same width modulo m, each of them below m.
// Kept: `Below` in each contract: it is about two slices lent apart, and a type that held both would be no plainer.
ghost use Rattle.std.specs.Prelude.{◌≡◌, ◌+◌, ◌-◌, ◌*◌, ◌%◌, ◌<◌, length};
ghost use Rattle.limbs.specs.Limbs.{over, value, Below};

use limbs::plain::{add_times, less, subtract};

// t with the limb top above it, modulo m, where it is less than 2 m
pub fn reduce_once(t: &mut [u32], top: u32, m: &[u32])
    requires { (length t.old ≡ length m.now) × (over t.old top < 2 * value m.now) }
    ensures { value t.new ≡ over t.old top % value m.now }
{
    if top == 0 && less(t, m) {
        return;
    }
    subtract(t, m);
}

// t + b modulo m
pub fn add_mod(t: &mut [u32], b: &[u32], m: &[u32])
    requires { Below t.old m.now × Below b.now m.now }
    ensures { value t.new ≡ (value t.old + value b.now) % value m.now }
{
    let top = add_times(t, 1, b);
    reduce_once(t, top, m);
}

// t - b modulo m
pub fn subtract_mod(t: &mut [u32], b: &[u32], m: &[u32])
    requires { Below t.old m.now × Below b.now m.now }
    ensures { value t.new ≡ (value t.old + (value m.now - value b.now)) % value m.now }
{
    if subtract(t, b) == 0 {
        add_times(t, 1, m);
    }
}
