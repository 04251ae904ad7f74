// Powers of a form, by squares: the exponent's bits from the top.
ghost use Rattle.std.specs.Prelude.{◌*◌, ◌%◌, ◌^◌, ◌≤◌, length};
ghost use Rattle.limbs.specs.Limbs.{value};
ghost use Rattle.curve_laws.specs.Modulo as modulo;
ghost use Rattle.field.specs.Forms.{Form, Gives};

use super::{Factored, Prime};
use digits::bit;

impl<const N: usize> Prime<N> {
    // One bit more: t t, and times a where the bit is 1
    #[tactic(auto, using(crate::proofs::Powers::without, crate::proofs::Powers::with_one))]
    fn turn(&self, t: [u32; N], a: [u32; N], bit: u32) -> [u32; N]
        requires { Form self.now t × Form self.now a × (bit ≤ 1) }
        ensures { Gives self.now result (λ p v. v t.entry * v t.entry * v a.entry ^ bit % p) }
    {
        let twice = self.square(t);
        if bit == 0 {
            return twice;
        }
        self.product(twice, a)
    }
}

impl<const N: usize> Factored<N> {
    // a to the e
    pub fn power(&self, a: [u32; N], e: &[u32]) -> [u32; N]
        requires { Form self.now.prime a × (length e.now ≤ 8) }
        ensures { Gives self.now.prime result (λ p v. modulo.power p (v a.entry) (value e.now)) }
    {
        let mut t = self.one();
        for i in (0..32 * e.len()).rev() {
            t = self.prime.turn(t, a, bit(e, i));
        }
        t
    }
}
