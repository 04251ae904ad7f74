// Sum, difference and product of two forms, and whether a form holds 0.
ghost use Rattle.std.specs.Prelude.{◌≡◌, eqb};
ghost use Rattle.curve_laws.specs.Modulo.{plus, times, minus};
ghost use Rattle.field.specs.Forms.{element, Form, Gives};

use super::Prime;
use modular::{add_mod, subtract_mod};
use montgomery::montgomery;

impl<const N: usize> Prime<N> {
    // a + b
    pub fn sum(&self, a: [u32; N], b: [u32; N]) -> [u32; N]
        requires { Form self.now a × Form self.now b }
        ensures { Gives self.now result (λ p v. plus p (v a.entry) (v b.entry)) }
    {
        let mut t = a;
        add_mod(&mut t, &b, &self.m);
        t
    }

    // a - b
    pub fn difference(&self, a: [u32; N], b: [u32; N]) -> [u32; N]
        requires { Form self.now a × Form self.now b }
        ensures { Gives self.now result (λ p v. minus p (v a.entry) (v b.entry)) }
    {
        let mut t = a;
        subtract_mod(&mut t, &b, &self.m);
        t
    }

    // a b
    pub fn product(&self, a: [u32; N], b: [u32; N]) -> [u32; N]
        requires { Form self.now a × Form self.now b }
        ensures { Gives self.now result (λ p v. times p (v a.entry) (v b.entry)) }
    {
        let mut t = [0; N];
        montgomery(&mut t, &a, &b, &self.m, self.inv);
        t
    }

    // a a
    pub fn square(&self, a: [u32; N]) -> [u32; N]
        requires { Form self.now a }
        ensures { Gives self.now result (λ p v. times p (v a.entry) (v a.entry)) }
    {
        let mut t = [0; N];
        montgomery(&mut t, &a, &a, &self.m, self.inv);
        t
    }

    // Whether a is 0
    #[tactic(auto, using(crate::proofs::Forms::zero_limbs))]
    pub fn is_zero(&self, a: [u32; N]) -> bool
        requires { Form self.now a }
        ensures { result ≡ eqb (element self.now a.entry) 0 }
    {
        a == [0; N]
    }
}
