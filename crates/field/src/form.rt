// Into Montgomery's form and out of it.
ghost use Rattle.std.specs.Prelude.{◌≡◌, ◌<◌};
ghost use Rattle.limbs.specs.Limbs.{value};
ghost use Rattle.field.specs.Forms.{element, Form, Holds};

use super::{Factored, Prime};

impl<const N: usize> Factored<N> {
    // The form that holds a number. Its factor is the power of the base above m's limbs, squared
    pub fn form_of(&self, a: [u32; N]) -> [u32; N]
        requires { Form self.now.prime a }
        ensures { Holds self.now.prime result (value a.entry) }
    {
        self.prime.product(a, self.factor)
    }

    // The form that holds 1
    pub fn one(&self) -> [u32; N]
        ensures { Holds self.now.prime result 1 }
    {
        self.form_of(unit())
    }
}

impl<const N: usize> Prime<N> {
    // The number that a form holds
    pub fn number_of(&self, a: [u32; N]) -> [u32; N]
        requires { Form self.now a }
        ensures { Form self.now result × (value result ≡ element self.now a.entry) }
    {
        self.product(a, unit())
    }
}

// The number 1
#[tactic(auto, using(crate::proofs::Forms::value_unit))]
fn unit<const N: usize>() -> [u32; N]
    requires { 0 < N }
    ensures { value result ≡ 1 }
{
    let mut one = [0; N];
    one[0] = 1;
    one
}
