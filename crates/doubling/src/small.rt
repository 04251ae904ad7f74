// Small multiples of a form, by sums.
// Kept: a function for each, since the sums differ: one over the factor would have to look for them, and be no plainer.
ghost use Rattle.curve_laws.specs.Modulo.{times};
ghost use Rattle.field.specs.Forms.{Form, Gives};

use field::Prime;

// 2 a
#[tactic(auto, using(crate::proofs::Formulas::two))]
pub fn twofold<const N: usize>(f: &Prime<N>, a: [u32; N]) -> [u32; N]
    requires { Form f.now a }
    ensures { Gives f.now result (λ p v. times p 2 (v a.entry)) }
{
    f.sum(a, a)
}

// 3 a
#[tactic(auto, using(crate::proofs::Formulas::three))]
pub fn threefold<const N: usize>(f: &Prime<N>, a: [u32; N]) -> [u32; N]
    requires { Form f.now a }
    ensures { Gives f.now result (λ p v. times p 3 (v a.entry)) }
{
    f.sum(twofold(f, a), a)
}

// 4 a
#[tactic(auto, using(crate::proofs::Formulas::four))]
pub fn fourfold<const N: usize>(f: &Prime<N>, a: [u32; N]) -> [u32; N]
    requires { Form f.now a }
    ensures { Gives f.now result (λ p v. times p 4 (v a.entry)) }
{
    twofold(f, twofold(f, a))
}

// 8 a
#[tactic(auto, using(crate::proofs::Formulas::eight))]
pub fn eightfold<const N: usize>(f: &Prime<N>, a: [u32; N]) -> [u32; N]
    requires { Form f.now a }
    ensures { Gives f.now result (λ p v. times p 8 (v a.entry)) }
{
    twofold(f, fourfold(f, a))
}
