#![tactic(auto)]
// The field of a prime m, in Montgomery's form: what a method is said to compute is what the forms hold.
ghost use Rattle.field.specs.Montgomery.{Field, Square};

pub mod form;
pub mod operation;
pub mod power;

// A prime m of N limbs, at most 8, with Montgomery's constant.
#[derive(Clone, Copy)]
pub struct Prime<const N: usize> {
    pub m: [u32; N],
    pub inv: u32,
    pub ghost field: { Field m inv },
}

// A prime with the factor that takes a number into its form.
#[derive(Clone, Copy)]
pub struct Factored<const N: usize> {
    pub prime: Prime<N>,
    pub factor: [u32; N],
    pub ghost squared: { Square prime.m factor },
}
