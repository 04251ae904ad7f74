#![tactic(auto)]
// Points of a curve with a = p - 3 in Jacobian coordinates, over any field, and a point added to itself.
pub mod small;

ghost use Rattle.curve_laws.specs.Modulo.{times};
ghost use Rattle.curve_laws.proofs.Jacobian.{double_m, double_x, double_z, last_y, doubled};
ghost use Rattle.field.specs.Forms.{Form, Gives};
ghost use Rattle.doubling.specs.Coordinates.{coordinates, Forms, Makes};

use field::Prime;
use small::{eightfold, fourfold, threefold, twofold};

// (x / z^2, y / z^3), or infinity where z is 0. The coordinates are in Montgomery's form.
#[derive(Clone, Copy)]
pub struct Jacobian<const N: usize> {
    pub x: [u32; N],
    pub y: [u32; N],
    pub z: [u32; N],
}

// M = 3 (X - Z^2) (X + Z^2)
#[tactic(auto, unfolding(curve_laws::proofs::Jacobian::double_m))]
fn slope<const N: usize>(f: &Prime<N>, x: [u32; N], z: [u32; N]) -> [u32; N]
    requires { Form f.now x × Form f.now z }
    ensures { Gives f.now result (λ p v. double_m p (v x.entry) (v z.entry)) }
{
    let zz = f.square(z);
    let below = f.difference(x, zz);
    let above = f.sum(x, zz);
    threefold(f, f.product(below, above))
}

// X' = M^2 - 2 S
#[tactic(auto, unfolding(curve_laws::proofs::Jacobian::double_x))]
fn new_x<const N: usize>(f: &Prime<N>, slope: [u32; N], s: [u32; N]) -> [u32; N]
    requires { Form f.now slope × Form f.now s }
    ensures { Gives f.now result (λ p v. double_x p (v slope.entry) (v s.entry)) }
{
    f.difference(f.square(slope), twofold(f, s))
}

// Y' = M (S - X') - W
#[tactic(auto, unfolding(curve_laws::proofs::Jacobian::last_y))]
pub fn new_y<const N: usize>(
    f: &Prime<N>,
    slope: [u32; N],
    s: [u32; N],
    x: [u32; N],
    w: [u32; N],
) -> [u32; N]
    requires { Form f.now slope × Form f.now s × Form f.now x × Form f.now w }
    ensures { Gives f.now result (λ p v. last_y p (v slope.entry) (v s.entry) (v x.entry) (v w.entry)) }
{
    f.difference(f.product(slope, f.difference(s, x)), w)
}

// S = 4 X Y^2
fn middle<const N: usize>(f: &Prime<N>, x: [u32; N], yy: [u32; N]) -> [u32; N]
    requires { Form f.now x × Form f.now yy }
    ensures { Gives f.now result (λ p v. times p 4 (times p (v x.entry) (v yy.entry))) }
{
    fourfold(f, f.product(x, yy))
}

// W = 8 Y^4
fn last<const N: usize>(f: &Prime<N>, yy: [u32; N]) -> [u32; N]
    requires { Form f.now yy }
    ensures { Gives f.now result (λ p v. times p 8 (times p (v yy.entry) (v yy.entry))) }
{
    eightfold(f, f.square(yy))
}

// Z' = 2 Y Z
#[tactic(auto, unfolding(curve_laws::proofs::Jacobian::double_z))]
fn new_z<const N: usize>(f: &Prime<N>, y: [u32; N], z: [u32; N]) -> [u32; N]
    requires { Form f.now y × Form f.now z }
    ensures { Gives f.now result (λ p v. double_z p (v y.entry) (v z.entry)) }
{
    twofold(f, f.product(y, z))
}

// The double
#[tactic(auto, unfolding(curve_laws::proofs::Jacobian::doubled, curve_laws::proofs::Jacobian::double_with, curve_laws::proofs::Jacobian::double_s, curve_laws::proofs::Jacobian::fourth_y,))]
pub fn double<const N: usize>(f: &Prime<N>, j: Jacobian<N>) -> Jacobian<N>
    requires { Forms f.now j }
    ensures { Makes f.now result (λ p v. doubled p (coordinates f.now j.entry)) }
{
    let yy = f.square(j.y);
    let slope = slope(f, j.x, j.z);
    let s = middle(f, j.x, yy);
    let x = new_x(f, slope, s);
    let y = new_y(f, slope, s, x, last(f, yy));
    let z = new_z(f, j.y, j.z);
    Jacobian { x, y, z }
}
