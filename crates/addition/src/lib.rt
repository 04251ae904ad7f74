#![tactic(auto)]
// A point in Jacobian coordinates and one in affine coordinates, added.
ghost use Rattle.curve_laws.specs.Modulo.{times, minus};
ghost use Rattle.curve_laws.proofs.Jacobian.{triple, add_with, added};
ghost use Rattle.field.specs.Forms.{Form, Gives};
ghost use Rattle.doubling.specs.Coordinates.{coordinates, Forms, Makes};
ghost use Rattle.addition.specs.Affine.{AffineForms};

use doubling::small::twofold;
use doubling::{Jacobian, double, new_y};
use field::{Factored, Prime};

// (x, y). The coordinates are in Montgomery's form.
#[derive(Clone, Copy)]
pub struct Affine<const N: usize> {
    pub x: [u32; N],
    pub y: [u32; N],
}

// H = x Z^2 - X
fn across<const N: usize>(f: &Prime<N>, x: [u32; N], jx: [u32; N], zz: [u32; N]) -> [u32; N]
    requires { Form f.now x × Form f.now jx × Form f.now zz }
    ensures { Gives f.now result (λ p v. minus p (times p (v x.entry) (v zz.entry)) (v jx.entry)) }
{
    f.difference(f.product(x, zz), jx)
}

// R = y Z^3 - Y
fn up<const N: usize>(
    f: &Prime<N>,
    y: [u32; N],
    jy: [u32; N],
    z: [u32; N],
    zz: [u32; N],
) -> [u32; N]
    requires { Form f.now y × Form f.now jy × Form f.now z × Form f.now zz }
    ensures { Gives f.now result (λ p v. minus p (times p (v y.entry) (times p (v z.entry) (v zz.entry))) (v jy.entry)) }
{
    f.difference(f.product(y, f.product(z, zz)), jy)
}

// X' = R^2 - H^3 - 2 S
fn new_x<const N: usize>(f: &Prime<N>, r: [u32; N], hhh: [u32; N], s: [u32; N]) -> [u32; N]
    requires { Form f.now r × Form f.now hhh × Form f.now s }
    ensures { Gives f.now result (λ p v. minus p (minus p (times p (v r.entry) (v r.entry)) (v hhh.entry)) (times p 2 (v s.entry))) }
{
    f.difference(f.difference(f.square(r), hhh), twofold(f, s))
}

// The third point of the line that runs H across and R up
#[tactic(auto, unfolding(curve_laws::proofs::Jacobian::add_with, curve_laws::proofs::Jacobian::add_x))]
fn through<const N: usize>(f: &Prime<N>, h: [u32; N], r: [u32; N], j: Jacobian<N>) -> Jacobian<N>
    requires { Form f.now h × Form f.now r × Forms f.now j }
    ensures { Makes f.now result (λ p v. add_with p (v h.entry) (v r.entry) (coordinates f.now j.entry)) }
{
    let hh = f.square(h);
    let hhh = f.product(h, hh);
    let s = f.product(j.x, hh);
    let x = new_x(f, r, hhh, s);
    let y = new_y(f, r, s, x, f.product(j.y, hhh));
    let z = f.product(h, j.z);
    Jacobian { x, y, z }
}

// q itself, with z = 1
fn lifted<const N: usize>(f: &Factored<N>, q: &Affine<N>) -> Jacobian<N>
    requires { AffineForms f.now.prime q.now }
    ensures { Makes f.now.prime result (λ p v. triple (v q.now.x) (v q.now.y) 1) }
{
    let Affine { x, y } = *q;
    let z = f.one();
    Jacobian { x, y, z }
}

// The sum with q
#[tactic(auto, unfolding(curve_laws::proofs::Jacobian::added, curve_laws::proofs::Jacobian::add_h, curve_laws::proofs::Jacobian::add_r))]
pub fn add<const N: usize>(f: &Factored<N>, j: Jacobian<N>, q: &Affine<N>) -> Jacobian<N>
    requires { Forms f.now.prime j × AffineForms f.now.prime q.now }
    ensures { Makes f.now.prime result (λ p v. added p (v q.now.x) (v q.now.y) (coordinates f.now.prime j.entry)) }
{
    let p = &f.prime;
    if p.is_zero(j.z) {
        return lifted(f, q);
    }
    let zz = p.square(j.z);
    let h = across(p, q.x, j.x, zz);
    let r = up(p, q.y, j.y, j.z, zz);
    if p.is_zero(h) && p.is_zero(r) {
        return double(p, j);
    }
    through(p, h, r, j)
}
