// The multiple of an affine point by a number, from its highest bit down, and the x coordinate of the result.
ghost use Rattle.std.specs.Prelude.{◌≡◌, ◌-◌, ◌≤◌, length};
ghost use Rattle.limbs.specs.Limbs.{value};
ghost use Rattle.curve_laws.proofs.Jacobian as jacobian;
ghost use Rattle.curve_laws.proofs.Jacobian.{affine_x};
ghost use Rattle.field.specs.Forms.{Gives, element};
ghost use Rattle.doubling.specs.Coordinates.{coordinates, Forms, Makes};
ghost use Rattle.addition.specs.Affine.{AffineForms};
ghost use Rattle.points.specs.Multiple.{Multiplies};

use addition::{Affine, add};
use digits::bit;
use doubling::{Jacobian, double};
use field::Factored;

// One bit more: the double, and the point added where the bit is 1
#[tactic(auto, unfolding(curve_laws::proofs::Jacobian::turn))]
fn turn<const N: usize>(f: &Factored<N>, j: Jacobian<N>, q: &Affine<N>, bit: u32) -> Jacobian<N>
    requires { Forms f.now.prime j × AffineForms f.now.prime q.now }
    ensures { Makes f.now.prime result (λ p v. jacobian.turn p (v q.now.x) (v q.now.y) bit (coordinates f.now.prime j.entry)) }
{
    let twice = double(&f.prime, j);
    if bit == 0 {
        return twice;
    }
    add(f, twice, q)
}

// The multiple by the lowest bits of r
pub fn multiple<const N: usize>(
    f: &Factored<N>,
    q: &Affine<N>,
    r: &[u32],
    bits: usize,
) -> Jacobian<N>
    requires { AffineForms f.now.prime q.now }
    ensures { Forms f.now.prime result × Multiplies (value f.now.prime.m) (element f.now.prime q.now.x) (element f.now.prime q.now.y) bits (value r.now) (coordinates f.now.prime result) }
{
    let x = f.one();
    let y = x;
    let z = [0; N];
    let mut j = Jacobian { x, y, z };
    for i in (0..bits).rev() {
        j = turn(f, j, q, bit(r, i));
    }
    j
}

// X / Z^2, by Fermat's power e = p - 2
#[tactic(auto, unfolding(curve_laws::proofs::Jacobian::affine_x, curve_laws::specs::Modulo::over, curve_laws::specs::Modulo::inverse))]
pub fn affine_x<const N: usize>(f: &Factored<N>, j: Jacobian<N>, e: &[u32]) -> [u32; N]
    requires { Forms f.now.prime j × (length e.now ≤ 8) × (value e.now ≡ value f.now.prime.m - 2) }
    ensures { Gives f.now.prime result (λ p v. affine_x p (coordinates f.now.prime j.entry)) }
{
    f.prime.product(j.x, f.power(f.prime.square(j.z), e))
}
