// The multiple of the base point by a number, for any curve.
ghost use Rattle.std.specs.Prelude.{◌≡◌, ◌%◌, ◌<◌, length};
ghost use Rattle.laws.specs.Bytes as octets;
ghost use Rattle.limbs.specs.Limbs.{value};
ghost use Rattle.field.specs.Forms.{Form};
ghost use Rattle.points.specs.Multiple.{SideOf};
ghost use Rattle.curves.specs.Base.{prime, base_x, base_y, OnItsCurves};

use super::Domain;
use addition::Affine;
use digits::{remainder, to_bytes};
use points::multiple::{affine_x, multiple};

// The x coordinate of the multiple of the base point by the lowest bits of r
fn multiple_x<const W: usize, const S: usize>(d: &Domain<W, S>, r: [u32; S]) -> [u32; W]
    ensures { Form d.now.p.prime result × SideOf (prime d.now) (base_x d.now) (base_y d.now) d.now.bits (value r.entry) (value result) }
{
    let x = d.p.form_of(d.x);
    let y = d.p.form_of(d.y);
    let q = Affine { x, y };
    let j = multiple(&d.p, &q, &r, d.bits);
    d.p.prime.number_of(affine_x(&d.p, j, &d.exponent))
}

// The number modulo n
fn scalar<const S: usize>(number: [u8; 32], n: &[u32; S]) -> [u32; S]
    requires { 0 < value n.now }
    ensures { value result ≡ octets.number number % value n.now }
{
    let mut r = [0; S];
    remainder(&mut r, &number, n);
    r
}

// The number modulo n as r, and the x coordinate of r times the base point, as many bytes of it as x has room for
pub fn times_base<const W: usize, const S: usize>(
    d: &Domain<W, S>,
    number: [u8; 32],
    x: &mut [u8],
) -> [u8; 32]
    ensures { OnItsCurves d.now number (length x.old) result x.new }
{
    let limbs = scalar(number, &d.n);
    let found = multiple_x(d, limbs);
    to_bytes(x, &found);
    let mut r = [0; 32];
    to_bytes(&mut r, &limbs);
    r
}
