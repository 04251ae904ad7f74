#![tactic(auto)]
// The shape of a write: whether ID, length byte and count are legal, and its first ten bytes.
ghost use Rattle.std.specs.Prelude.{◌≡◌, ◌≤◌, length, drop};
ghost use Rattle.sizes.specs.Sizes.{head_size};
ghost use Rattle.wire.specs.Shape.{request, parsed, shape_legal};

use sizes::HEAD_SIZE;
use wire::Head;

// Whether a write has a legal shape.
pub fn shape_legal(w: &[u8]) -> bool
    ensures { result ≡ shape_legal w.now }
{
    if w.len() < 2 {
        return false;
    }
    if shapes::size_legal(w[0], w[1]) {
        return w.len() == (w[1] as usize) + 2;
    }
    false
}

// The first ten bytes of a write.
pub fn head_of(w: &[u8]) -> Head
    requires { head_size ≤ length w.now }
    ensures { request result (drop head_size w.now) ≡ parsed w.now }
{
    Head {
        id: w[0],
        size: w[1],
        tag: octets::array(&w[2..HEAD_SIZE]),
    }
}
