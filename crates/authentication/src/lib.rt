#![tactic(auto)]
// The verdict on a request: the unit after it, the key that was used and the data of its answer; and whether a key made a request's tag. A key
// is made ready once, for the request's tag and for its answer's. Which account key signed is found in `signers`; `answering` signs the answer.
ghost use Rattle.std.specs.Prelude.{◌≡◌, List, ℕ, ◌≤◌, length};
ghost use Rattle.sizes.specs.Sizes.{most_length, most_data};
ghost use Rattle.primitives.specs.Standards.{keyed_by};
ghost use Rattle.wire.specs.Shape.{request};
ghost use Rattle.authentication.specs.Judgement.{tagged as is_tagged};

use primitives::Keyed;
use sizes::{MOST_DATA, NONCE_SIZE};
use unit::TagUnit;
use wire::{Head, signing};

pub mod identity;

// An account key that signed a request: its place in the key table, and the key made ready.
#[derive(Clone, Copy)]
pub struct Signer {
    pub place: usize,
    pub key: Keyed,
}

// What a granted request comes to: the unit after it, the key that it was judged with and that signs its answer, an account key or one made
// from the identity key, and the data of the answer, the first `size` bytes of the payload. A denied request has a refusal in its place.
// Kept: no heap, fixed memory: the data are an array with their number beside it.
#[derive(Clone, Copy)]
pub struct Verdict {
    pub unit: TagUnit,
    pub key: Keyed,
    pub size: usize,
    pub payload: [u8; MOST_DATA],
    ghost fits: { size ≤ most_data },
}

// Whether the request's tag is the one that this key makes with this nonce.
pub fn tagged(key: Keyed, nonce: [u8; NONCE_SIZE], h: Head, additional: &[u8]) -> bool
    requires { length additional.now ≤ most_length }
    ensures { (k : List ℕ) → key ≡ keyed_by k → result ≡ is_tagged k nonce (request h additional.now) }
{
    let made = signing::request_tag(key, nonce, h.id, h.size, additional);
    octets::same(&made, &h.tag)
}
