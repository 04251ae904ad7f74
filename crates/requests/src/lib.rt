#![tactic(auto)]
// A write as a whole, on a well-formed unit with room for the answer: reach, shape, live nonce, and the request by its ID.
ghost use Rattle.std.specs.Prelude.{◌≡◌, true, ◌||◌, ◌≤◌, ltb, length};
ghost use Rattle.sizes.specs.Sizes.{answer_room};
ghost use Rattle.unit.specs.WellFormed.{well_formed};
ghost use Rattle.unit.specs.Outcome.{Answers};
ghost use Rattle.requests.specs.Write.{needs_key, written};

use sizes::HEAD_SIZE;
use unit::{Refusal, Step, TagUnit, change, end, mask};
use write_shape::{head_of, shape_legal};

// The first request that needs an identity key.
const FIRST_KEYED: u8 = 0x03;

// Whether a request finds the identity key that it needs.
fn key_there(id: u8, held: bool) -> bool
    ensures { result ≡ (ltb id needs_key || held) }
{
    id < FIRST_KEYED || held
}

// The whole write. With a reach outside the ringable mask it is refused; else it spends the live nonce, whatever follows.
pub fn write(u: TagUnit, w: &[u8], reach: u32, answer: &mut [u8]) -> Step
    requires { (well_formed u ≡ true) × (answer_room ≤ length answer.old) }
    ensures { Answers (written u w.now reach) result.unit result.reply answer.old answer.new }
{
    let after = change::spent(u);
    if !mask::inside(reach, u.settings.components) {
        return end::refuse(u, Refusal::OutOfRange);
    }
    if !shape_legal(w) {
        return end::refuse(after, Refusal::InvalidValue);
    }
    if !u.nonces.live {
        return end::refuse(after, Refusal::NotAuthenticated);
    }
    let h = head_of(w);
    if !key_there(h.id, u.identity.held) {
        return end::refuse(after, Refusal::NotAuthenticated);
    }
    let nonce = after.nonces.newest;
    match handlers::by_id(after, h, &w[HEAD_SIZE..], reach as u8) {
        Ok(v) => answering::conclude(v, nonce, h.id, answer),
        Err(refusal) => answering::deny(change::spent(u), refusal),
    }
}
