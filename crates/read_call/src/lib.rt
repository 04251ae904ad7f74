#![tactic(auto)]
// What a read does on a unit that passed the guards: it issues the lent nonce.
ghost use Rattle.std.specs.Prelude.{◌≡◌, true, ◌≤◌, length};
ghost use Rattle.sizes.specs.Sizes.{answer_room};
ghost use Rattle.nonces.specs.Nonces.{nonces_legal};
ghost use Rattle.unit.specs.Outcome.{Answers};
ghost use Rattle.read_call.specs.Read.{issuing};

use sizes::NONCE_SIZE;
use unit::{Refusal, Step, TagUnit, end};
use wire::signing;

// Issues a nonce on a well-formed unit with room for the answer.
pub fn issued(u: TagUnit, lent: &[u8], answer: &mut [u8]) -> Step
    requires { (nonces_legal u.nonces ≡ true) × (answer_room ≤ length answer.old) }
    ensures { Answers (issuing lent.now u) result.unit result.reply answer.old answer.new }
{
    if !nonces::fits(u.nonces, lent) {
        return end::refuse(u, Refusal::WrongNonce);
    }
    let after = TagUnit {
        nonces: nonces::issued(u.nonces, octets::array(lent)),
        ..u
    };
    octets::put(answer, 0, &[signing::VERSION]);
    octets::put(answer, 1, lent);
    end::accept(after, 1 + NONCE_SIZE)
}
