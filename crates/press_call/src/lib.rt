#![tactic(auto)]
// What a press of the button does on a unit that passed the guards.
ghost use Rattle.std.specs.Prelude.{◌≤◌, length};
ghost use Rattle.sizes.specs.Sizes.{answer_room};
ghost use Rattle.unit.specs.Outcome.{Answers};
ghost use Rattle.press_call.specs.Press.{pressed as pressed_of};

use sizes::FULL_CONSENT;
use unit::{Sound, Step, TagUnit, change, end};

// A press on a well-formed unit: stops a ring, with a notice; while silent gives consent.
pub fn pressed(u: TagUnit, answer: &mut [u8]) -> Step
    requires { answer_room ≤ length answer.old }
    ensures { Answers (pressed_of u.sound u) result.unit result.reply answer.old answer.new }
{
    match u.sound {
        Sound::Silent => {
            let after = TagUnit {
                consent: FULL_CONSENT,
                ..u
            };
            end::accept(after, 0)
        }
        Sound::Ringing { .. } => {
            let nonce = u.ring_nonce;
            let count = answers::stop_notice(u.identity.bytes, nonce, answers::BY_BUTTON, answer);
            end::accept(change::silenced(u), count)
        }
    }
}
