#![tactic(auto)]
// The advertised frame of a unit: its identifier of the current window, its protection and its battery level.
ghost use Rattle.std.specs.Prelude.{◌≡◌, ◌≤◌, length};
ghost use Rattle.sizes.specs.Sizes.{highest_battery, answer_room};
ghost use Rattle.unit.specs.Outcome.{Answers};
ghost use Rattle.advertising.specs.Showing.{protected as is_protected, showing};

use unit::{Protection, Refusal, Step, TagUnit, end};

fn protected(protection: Protection) -> bool
    ensures { result ≡ is_protected protection }
{
    match protection {
        Protection::Off => false,
        Protection::On { skip: _ } => true,
    }
}

// The frame of a well-formed unit with room for it. Refusal: 5. It takes a multiple on the curve.
pub fn shown(u: TagUnit, answer: &mut [u8]) -> Step
    requires { (u.battery ≤ highest_battery) × (answer_room ≤ length answer.old) }
    ensures { Answers (showing u) result.unit result.reply answer.old answer.new }
{
    let Some(i) = standing::current(u) else {
        return end::refuse(u, Refusal::NoFrame);
    };
    let on = protected(u.protection);
    let flags = frame::flags_for(u.battery, on, i.r);
    let count = frame::render(i.id, on, flags, answer);
    end::accept(u, count)
}
