// Pairing mode.
ghost use Rattle.std.specs.Prelude.{[]};
ghost use Rattle.unit.specs.Change.{with_pairing};
ghost use Rattle.unit.specs.Outcome.{giving, Completes};

use unit::{Step, TagUnit, end};

// The unit with pairing mode on or off.
pub fn turned(u: TagUnit, on: bool) -> Step
    ensures { Completes (giving [] (with_pairing on u)) result.unit result.reply }
{
    end::accept(TagUnit { pairing: on, ..u }, 0)
}
