// The battery level.
ghost use Rattle.unit.specs.Outcome.{Completes};
ghost use Rattle.settings_calls.specs.Settings.{charged};

use sizes::HIGHEST_BATTERY;
use unit::{Refusal, Step, TagUnit, end};

// The unit with this level, if it is one.
pub fn told(u: TagUnit, level: u32) -> Step
    ensures { Completes (charged level u) result.unit result.reply }
{
    if (HIGHEST_BATTERY as u32) < level {
        return end::refuse(u, Refusal::OutOfRange);
    }
    let battery = level as u8;
    end::accept(TagUnit { battery, ..u }, 0)
}
