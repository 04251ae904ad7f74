// A new unit.
ghost use Rattle.std.specs.Prelude.{◌≡◌};
ghost use Rattle.unit.specs.declared.Refusal.{Refusal};
ghost use Rattle.unit.specs.Change.{no_unit};
ghost use Rattle.unit.specs.Outcome.{Completes};
ghost use Rattle.settings_calls.specs.Settings.{new_unit};

use sizes::MOST_COMPONENTS;
use unit::{Refusal, Settings, Step, change, end};

// The end of a new unit that is refused: a record that is not well formed.
fn no_unit() -> Step
    ensures { (result.unit ≡ no_unit) × (result.reply ≡ Err Refusal.OutOfRange) }
{
    Step {
        unit: change::no_unit(),
        reply: Err(Refusal::OutOfRange),
    }
}

// A fresh unit with these settings, if they are in range.
pub fn new_unit(power: i32, components: u32, selectable: u32) -> Step
    ensures { Completes (new_unit power components selectable) result.unit result.reply }
{
    if (MOST_COMPONENTS as u32) < components {
        return no_unit();
    }
    if 1 < selectable {
        return no_unit();
    }
    if !well_formed::power_legal(power) {
        return no_unit();
    }
    let settings = Settings {
        power,
        components: components as u8,
        selectable: selectable as u8,
    };
    end::accept(change::fresh(settings), 0)
}
