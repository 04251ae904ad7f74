#![tactic(auto)]
// The identifier that stands for the current window of a unit.
ghost use Rattle.std.specs.Prelude.{◌≡◌};
ghost use Rattle.sizes.specs.Sizes.{window};
ghost use Rattle.standing.specs.Standing.{Current};

use identifier::Identifier;
use sizes::WINDOW_LENGTH;
use unit::TagUnit;

// The window of a moment: its seconds with the low 10 bits cleared.
fn window_of(seconds: u32) -> u32
    ensures { result ≡ window seconds }
{
    seconds / WINDOW_LENGTH * WINDOW_LENGTH
}

// The identifier of the current window under the key in force, with its r. None without a key, and where r is 0. It takes a multiple on the curve.
pub fn current(u: TagUnit) -> Option<Identifier>
    ensures { Current u result }
{
    let k = u.identity;
    if k.held {
        identifier::of_key(k.bytes, window_of(u.clock.seconds))
    } else {
        None
    }
}
