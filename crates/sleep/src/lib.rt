#![tactic(auto)]
// How long a unit may sleep: the tenths until the next thing that time alone would do.
ghost use Rattle.std.specs.Prelude.{◌≡◌, true, ◌≤◌};
ghost use Rattle.unit.specs.WellFormed.{well_formed};
ghost use Rattle.sleep.specs.Counts.{window_left, or_sooner, left_of};
ghost use Rattle.sleep.specs.Sleep.{Soonest};

use sizes::WINDOW_LENGTH;
use unit::{Clock, Sound, TagUnit};

// The tenths until the window changes.
fn window_left(c: Clock) -> u32
    requires { c.tenth ≤ 9 }
    ensures { result ≡ window_left c }
{
    let into = c.seconds % WINDOW_LENGTH;
    (WINDOW_LENGTH - into) * 10 - c.tenth as u32
}

// A count that runs, where it is not 0 and ends sooner.
fn or_sooner(count: u32, n: u32) -> u32
    ensures { result ≡ or_sooner count n }
{
    if count == 0 { n } else { count.min(n) }
}

// The tenths left of a ring; 0 where there is none.
fn ring_left(sound: Sound) -> u32
    ensures { result ≡ left_of sound }
{
    match sound {
        Sound::Silent => 0,
        Sound::Ringing { left, .. } => left as u32,
    }
}

// The tenths until a ring or consent ends or the window changes, on a well-formed unit.
pub fn soonest(u: TagUnit) -> u32
    requires { well_formed u ≡ true }
    ensures { Soonest u result }
{
    let window = window_left(u.clock);
    or_sooner(ring_left(u.sound), or_sooner(u.consent as u32, window))
}
