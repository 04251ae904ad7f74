#![tactic(auto)]
// Time that passes, any number of tenths at once.
ghost use Rattle.std.specs.Prelude.{◌≡◌, true, ◌-◌, ◌≤◌, length};
ghost use Rattle.sizes.specs.Sizes.{answer_room};
ghost use Rattle.unit.specs.WellFormed.{well_formed};
ghost use Rattle.time.specs.Time.{tenths as tenths_of};
ghost use Rattle.time.specs.Passing.{Passes};
ghost use Rattle.time.specs.Later.{clock_later, unit_later};

use unit::{Clock, Refusal, Sound, TagUnit, change};

// A step of time: the unit, the end, and the tenth, counted from the call's start, at which a ring ended, or 0.
// Kept: `ended` is no Option, no plainer: the exported number has a 0 where no ring ended.
#[derive(Clone, Copy)]
pub struct Passed {
    pub unit: TagUnit,
    pub reply: Result<usize, Refusal>,
    pub ended: u32,
}

// A step of time that is refused.
pub fn refused(u: TagUnit, refusal: Refusal) -> Passed
    ensures { (result.unit ≡ u) × ((result.reply ≡ Err refusal) × (result.ended ≡ 0)) }
{
    Passed {
        unit: u,
        reply: Err(refusal),
        ended: 0,
    }
}

// The clock some tenths later. Seconds are counted modulo 2^32.
fn clock_after(c: Clock, tenths: u32) -> Clock
    requires { c.tenth ≤ 9 }
    ensures { result ≡ clock_later tenths c }
{
    let total = (c.tenth as u64) + (tenths as u64);
    let seconds = (c.seconds as u64) + total / 10;
    Clock {
        seconds: (seconds % 4294967296) as u32,
        tenth: (total % 10) as u8,
    }
}

// The consent left some tenths later: none where they exceed it.
fn consent_after(consent: u16, tenths: u32) -> u16
    ensures { result ≡ consent - tenths }
{
    (consent as u32).saturating_sub(tenths) as u16
}

// The unit some tenths later, its sound aside.
fn later(u: TagUnit, tenths: u32) -> TagUnit
    requires { u.clock.tenth ≤ 9 }
    ensures { result ≡ unit_later tenths u }
{
    TagUnit {
        clock: clock_after(u.clock, tenths),
        consent: consent_after(u.consent, tenths),
        ..u
    }
}

// Time on a well-formed unit with room for the answer.
pub fn elapse(u: TagUnit, tenths: u32, answer: &mut [u8]) -> Passed
    requires { (well_formed u ≡ true) × (answer_room ≤ length answer.old) }
    ensures { Passes (tenths_of tenths u) result.unit result.reply result.ended answer.old answer.new }
{
    let after = later(u, tenths);
    match u.sound {
        Sound::Silent => Passed {
            unit: after,
            reply: Ok(0),
            ended: 0,
        },
        Sound::Ringing { mask, volume, left } => {
            let nonce = u.ring_nonce;
            let end = left as u32;
            if tenths < end {
                let less = left - (tenths as u16);
                let rest = Sound::Ringing {
                    mask,
                    volume,
                    left: less,
                };
                return Passed {
                    unit: change::with_sound(after, rest, nonce),
                    reply: Ok(0),
                    ended: 0,
                };
            }
            let count = answers::stop_notice(u.identity.bytes, nonce, answers::TIMED_OUT, answer);
            Passed {
                unit: change::silenced(after),
                reply: Ok(count),
                ended: end,
            }
        }
    }
}
