// The end of a call, beside the unit after it.
ghost use Rattle.std.specs.Prelude.{◌≡◌};
ghost use Rattle.unit.specs.Refusals.{refusal_number};

use crate::{Refusal, Step, TagUnit};

// Refused: the unit as it is.
pub fn refuse(u: TagUnit, refusal: Refusal) -> Step
    ensures { (result.unit ≡ u) × (result.reply ≡ Err refusal) }
{
    Step {
        unit: u,
        reply: Err(refusal),
    }
}

// Served: how many answer bytes were written.
pub fn accept(u: TagUnit, count: usize) -> Step
    ensures { (result.unit ≡ u) × (result.reply ≡ Ok count) }
{
    Step {
        unit: u,
        reply: Ok(count),
    }
}

// The number of a refusal in the paper's list.
impl From<Refusal> for u8 {
    ghost from_gives = { λ refusal number. number ≡ refusal_number refusal };

    fn from(refusal: Refusal) -> u8 {
        match refusal {
            Refusal::NotAuthenticated => 0x80,
            Refusal::InvalidValue => 0x81,
            Refusal::NoConsent => 0x82,
            Refusal::OutOfRange => 1,
            Refusal::NotWellFormed => 2,
            Refusal::WrongNonce => 3,
            Refusal::WrongAccountKey => 4,
            Refusal::NoFrame => 5,
            Refusal::NoRoom => 6,
        }
    }
}
