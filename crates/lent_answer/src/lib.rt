#![tactic(auto)]
// How the public calls of hash and cipher end: the answer is written where it has the size, or refusal 7.
ghost use Rattle.std.specs.Prelude.{eqb, length};
ghost use Rattle.lent_answer.specs.Ends.{Ends, or_refusal};

use std::array::TryFromSliceError;

// A length is not as the call asks (refusal 7), and nothing is written.
#[derive(Clone, Copy, Debug, Drop)]
pub struct WrongSize;

impl From<TryFromSliceError> for WrongSize {
    fn from(_: TryFromSliceError) -> Self {
        WrongSize
    }
}

// Gives the bytes where the answer has room for exactly them. Otherwise refusal 7, and none of them is written.
pub fn give(answer: &mut [u8], bytes: &[u8]) -> Result<(), WrongSize>
    ensures { Ends (or_refusal (eqb (length answer.old) (length bytes.now)) bytes.now) result answer.old answer.new }
{
    if answer.len() != bytes.len() {
        return Err(WrongSize);
    }
    for i in 0..bytes.len() {
        answer[i] = bytes[i];
    }
    Ok(())
}
