#![tactic(auto)]
// The end of an exported call: one number, and the record written back where the call changed the unit.
ghost use Rattle.std.specs.Prelude.{◌≡◌, true, length, ◌+◌, ◌*◌, ◌^◌, ◌≤◌};
ghost use Rattle.unit.specs.Refusals.{end_of, refused, refusal_number};
ghost use Rattle.unit.specs.Change.{no_unit};
ghost use Rattle.stored.specs.Record.{record_size};
ghost use Rattle.exports.specs.Exported.{refusal_base, ended_base, spends as spends_nonce, writes_back, Finishes, digest_code};

use lent_answer::WrongSize;
use unit::{Refusal, Step, change, end};

const REFUSAL_BASE: u64 = 256;

// The number of the refusal of a primitive.
const WRONG_SIZE: u64 = 7;

// 65,536 times the tenth at which a ring ended, or the tenths to sleep, stands in the number of a call about time.
const ENDED_BASE: u64 = 65536;

// Whether a refusal spends the nonce, and so changes the unit.
fn spends(refusal: Refusal) -> bool
    ensures { result ≡ spends_nonce (refusal_number refusal) }
{
    matches!(
        refusal,
        Refusal::NotAuthenticated | Refusal::InvalidValue | Refusal::NoConsent
    )
}

// The number of a refusal: 256 and the refusal's own.
pub fn refusal_code(refusal: Refusal) -> u64
    ensures { result ≡ refusal_base + refusal_number refusal }
{
    REFUSAL_BASE + u8::from(refusal) as u64
}

// Ends a call: writes the unit back on success and on a refusal that spends the nonce, and gives the bytes written, or 256 and the
// refusal's number.
pub fn finish(bytes: &mut [u8], step: Step) -> u64
    requires { writes_back (end_of step.reply) ≡ true → length bytes.old ≡ record_size }
    ensures { Finishes step.unit (end_of step.reply) result bytes.old bytes.new }
{
    match step.reply {
        Ok(count) => {
            stored::encode(bytes, step.unit);
            count as u64
        }
        Err(refusal) => {
            if spends(refusal) {
                stored::encode(bytes, step.unit);
            }
            refusal_code(refusal)
        }
    }
}

// The number of a primitive's end: the bytes written, or 256 and refusal 7.
pub fn digest_code(end: Result<(), WrongSize>, size: u64) -> u64
    ensures { result ≡ digest_code size end }
{
    match end {
        Ok(()) => size,
        Err(WrongSize) => REFUSAL_BASE + WRONG_SIZE,
    }
}

// A number with tenths.
pub fn with_tenths(code: u64, tenths: u32) -> u64
    requires { code + 2 ^ 48 ≤ 2 ^ 64 }
    ensures { result ≡ code + tenths * ended_base }
{
    code + tenths as u64 * ENDED_BASE
}

// The end of a call on bytes that are no record: refusal 2, and the bytes stay.
pub fn no_record(bytes: &mut [u8]) -> u64
    ensures { Finishes no_unit (refused 2) result bytes.old bytes.new }
{
    finish(
        bytes,
        end::refuse(change::no_unit(), Refusal::NotWellFormed),
    )
}
