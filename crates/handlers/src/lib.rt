#![tactic(auto)]
// The request by its ID: the nine handlers.
ghost use Rattle.std.specs.Prelude.{◌≡◌, true};
ghost use Rattle.wire.specs.Shape.{request, size_legal};
ghost use Rattle.authentication.specs.Promises.{Ready, Judges};
ghost use Rattle.handlers.specs.ById.{by_id};

use authentication::Verdict;
use unit::{Refusal, TagUnit};
use wire::Head;

// Hands the request, with the write's tail as its additional data, to the handler of its ID. A ring is also handed the reachable parts.
pub fn by_id(u: TagUnit, h: Head, additional: &[u8], reach: u8) -> Result<Verdict, Refusal>
    requires { Ready u h.size additional.now × (size_legal h.id h.size ≡ true) }
    ensures { Judges u h.id (by_id u (request h additional.now) reach) result }
{
    // Kept: the paper's form, a match on the ID's byte.
    match h.id {
        0x00 => parameter_read::read_parameters(u, h, additional),
        0x01 => state_read::read_state(u, h, additional),
        0x02 => provisioning::set_key(u, h, additional),
        0x03 => clearing::clear_key(u, h, additional),
        0x04 => recovery::recover_key(u, h, additional),
        0x05 => ringing::ring(u, h, additional, reach),
        0x06 => ringing::read_sound(u, h, additional),
        0x07 => protecting::protect(u, h, additional),
        0x08 => protecting::unprotect(u, h, additional),
        _ => Err(Refusal::InvalidValue),
    }
}
