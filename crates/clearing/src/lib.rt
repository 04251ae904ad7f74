#![tactic(auto)]
// The request 0x03: clearing the identity key. It is judged on the unit with its nonce spent, and only with an identity key.
ghost use Rattle.std.specs.Prelude.{◌≡◌};
ghost use Rattle.wire.specs.Shape.{request};
ghost use Rattle.authentication.specs.Promises.{Ready, Judges};
ghost use Rattle.clearing.specs.Clearing.{cleared as cleared_unit, clear_key};

use authentication::{Verdict, identity};
use unit::{Refusal, TagUnit, change};
use wire::Head;

// The unit cleared: fresh, but for settings, clock, issued nonces, battery and pairing.
fn cleared(u: TagUnit) -> TagUnit
    ensures { result ≡ cleared_unit u }
{
    TagUnit {
        clock: u.clock,
        nonces: u.nonces,
        battery: u.battery,
        pairing: u.pairing,
        ..change::fresh(u.settings)
    }
}

// 0x03: clears the identity key.
pub fn clear_key(u: TagUnit, h: Head, additional: &[u8]) -> Result<Verdict, Refusal>
    requires { Ready u h.size additional.now }
    ensures { Judges u h.id (clear_key u (request h additional.now)) result }
{
    let signer = signers::signed_by_owner(u, h, additional).ok_or(Refusal::NotAuthenticated)?;
    if !identity::proves(u, additional) {
        return Err(Refusal::NotAuthenticated);
    }
    Ok(answering::granted(cleared(u), signer.key, b""))
}
