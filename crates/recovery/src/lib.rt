#![tactic(auto)]
// The request 0x04: recovering the identity key. It is judged on the unit with its nonce spent, and only with an identity key.
ghost use Rattle.std.specs.Prelude.{◌≡◌, ◌||◌, ltb};
ghost use Rattle.wire.specs.Shape.{request};
ghost use Rattle.authentication.specs.Promises.{Ready, Judges};
ghost use Rattle.recovery.specs.Recovery.{recover_key};

use authentication::{Verdict, identity};
use unit::{Refusal, TagUnit};
use wire::{Head, signing};

// Whether consent is left or pairing is on.
fn consents(consent: u16, pairing: bool) -> bool
    ensures { result ≡ (ltb 0 consent || pairing) }
{
    0 < consent || pairing
}

// 0x04: recovers the identity key, with consent or in pairing mode.
pub fn recover_key(u: TagUnit, h: Head, additional: &[u8]) -> Result<Verdict, Refusal>
    requires { Ready u h.size additional.now }
    ensures { Judges u h.id (recover_key u (request h additional.now)) result }
{
    let place = signers::owner_place(u.accounts).ok_or(Refusal::NotAuthenticated)?;
    let recovery = identity::derived_key(u, signing::RECOVERY);
    if !authentication::tagged(recovery, u.nonces.newest, h, additional) {
        return Err(Refusal::NotAuthenticated);
    }
    if !consents(u.consent, u.pairing) {
        return Err(Refusal::NoConsent);
    }
    let data = key_blocks::encrypted_key(signers::key_at(u.accounts, place), u.identity.bytes);
    Ok(answering::granted(u, recovery, &data))
}
