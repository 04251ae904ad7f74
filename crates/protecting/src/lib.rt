#![tactic(auto)]
// The requests 0x07 and 0x08: unwanted tracking protection on and off.
ghost use Rattle.std.specs.Prelude.{◌≡◌};
ghost use Rattle.wire.specs.Shape.{request};
ghost use Rattle.authentication.specs.Promises.{Ready, Judges};
ghost use Rattle.protecting.specs.Protecting.{flag_of, protect as protect_by, unprotect as unprotect_by};

use authentication::{Verdict, identity};
use unit::{Protection, Refusal, TagUnit, change};
use wire::{Head, signing};

// The flag byte of 0x07; absent it is 0.
fn flag_of(additional: &[u8]) -> u8
    ensures { result ≡ flag_of additional.now }
{
    additional.first().copied().unwrap_or(0)
}

// 0x07: protection on, with the skip flag on or off.
pub fn protect(u: TagUnit, h: Head, additional: &[u8]) -> Result<Verdict, Refusal>
    requires { Ready u h.size additional.now }
    ensures { Judges u h.id (protect_by u (request h additional.now)) result }
{
    let key = identity::derived_key(u, signing::PROTECTION);
    if !authentication::tagged(key, u.nonces.newest, h, additional) {
        return Err(Refusal::NotAuthenticated);
    }
    let flag = flag_of(additional);
    if 1 < flag {
        return Err(Refusal::InvalidValue);
    }
    let on = Protection::On { skip: flag == 1 };
    let after = change::with_protection(u, on);
    Ok(answering::granted(after, key, b""))
}

// 0x08: protection off.
pub fn unprotect(u: TagUnit, h: Head, additional: &[u8]) -> Result<Verdict, Refusal>
    requires { Ready u h.size additional.now }
    ensures { Judges u h.id (unprotect_by u (request h additional.now)) result }
{
    let key = identity::derived_key(u, signing::PROTECTION);
    if !authentication::tagged(key, u.nonces.newest, h, additional) {
        return Err(Refusal::NotAuthenticated);
    }
    if !identity::proves(u, additional) {
        return Err(Refusal::NotAuthenticated);
    }
    let after = change::with_protection(u, Protection::Off);
    Ok(answering::granted(after, key, b""))
}
