#![tactic(auto)]
// The request 0x02: setting the identity key. It is judged on the unit with its nonce spent.
ghost use Rattle.std.specs.Prelude.{◌≡◌, ◌≤◌, length};
ghost use Rattle.sizes.specs.Sizes.{identity_key_size};
ghost use Rattle.wire.specs.Shape.{request};
ghost use Rattle.authentication.specs.Promises.{Ready, Judges};
ghost use Rattle.provisioning.specs.Provisioning.{may_replace, awaiting as awaiting_unit, set_key};

use authentication::{Verdict, identity};
use sizes::IDENTITY_KEY_SIZE;
use unit::{Identity, Refusal, TagUnit};
use wire::Head;

// Whether 0x02 may set the key: a proof of the key in force (48), or no key in force (40).
fn may_replace(u: TagUnit, h: Head, additional: &[u8]) -> bool
    requires { identity_key_size ≤ length additional.now }
    ensures { result ≡ may_replace u (request h additional.now) }
{
    if h.size == shapes::PROVEN_SIZE {
        u.identity.held && identity::proves(u, &additional[IDENTITY_KEY_SIZE..])
    } else {
        !u.identity.held
    }
}

// The unit with a new identity key that waits.
fn awaiting(u: TagUnit, key: [u8; IDENTITY_KEY_SIZE]) -> TagUnit
    ensures { result ≡ awaiting_unit key u }
{
    TagUnit {
        waiting: Identity {
            held: true,
            bytes: key,
        },
        ..u
    }
}

// 0x02: sets the identity key, which waits for the connection to end; the owner's account key is then the most recently used.
pub fn set_key(u: TagUnit, h: Head, additional: &[u8]) -> Result<Verdict, Refusal>
    requires { Ready u h.size additional.now × (identity_key_size ≤ length additional.now) }
    ensures { Judges u h.id (set_key u (request h additional.now)) result }
{
    let signer = signers::signed_by_owner(u, h, additional).ok_or(Refusal::NotAuthenticated)?;
    if !may_replace(u, h, additional) {
        return Err(Refusal::NotAuthenticated);
    }
    let key = signers::key_at(u.accounts, signer.place);
    let after = TagUnit {
        accounts: account_keys::used(u.accounts, signer.place),
        ..awaiting(u, key_blocks::decrypted_key(key, additional))
    };
    Ok(answering::granted(after, signer.key, b""))
}
