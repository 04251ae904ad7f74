#![tactic(auto)]
// The request 0x01, which any account key may make: the provisioning state. It is judged on the unit with its nonce spent.
ghost use Rattle.std.specs.Prelude.{◌≡◌, true, [], ◌∷◌, ◌<◌, length, get_or};
ghost use Rattle.unit.specs.WellFormed.{held_keys, owner_key, accounts_legal, owner_legal};
ghost use Rattle.wire.specs.Shape.{request};
ghost use Rattle.authentication.specs.Promises.{Ready, Judges};
ghost use Rattle.state_read.specs.State.{owned_by, is_key, state_bits, read_state};

use authentication::Verdict;
use sizes::IDENTIFIER_SIZE;
use unit::{Accounts, Refusal, TagUnit, change};
use wire::Head;

const STATE_SIZE: usize = 1 + IDENTIFIER_SIZE;

// Bit 0x01: an identity key is held; bit 0x02: the key used is the owner.
fn state_bits(keyed: bool, owner: bool) -> u8
    ensures { result ≡ state_bits keyed owner }
{
    if keyed {
        if owner { 3 } else { 1 }
    } else {
        if owner { 2 } else { 0 }
    }
}

// The accounts after the key at a place was used: where there was no owner, that key is.
fn owned_by(a: Accounts, place: usize) -> Accounts
    requires { (accounts_legal a ≡ true) × (place < length (held_keys a)) }
    ensures { result ≡ owned_by (get_or (held_keys a) place []) a }
{
    match a.owner {
        None => change::with_owner(a, Some(place)),
        Some(_) => a,
    }
}

// Whether the key at a place is the owner's.
fn owns(a: Accounts, place: usize) -> bool
    requires { ((accounts_legal a ≡ true) × (owner_legal a ≡ true)) × (place < length (held_keys a)) }
    ensures { result ≡ is_key (owner_key a) (get_or (held_keys a) place []) }
{
    a.owner == Some(place)
}

// What 0x01 gives where an identifier stands: the state, and behind it the identifier.
fn state_of(bits: u8, id: [u8; IDENTIFIER_SIZE]) -> [u8; STATE_SIZE]
    ensures { result ≡ bits ∷ id }
{
    let mut data = [bits; STATE_SIZE];
    octets::put(&mut data, 1, &id);
    data
}

// 0x01: the provisioning state. With no owner the key used becomes the owner; it is then the most recently used.
pub fn read_state(u: TagUnit, h: Head, additional: &[u8]) -> Result<Verdict, Refusal>
    requires { Ready u h.size additional.now }
    ensures { Judges u h.id (read_state u (request h additional.now)) result }
{
    let signer = signers::used_key(u, h, additional).ok_or(Refusal::NotAuthenticated)?;
    let owned = owned_by(u.accounts, signer.place);
    let bits = state_bits(u.identity.held, owns(owned, signer.place));
    let after = TagUnit {
        accounts: account_keys::used(owned, signer.place),
        ..u
    };
    match standing::current(u) {
        Some(i) => Ok(answering::granted(after, signer.key, &state_of(bits, i.id))),
        None => Ok(answering::granted(after, signer.key, &[bits])),
    }
}
