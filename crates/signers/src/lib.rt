#![tactic(auto)]
// The account key that signed a request.
ghost use Rattle.std.specs.Prelude.{◌≡◌, true, [], ◌≤◌, ◌<◌, ◌*◌, length, get_or};
ghost use Rattle.sizes.specs.Sizes.{account_key_size, most_length};
ghost use Rattle.tables.specs.Rows.{rows, first_that};
ghost use Rattle.unit.specs.WellFormed.{well_formed, held_keys, owner_key, owner_legal, accounts_legal};
ghost use Rattle.wire.specs.Shape.{request};
ghost use Rattle.authentication.specs.Judgement.{tagged as is_tagged, used_key, signed_by_owner};
ghost use Rattle.authentication.specs.Promises.{Finds, Tries, Identifies};

use authentication::{Signer, tagged};
use primitives::Keyed;
use sizes::{ACCOUNT_KEY_SIZE, NONCE_SIZE};
use unit::{Accounts, TagUnit};
use wire::Head;

// Tries a key on a request: the key made ready, if it signed the request.
fn tried(bytes: &[u8], nonce: [u8; NONCE_SIZE], h: Head, additional: &[u8]) -> Option<Keyed>
    requires { (length bytes.now ≤ account_key_size) × (length additional.now ≤ most_length) }
    ensures { Tries bytes.now (is_tagged bytes.now nonce (request h additional.now)) result }
{
    let key = primitives::ready_key(bytes);
    if tagged(key, nonce, h, additional) {
        Some(key)
    } else {
        None
    }
}

// The first of the keys below the count, the most recently used first, whose tag matches.
fn first_of(
    keys: &[u8],
    count: usize,
    nonce: [u8; NONCE_SIZE],
    h: Head,
    additional: &[u8],
) -> Option<Signer>
    requires { (count * account_key_size ≤ length keys.now) × (length additional.now ≤ most_length) }
    ensures { Identifies (first_that (λ k. is_tagged k nonce (request h additional.now)) (rows account_key_size count keys.now)) (rows account_key_size count keys.now) result }
{
    // Kept: the paper's form of the search, a loop that yields the place by `break`.
    let mut i = 0;
    loop {
        if count <= i {
            break None;
        }
        let row = tables::row(keys, ACCOUNT_KEY_SIZE, count, i);
        if let Some(key) = tried(row, nonce, h, additional) {
            break Some(Signer { place: i, key });
        }
        i += 1;
    }
}

// The account key that a request uses: the first held key, the most recently used first, whose tag matches.
pub fn used_key(u: TagUnit, h: Head, additional: &[u8]) -> Option<Signer>
    requires { (well_formed u ≡ true) × (length additional.now ≤ most_length) }
    ensures { Identifies (used_key u (request h additional.now)) (held_keys u.accounts) result }
{
    let a = u.accounts;
    first_of(&a.keys, a.count, u.nonces.newest, h, additional)
}

// The owner's place.
pub fn owner_place(a: Accounts) -> Option<usize>
    requires { owner_legal a ≡ true }
    ensures { Finds (owner_key a) (held_keys a) result }
{
    a.owner
}

// The account key at a place.
pub fn key_at(a: Accounts, place: usize) -> [u8; ACCOUNT_KEY_SIZE]
    requires { (accounts_legal a ≡ true) × (place < length (held_keys a)) }
    ensures { result ≡ get_or (held_keys a) place [] }
{
    octets::array(tables::row(&a.keys, ACCOUNT_KEY_SIZE, a.count, place))
}

// The owner's key, if there is an owner whose key signed the request.
pub fn signed_by_owner(u: TagUnit, h: Head, additional: &[u8]) -> Option<Signer>
    requires { (well_formed u ≡ true) × (length additional.now ≤ most_length) }
    ensures { Identifies (signed_by_owner u (request h additional.now)) (held_keys u.accounts) result }
{
    let place = owner_place(u.accounts)?;
    let owner_key = key_at(u.accounts, place);
    let key = tried(&owner_key, u.nonces.newest, h, additional)?;
    Some(Signer { place, key })
}
