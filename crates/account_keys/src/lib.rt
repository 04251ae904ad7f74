#![tactic(auto)]
// The account keys in order of use, the most recently used first. Inner calls: each says what it asks of its caller.
ghost use Rattle.std.specs.Prelude.{◌≡◌, true, [], ◌<◌, length, get_or};
ghost use Rattle.sizes.specs.Sizes.{account_key_size, most_keys};
ghost use Rattle.unit.specs.WellFormed.{accounts_legal, held_keys};
ghost use Rattle.account_keys.specs.Order.{key_first, followed as followed_to, key_used, least_used, place_for, key_added};

use sizes::{ACCOUNT_KEY_SIZE, KEYS_ROOM, MOST_KEYS};
use std::cmp::Ordering;
use unit::Accounts;

// The table with a key first: those before a place stand one further on, and what stood at the place is gone.
fn key_first(keys: [u8; KEYS_ROOM], place: usize, key: [u8; ACCOUNT_KEY_SIZE]) -> [u8; KEYS_ROOM]
    requires { place < most_keys }
    ensures { result ≡ key_first place key keys }
{
    let mut after = keys;
    octets::put(
        &mut after,
        ACCOUNT_KEY_SIZE,
        &keys[..place * ACCOUNT_KEY_SIZE],
    );
    octets::put(&mut after, 0, &key);
    after
}

// Where the owner stands once a key came first and what stood at a place is gone.
fn followed(owner: Option<usize>, place: usize) -> Option<usize>
    requires { place < most_keys }
    ensures { result ≡ followed_to place owner }
{
    let p = owner?;
    match p.cmp(&place) {
        Ordering::Equal => Some(0),
        Ordering::Less => Some(p + 1),
        Ordering::Greater => Some(p),
    }
}

// The accounts after a use of the key at a place: it is the first, and nothing else changes its order.
pub fn used(a: Accounts, place: usize) -> Accounts
    requires { (accounts_legal a ≡ true) × (place < length (held_keys a)) }
    ensures { result ≡ key_used (get_or (held_keys a) place []) a }
{
    let key = octets::array(tables::row(&a.keys, ACCOUNT_KEY_SIZE, a.count, place));
    Accounts {
        count: a.count,
        owner: followed(a.owner, place),
        keys: key_first(a.keys, place, key),
    }
}

// The place of the least recently used key of a full table: the last that is not the owner's.
fn least_used(owner: Option<usize>) -> usize
    ensures { result ≡ least_used owner }
{
    if owner == Some(MOST_KEYS - 1) {
        MOST_KEYS - 2
    } else {
        MOST_KEYS - 1
    }
}

// The place that a new key takes the room of: behind the keys, or in a full table that of the least recently used that is not the owner's.
fn place_for(a: Accounts) -> usize
    ensures { result ≡ place_for a }
{
    if a.count < MOST_KEYS {
        a.count
    } else {
        least_used(a.owner)
    }
}

// The accounts with a new key, first. In a full table the least recently used that is not the owner's goes.
pub fn added(a: Accounts, key: &[u8]) -> Accounts
    requires { (accounts_legal a ≡ true) × (length key.now ≡ account_key_size) }
    ensures { result ≡ key_added key.now a }
{
    let place = place_for(a);
    Accounts {
        count: (a.count + 1).min(MOST_KEYS),
        owner: followed(a.owner, place),
        keys: key_first(a.keys, place, octets::array(key)),
    }
}
