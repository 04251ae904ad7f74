// The account keys as a part of a record: their count, the owner, and the table.
ghost use Rattle.std.specs.Prelude.{◌≡◌, ◌+◌, ◌≤◌, length};
ghost use Rattle.octets.specs.Put.{Puts};
ghost use Rattle.record_fields.specs.Part.{bytes_of, value_of};
ghost use Rattle.record_parts.specs.Groups.{accounts_fields, accounts_size};

use crate::owner;
use record_fields::kinds::COUNT_SIZE;
use record_fields::{kinds, plain};
use sizes::KEYS_ROOM;
use unit::Accounts;

const COUNT_AT: usize = 0;

const OWNER_AT: usize = COUNT_AT + COUNT_SIZE;

const KEYS_AT: usize = OWNER_AT + owner::SIZE;

pub const SIZE: usize = KEYS_AT + KEYS_ROOM;

pub fn put(to: &mut [u8], at: usize, a: Accounts)
    requires { at + accounts_size ≤ length to.old }
    ensures { Puts at accounts_size (bytes_of accounts_fields a) to.old to.new }
{
    kinds::put_count(to, at + COUNT_AT, a.count);
    owner::put(to, at + OWNER_AT, a.owner);
    plain::put_bytes(to, at + KEYS_AT, a.keys);
}

pub fn read(from: &[u8], at: usize) -> Accounts
    requires { at + accounts_size ≤ length from.now }
    ensures { result ≡ value_of accounts_fields from.now at }
{
    Accounts {
        count: kinds::count(from, at + COUNT_AT),
        owner: owner::read(from, at + OWNER_AT),
        keys: plain::bytes(from, at + KEYS_AT),
    }
}
