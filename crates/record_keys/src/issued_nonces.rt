// The issued nonces as a part of a record: how many there are, whether the newest is live, the newest, and the room of the earlier ones.
ghost use Rattle.std.specs.Prelude.{◌≡◌, ◌+◌, ◌≤◌, length};
ghost use Rattle.octets.specs.Put.{Puts};
ghost use Rattle.record_fields.specs.Part.{bytes_of, value_of};
ghost use Rattle.record_parts.specs.Groups.{nonces_fields, nonces_size};

use nonces::Nonces;
use record_fields::kinds::BYTE_SIZE;
use record_fields::{kinds, plain};
use sizes::{EARLIER_ROOM, NONCE_SIZE};

const COUNT_AT: usize = 0;

const LIVE_AT: usize = COUNT_AT + BYTE_SIZE;

const NEWEST_AT: usize = LIVE_AT + BYTE_SIZE;

const EARLIER_AT: usize = NEWEST_AT + NONCE_SIZE;

pub const SIZE: usize = EARLIER_AT + EARLIER_ROOM;

pub fn put(to: &mut [u8], at: usize, n: Nonces)
    requires { at + nonces_size ≤ length to.old }
    ensures { Puts at nonces_size (bytes_of nonces_fields n) to.old to.new }
{
    kinds::put_byte(to, at + COUNT_AT, n.count);
    kinds::put_flag(to, at + LIVE_AT, n.live);
    plain::put_bytes(to, at + NEWEST_AT, n.newest);
    plain::put_bytes(to, at + EARLIER_AT, n.earlier);
}

pub fn read(from: &[u8], at: usize) -> Nonces
    requires { at + nonces_size ≤ length from.now }
    ensures { result ≡ value_of nonces_fields from.now at }
{
    Nonces {
        count: from[at + COUNT_AT],
        live: kinds::flag(from, at + LIVE_AT),
        newest: plain::bytes(from, at + NEWEST_AT),
        earlier: plain::bytes(from, at + EARLIER_AT),
    }
}
