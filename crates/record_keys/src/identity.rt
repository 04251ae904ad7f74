// An identity key as a part of a record: whether there is one, and its bytes.
ghost use Rattle.std.specs.Prelude.{◌≡◌, ◌+◌, ◌≤◌, length};
ghost use Rattle.octets.specs.Put.{Puts};
ghost use Rattle.record_fields.specs.Part.{bytes_of, value_of};
ghost use Rattle.record_parts.specs.Groups.{identity_fields, identity_size};

use record_fields::kinds::BYTE_SIZE;
use record_fields::{kinds, plain};
use sizes::IDENTITY_KEY_SIZE;
use unit::Identity;

const HELD_AT: usize = 0;

const BYTES_AT: usize = HELD_AT + BYTE_SIZE;

pub const SIZE: usize = BYTES_AT + IDENTITY_KEY_SIZE;

pub fn put(to: &mut [u8], at: usize, k: Identity)
    requires { at + identity_size ≤ length to.old }
    ensures { Puts at identity_size (bytes_of identity_fields k) to.old to.new }
{
    kinds::put_flag(to, at + HELD_AT, k.held);
    plain::put_bytes(to, at + BYTES_AT, k.bytes);
}

pub fn read(from: &[u8], at: usize) -> Identity
    requires { at + identity_size ≤ length from.now }
    ensures { result ≡ value_of identity_fields from.now at }
{
    Identity {
        held: kinds::flag(from, at + HELD_AT),
        bytes: plain::bytes(from, at + BYTES_AT),
    }
}
