// The owner as a part of a record: 0, or 1 and the place. Where there is no owner, the place is zero.
ghost use Rattle.std.specs.Prelude.{◌≡◌, ◌+◌, ◌≤◌, length, ◌++◌};
ghost use Rattle.octets.specs.Put.{Puts};
ghost use Rattle.record_fields.specs.Part.{bytes_of, value_of};
ghost use Rattle.record_fields.specs.Kinds.{byte, number_of, count_size};
ghost use Rattle.record_parts.specs.Groups.{owner_fields, owner_size};

use record_fields::kinds;
use record_fields::kinds::{BYTE_SIZE, COUNT_SIZE};

const KIND_AT: usize = 0;

const PLACE_AT: usize = KIND_AT + BYTE_SIZE;

pub const SIZE: usize = PLACE_AT + COUNT_SIZE;

fn put_fields(to: &mut [u8], at: usize, kind: u8, place: usize)
    requires { at + owner_size ≤ length to.old }
    ensures { Puts at owner_size (byte.bytes kind ++ (number_of count_size).bytes place) to.old to.new }
{
    kinds::put_byte(to, at + KIND_AT, kind);
    kinds::put_count(to, at + PLACE_AT, place);
}

pub fn put(to: &mut [u8], at: usize, o: Option<usize>)
    requires { at + owner_size ≤ length to.old }
    ensures { Puts at owner_size (bytes_of owner_fields o) to.old to.new }
{
    match o {
        None => put_fields(to, at, 0, 0),
        Some(p) => put_fields(to, at, 1, p),
    }
}

pub fn read(from: &[u8], at: usize) -> Option<usize>
    requires { at + owner_size ≤ length from.now }
    ensures { result ≡ value_of owner_fields from.now at }
{
    if from[at + KIND_AT] == 1 {
        Some(kinds::count(from, at + PLACE_AT))
    } else {
        None
    }
}
