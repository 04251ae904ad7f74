// The clock as a part of a record: seconds and the tenth.
ghost use Rattle.std.specs.Prelude.{◌≡◌, ◌+◌, ◌≤◌, length};
ghost use Rattle.octets.specs.Put.{Puts};
ghost use Rattle.record_fields.specs.Part.{bytes_of, value_of};
ghost use Rattle.record_parts.specs.Groups.{clock_fields, clock_size};

use record_fields::kinds;
use record_fields::kinds::{BYTE_SIZE, SECONDS_SIZE};
use unit::Clock;

const SECONDS_AT: usize = 0;

const TENTH_AT: usize = SECONDS_AT + SECONDS_SIZE;

pub const SIZE: usize = TENTH_AT + BYTE_SIZE;

pub fn put(to: &mut [u8], at: usize, c: Clock)
    requires { at + clock_size ≤ length to.old }
    ensures { Puts at clock_size (bytes_of clock_fields c) to.old to.new }
{
    kinds::put_seconds(to, at + SECONDS_AT, c.seconds);
    kinds::put_byte(to, at + TENTH_AT, c.tenth);
}

pub fn read(from: &[u8], at: usize) -> Clock
    requires { at + clock_size ≤ length from.now }
    ensures { result ≡ value_of clock_fields from.now at }
{
    Clock {
        seconds: kinds::seconds(from, at + SECONDS_AT),
        tenth: from[at + TENTH_AT],
    }
}
