// Unwanted tracking protection as a part of a record: 0 off, 1 on, 2 on with the flag that lets a ring skip authentication.
ghost use Rattle.std.specs.Prelude.{◌≡◌, ◌+◌, ◌≤◌, length};
ghost use Rattle.octets.specs.Put.{Puts};
ghost use Rattle.record_fields.specs.Part.{bytes_of, value_of};
ghost use Rattle.record_fields.specs.Kinds.{byte_size};
ghost use Rattle.record_parts.specs.Groups.{protection_fields, protection_byte, protection_of};

use record_fields::kinds;
use record_fields::kinds::BYTE_SIZE;
use unit::Protection;

const KIND_AT: usize = 0;

pub const SIZE: usize = KIND_AT + BYTE_SIZE;

fn byte_of(p: Protection) -> u8
    ensures { result ≡ protection_byte p }
{
    match p {
        Protection::Off => 0,
        Protection::On { skip } => if skip { 2 } else { 1 },
    }
}

fn of_byte(kind: u8) -> Protection
    ensures { result ≡ protection_of kind }
{
    if kind == 0 {
        Protection::Off
    } else {
        Protection::On { skip: kind == 2 }
    }
}

pub fn put(to: &mut [u8], at: usize, p: Protection)
    requires { at + byte_size ≤ length to.old }
    ensures { Puts at byte_size (bytes_of protection_fields p) to.old to.new }
{
    kinds::put_byte(to, at + KIND_AT, byte_of(p));
}

pub fn read(from: &[u8], at: usize) -> Protection
    requires { at + byte_size ≤ length from.now }
    ensures { result ≡ value_of protection_fields from.now at }
{
    of_byte(from[at + KIND_AT])
}
