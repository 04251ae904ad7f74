// The sound as a part of a record: 0, or 1 with the mask, the volume and the tenths left. Silence has zeros there.
ghost use Rattle.std.specs.Prelude.{◌≡◌, ◌+◌, ◌≤◌, length, ◌++◌};
ghost use Rattle.octets.specs.Put.{Puts};
ghost use Rattle.record_fields.specs.Part.{bytes_of, value_of};
ghost use Rattle.record_fields.specs.Kinds.{byte, number_of, tenths_size};
ghost use Rattle.record_parts.specs.Groups.{sound_fields, sound_size};

use record_fields::kinds;
use record_fields::kinds::{BYTE_SIZE, TENTHS_SIZE};
use unit::Sound;

const KIND_AT: usize = 0;

const MASK_AT: usize = KIND_AT + BYTE_SIZE;

const VOLUME_AT: usize = MASK_AT + BYTE_SIZE;

const LEFT_AT: usize = VOLUME_AT + BYTE_SIZE;

pub const SIZE: usize = LEFT_AT + TENTHS_SIZE;

fn put_fields(to: &mut [u8], at: usize, kind: u8, mask: u8, volume: u8, left: u16)
    requires { at + sound_size ≤ length to.old }
    ensures { Puts at sound_size (byte.bytes kind ++ byte.bytes mask ++ byte.bytes volume ++ (number_of tenths_size).bytes left) to.old to.new }
{
    kinds::put_byte(to, at + KIND_AT, kind);
    kinds::put_byte(to, at + MASK_AT, mask);
    kinds::put_byte(to, at + VOLUME_AT, volume);
    kinds::put_tenths(to, at + LEFT_AT, left);
}

pub fn put(to: &mut [u8], at: usize, s: Sound)
    requires { at + sound_size ≤ length to.old }
    ensures { Puts at sound_size (bytes_of sound_fields s) to.old to.new }
{
    match s {
        Sound::Silent => put_fields(to, at, 0, 0, 0, 0),
        Sound::Ringing { mask, volume, left } => put_fields(to, at, 1, mask, volume, left),
    }
}

pub fn read(from: &[u8], at: usize) -> Sound
    requires { at + sound_size ≤ length from.now }
    ensures { result ≡ value_of sound_fields from.now at }
{
    if from[at + KIND_AT] == 1 {
        Sound::Ringing {
            mask: from[at + MASK_AT],
            volume: from[at + VOLUME_AT],
            left: kinds::tenths(from, at + LEFT_AT),
        }
    } else {
        Sound::Silent
    }
}
