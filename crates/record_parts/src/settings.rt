// The settings as a part of a record: calibrated power, components, and whether the volume is selectable.
ghost use Rattle.std.specs.Prelude.{◌≡◌, ◌+◌, ◌≤◌, length};
ghost use Rattle.octets.specs.Put.{Puts};
ghost use Rattle.record_fields.specs.Part.{bytes_of, value_of};
ghost use Rattle.record_parts.specs.Groups.{settings_fields, settings_size};

use record_fields::kinds;
use record_fields::kinds::{BYTE_SIZE, POWER_SIZE};
use unit::Settings;

const POWER_AT: usize = 0;

const COMPONENTS_AT: usize = POWER_AT + POWER_SIZE;

const SELECTABLE_AT: usize = COMPONENTS_AT + BYTE_SIZE;

pub const SIZE: usize = SELECTABLE_AT + BYTE_SIZE;

pub fn put(to: &mut [u8], at: usize, s: Settings)
    requires { at + settings_size ≤ length to.old }
    ensures { Puts at settings_size (bytes_of settings_fields s) to.old to.new }
{
    kinds::put_power(to, at + POWER_AT, s.power);
    kinds::put_byte(to, at + COMPONENTS_AT, s.components);
    kinds::put_byte(to, at + SELECTABLE_AT, s.selectable);
}

pub fn read(from: &[u8], at: usize) -> Settings
    requires { at + settings_size ≤ length from.now }
    ensures { result ≡ value_of settings_fields from.now at }
{
    Settings {
        power: kinds::power(from, at + POWER_AT),
        components: from[at + COMPONENTS_AT],
        selectable: from[at + SELECTABLE_AT],
    }
}
