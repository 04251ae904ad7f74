// The kinds of fields that are numbers, flags or calibrated power. All numbers are big-endian.
ghost use Rattle.std.specs.Prelude.{◌≡◌, ◌+◌, ◌≤◌, ◌<◌, ◌^◌, length};
ghost use Rattle.octets.specs.Put.{Puts};
ghost use Rattle.record_fields.specs.Kinds.{byte_size, byte, flag as flag_part, flag_byte, number_of, power_size, power as power_part, power_word, word_power, tenths_size, seconds_size, count_size};

pub const BYTE_SIZE: usize = 1;

pub const POWER_SIZE: usize = 4;

// Bytes of a number of tenths, of seconds, and of a count or a place.
pub const TENTHS_SIZE: usize = 2;

pub const SECONDS_SIZE: usize = 4;

pub const COUNT_SIZE: usize = 8;

pub fn put_byte(to: &mut [u8], at: usize, b: u8)
    requires { at + byte_size ≤ length to.old }
    ensures { Puts at byte_size (byte.bytes b) to.old to.new }
{
    to[at] = b;
}

fn flag_byte(f: bool) -> u8
    ensures { result ≡ flag_byte f }
{
    if f { 1 } else { 0 }
}

pub fn put_flag(to: &mut [u8], at: usize, f: bool)
    requires { at + byte_size ≤ length to.old }
    ensures { Puts at byte_size (flag_part.bytes f) to.old to.new }
{
    put_byte(to, at, flag_byte(f));
}

pub fn flag(from: &[u8], at: usize) -> bool
    requires { at + byte_size ≤ length from.now }
    ensures { result ≡ flag_part.value from.now at }
{
    from[at] == 1
}

// Kept: a pair for each of the three integer types, since one generic pair would need a trait of them, which is no plainer.
pub fn put_tenths(to: &mut [u8], at: usize, n: u16)
    requires { at + tenths_size ≤ length to.old }
    ensures { Puts at tenths_size ((number_of tenths_size).bytes n) to.old to.new }
{
    octets::put_number(to, at, TENTHS_SIZE, n as u64);
}

pub fn tenths(from: &[u8], at: usize) -> u16
    requires { at + tenths_size ≤ length from.now }
    ensures { result ≡ (number_of tenths_size).value from.now at }
{
    let n = octets::number(&from[at..at + TENTHS_SIZE]);
    n as u16
}

pub fn put_seconds(to: &mut [u8], at: usize, n: u32)
    requires { at + seconds_size ≤ length to.old }
    ensures { Puts at seconds_size ((number_of seconds_size).bytes n) to.old to.new }
{
    octets::put_number(to, at, SECONDS_SIZE, n as u64);
}

pub fn seconds(from: &[u8], at: usize) -> u32
    requires { at + seconds_size ≤ length from.now }
    ensures { result ≡ (number_of seconds_size).value from.now at }
{
    let n = octets::number(&from[at..at + SECONDS_SIZE]);
    n as u32
}

pub fn put_count(to: &mut [u8], at: usize, n: usize)
    requires { at + count_size ≤ length to.old }
    ensures { Puts at count_size ((number_of count_size).bytes n) to.old to.new }
{
    octets::put_number(to, at, COUNT_SIZE, n as u64);
}

pub fn count(from: &[u8], at: usize) -> usize
    requires { at + count_size ≤ length from.now }
    ensures { result ≡ (number_of count_size).value from.now at }
{
    let n = octets::number(&from[at..at + COUNT_SIZE]);
    n as usize
}

// Power as 32 bits, two's complement. Kept: the record's definition says it by cases, as here; std's cast says it by another word.
fn power_word(power: i32) -> u64
    ensures { result ≡ power_word power }
{
    let p = power as i64;
    if p < 0 {
        (p + 4294967296) as u64
    } else {
        p as u64
    }
}

fn word_power(word: u64) -> i32
    requires { word < 2 ^ 32 }
    ensures { result ≡ word_power word }
{
    if word < 2147483648 {
        word as i32
    } else {
        (word as i64 - 4294967296) as i32
    }
}

pub fn put_power(to: &mut [u8], at: usize, power: i32)
    requires { at + power_size ≤ length to.old }
    ensures { Puts at power_size (power_part.bytes power) to.old to.new }
{
    octets::put_number(to, at, POWER_SIZE, power_word(power));
}

pub fn power(from: &[u8], at: usize) -> i32
    requires { at + power_size ≤ length from.now }
    ensures { result ≡ power_part.value from.now at }
{
    let word = octets::number(&from[at..at + POWER_SIZE]);
    word_power(word)
}
