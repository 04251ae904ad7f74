#![tactic(auto)]
// What every crate does with bytes: put them into others, compare them, take some of them as an array, and read and write big-endian
// numbers. Inner calls: those that ask something of their caller say so.
ghost use Rattle.std.specs.Prelude.{◌≡◌, ◌++◌, ◌+◌, ◌≤◌, length};
ghost use Rattle.laws.specs.Bytes.{same_bytes, all_zero, big_endian};
ghost use Rattle.octets.specs.Put.{pasted, Puts, Reads};

// Puts bytes into others from a place on; the rest stays.
pub fn put(to: &mut [u8], at: usize, bytes: &[u8])
    requires { at + length bytes.now ≤ length to.old }
    ensures { to.new ≡ pasted to.old at bytes.now }
{
    for i in 0..bytes.len() {
        to[at + i] = bytes[i];
    }
}

// Whether two slices hold the same bytes. Kept: `==` may stop at the first difference, and here every byte is looked at, whatever the others are:
// the differences are gathered.
pub fn same(a: &[u8], b: &[u8]) -> bool
    ensures { result ≡ same_bytes a.now b.now }
{
    if a.len() != b.len() {
        return false;
    }
    let mut difference: u8 = 0;
    for i in 0..a.len() {
        difference |= a[i] ^ b[i];
    }
    difference == 0
}

// Whether every byte is zero. Kept as `same` is: every byte is looked at, whatever the others are, and their bits are gathered.
pub fn all_zero(s: &[u8]) -> bool
    ensures { result ≡ all_zero s.now }
{
    let mut bits: u8 = 0;
    for b in s {
        bits |= *b;
    }
    bits == 0
}

// The bytes of a slice as an array of the length that is asked for.
pub fn array<const N: usize>(s: &[u8]) -> [u8; N]
    requires { length s.now ≡ N }
    ensures { result ≡ s.now }
{
    let mut bytes = [0u8; N];
    put(&mut bytes, 0, s);
    bytes
}

// Two sixteens, one after the other.
pub fn joined(a: [u8; 16], b: [u8; 16]) -> [u8; 32]
    ensures { result ≡ a ++ b }
{
    let mut both = [0u8; 32];
    put(&mut both, 0, &a);
    put(&mut both, 16, &b);
    both
}

// The number of up to eight bytes, the most significant first.
pub fn number(s: &[u8]) -> u64
    requires { length s.now ≤ 8 }
    ensures { Reads s.now result }
{
    let mut n: u64 = 0;
    for b in s {
        n = n * 256 + *b as u64;
    }
    n
}

// Puts a number's lowest bytes, the most significant first, from a place on; the rest stays.
pub fn put_number(to: &mut [u8], at: usize, width: usize, n: u64)
    requires { at + width ≤ length to.old }
    ensures { Puts at width (big_endian width n) to.old to.new }
{
    let mut rest = n;
    for place in (at..at + width).rev() {
        to[place] = (rest % 256) as u8;
        rest /= 256;
    }
}
