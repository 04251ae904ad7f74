#![tactic(auto)]
// Numbers from bytes and to bytes, the most significant byte first, and the bits of a number.
ghost use Rattle.std.specs.Prelude.{◌≡◌, ◌+◌, ◌*◌, ◌/◌, ◌%◌, ◌^◌, length, get_or};
ghost use Rattle.laws.specs.Bytes.{big_endian, number_after};
ghost use Rattle.limbs.specs.Limbs.{value, Below};

use limbs::plain::twice;
use modular::reduce_once;

// t with a byte after it, modulo m: its bits are shifted in, the highest first
fn shift_in(t: &mut [u32], byte: u8, m: &[u32])
    requires { Below t.old m.now }
    ensures { value t.new ≡ (value t.old * 256 + byte) % value m.now }
{
    for place in (0..8u32).rev() {
        let bit = (byte >> place) % 2;
        let top = twice(t, bit as u32);
        reduce_once(t, top, m);
    }
}

// t with the bytes after it, modulo m
pub fn remainder(t: &mut [u32], bytes: &[u8], m: &[u32])
    requires { Below t.old m.now }
    ensures { value t.new ≡ number_after (value t.old) bytes.now % value m.now }
{
    for &byte in bytes {
        shift_in(t, byte, m);
    }
}

// Limb k, and 0 above the highest
fn limb(t: &[u32], k: usize) -> u32
    ensures { result ≡ get_or t.now k 0 }
{
    t.get(k).copied().unwrap_or(0)
}

// Bit i of a number, counted from the lowest
pub fn bit(t: &[u32], i: usize) -> u32
    ensures { result ≡ value t.now / 2 ^ i % 2 }
{
    (limb(t, i / 32) >> (i % 32)) % 2
}

// Byte i of a number, counted from the lowest
fn byte(t: &[u32], i: usize) -> u8
    ensures { result ≡ value t.now / 2 ^ (8 * i) % 256 }
{
    ((limb(t, i / 4) >> (8 * (i % 4))) % 256) as u8
}

// The lowest bytes of a number, as many as out has
pub fn to_bytes(out: &mut [u8], t: &[u32])
    ensures { out.new ≡ big_endian (length out.old) (value t.now) }
{
    for i in 0..out.len() {
        out[i] = byte(t, out.len() - 1 - i);
    }
}
