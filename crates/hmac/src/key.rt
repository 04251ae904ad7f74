// The key of RFC 2104, §2: made as long as a block, and masked for the inner and the outer hash.
ghost use Rattle.std.specs.Prelude.{◌≡◌, ◌^◌, ◌≤◌, ◌<◌, length, replicate};
ghost use Rattle.laws.specs.Bytes.{◌⊕◌};
ghost use Rattle.hash.specs.Sha256.{value_after};
ghost use Rattle.hmac.specs.Hmac as rfc;

use compression::{Working, compress};
use hash::digest;
use hash::value::initial;
use padding::message::words_at;

// Zeros appended up to the length of a block.
fn filled(key: &[u8]) -> [u8; 64]
    requires { length key.now ≤ 64 }
    ensures { result ≡ rfc.filled key.now }
{
    let mut block = [0u8; 64];
    for i in 0..key.len() {
        block[i] = key[i];
    }
    block
}

// The key as a block: one that is longer is hashed first.
pub fn key_block(key: &[u8]) -> [u8; 64]
    requires { length key.now < 2 ^ 61 }
    ensures { result ≡ rfc.filled (rfc.shortened key.now) }
{
    if key.len() <= 64 {
        return filled(key);
    }
    filled(&digest(key, b"", b"", b""))
}

// A block with each byte XORed with one and the same.
pub fn masked(block: [u8; 64], mask: u8) -> [u8; 64]
    ensures { result ≡ block ⊕ replicate 64 mask }
{
    let mut out = block;
    for b in &mut out {
        *b ^= mask;
    }
    out
}

// The hash value after one block.
pub fn value_of(block: [u8; 64]) -> Working
    ensures { result ≡ value_after block }
{
    let mut words = [0u32; 16];
    words_at(&block, 0, &mut words);
    compress(initial(), &mut words)
}
