// The hash value of FIPS 180-4: where it starts, §5.3.3, its bytes, §6.2.2, and the block that they fill where they are hashed in turn.
ghost use Rattle.std.specs.Prelude.{◌≡◌};
ghost use Rattle.padding.specs.Padding.{block};
ghost use Rattle.padding.specs.Blocks.{followed};
ghost use Rattle.hash.specs.Sha256.{H⁰, digest};

use compression::Working;
use octets::put;

pub fn initial() -> Working
    ensures { result ≡ H⁰ }
{
    Working {
        a: 0x6a09e667,
        b: 0xbb67ae85,
        c: 0x3c6ef372,
        d: 0xa54ff53a,
        e: 0x510e527f,
        f: 0x9b05688c,
        g: 0x1f83d9ab,
        h: 0x5be0cd19,
    }
}

// The eight words, each with its most significant byte first.
pub fn bytes(v: Working) -> [u8; 32]
    ensures { result ≡ digest v }
{
    let words = [v.a, v.b, v.c, v.d, v.e, v.f, v.g, v.h];
    let mut out = [0u8; 32];
    for (i, word) in words.iter().enumerate() {
        put(&mut out, 4 * i, &word.to_be_bytes());
    }
    out
}

// The words of the last block of a message that is one block and then the bytes of this hash value: its own words, the mark, zeros, and the
// length of 768 bits.
pub fn after_block(v: Working) -> [u32; 16]
    ensures { result ≡ block (followed 64 (digest v)) 0 }
{
    [
        v.a, v.b, v.c, v.d, v.e, v.f, v.g, v.h, 0x80000000, 0, 0, 0, 0, 0, 0, 768,
    ]
}
