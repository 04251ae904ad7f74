// AES by NIST's validation system (AESAVS): the Monte Carlo tests of ECB, whole, for AES-128 both ways and for AES-256 encryption. A test chains 1,000 blocks,
// each the cipher of the one before it, prints the last, changes the key by it and goes on from it, 100 times.
use crate::print;
use std::io;

fn encrypted(key: &[u8], block: [u8; 16]) -> [u8; 16] {
    let mut done = [0u8; 16];
    firmware::tag_aes128_encrypt(key, &block, &mut done);
    done
}

fn decrypted(key: &[u8], block: [u8; 16]) -> [u8; 16] {
    let mut done = [0u8; 16];
    firmware::tag_aes128_decrypt(key, &block, &mut done);
    done
}

fn encrypted256(key: &[u8], block: [u8; 16]) -> [u8; 16] {
    let mut done = [0u8; 16];
    firmware::tag_aes256_encrypt(key, &block, &mut done);
    done
}

// The two last blocks of a chain.
#[derive(Clone, Copy)]
struct Last {
    before: [u8; 16],
    block: [u8; 16],
}

// Those of 1,000 blocks.
fn chained<F: Fn(&[u8], [u8; 16]) -> [u8; 16]>(cipher: &F, key: &[u8], start: [u8; 16]) -> Last
    requires { F.IsAlwaysCallable cipher.now }
{
    let mut before = start;
    let mut block = start;
    for _ in 0..1000 {
        let next = cipher(key, block);
        before = block;
        block = next;
    }
    Last { before, block }
}

// A key changed by the last blocks: its last bytes by theirs, as many as it has.
fn changed<const K: usize>(key: [u8; K], last: Last) -> [u8; K] {
    let blocks = octets::joined(last.before, last.block);
    let mut next = key;
    for (byte, change) in next.iter_mut().rev().zip(blocks.iter().rev()) {
        *byte ^= *change;
    }
    next
}

fn test<const K: usize, F: Fn(&[u8], [u8; 16]) -> [u8; 16]>(
    rt: &impl Print,
    cipher: F,
    first_key: [u8; K],
    start: [u8; 16],
) -> io::Result<()>
    requires { F.IsAlwaysCallable cipher }
{
    let mut key = first_key;
    let mut block = start;
    for _ in 0..100 {
        let last = chained(&cipher, &key, block);
        print::hex(rt, &last.block)?;
        print::text(rt, b"\n")?;
        let next = changed(key, last);
        key = next;
        block = last.block;
    }
    Ok(())
}

pub fn run(rt: &impl Print) -> io::Result<()> {
    print::text(
        rt,
        b"NIST, AESAVS, Monte Carlo test of AES-128 encryption: each of 100 checkpoints\n",
    )?;
    test(
        rt,
        encrypted,
        *b"\x13\x9a\x35\x42\x2f\x1d\x61\xde\x3c\x91\x78\x7f\xe0\x50\x7a\xfd",
        *b"\xb9\x14\x5a\x76\x8b\x7d\xc4\x89\xa0\x96\xb5\x46\xf4\x3b\x23\x1f",
    )?;
    print::text(rt, b"The same of decryption\n")?;
    test(
        rt,
        decrypted,
        *b"\x0c\x60\xe7\xbf\x20\xad\xa9\xba\xa9\xe1\xdd\xf0\xd1\x54\x07\x26",
        *b"\xb0\x8a\x29\xb1\x1a\x50\x0e\xa3\xac\xa4\x2c\x36\x67\x5b\x97\x85",
    )?;
    print::text(rt, b"The same of AES-256 encryption\n")?;
    test(
        rt,
        encrypted256,
        *b"\xf9\xe8\x38\x9f\x5b\x80\x71\x2e\x38\x86\xcc\x1f\xa2\xd2\x8a\x3b\x8c\x9c\xd8\x8a\x2d\x4a\x54\xc6\xaa\x86\xce\x0f\xef\x94\x4b\xe0",
        *b"\xb3\x79\x77\x7f\x90\x50\xe2\xa8\x18\xf2\x94\x0c\xbb\xd9\xab\xa4",
    )
}
