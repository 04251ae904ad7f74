// SHA-256 and HMAC-SHA-256. Sources: NIST, the examples of FIPS 180-4 and SHA2_Additional; NESSIE; RFC 4231, section 4; and GNU coreutils for three lengths
// at the edges.
use crate::print;
use std::io;

// Prints the name of a vector and the digest of its message.
pub fn hashes(rt: &impl Print, name: &[u8], message: &[u8]) -> io::Result<()> {
    let mut digest = [0u8; 32];
    firmware::tag_sha256(message, &mut digest);
    print::text(rt, name)?;
    print::hex(rt, &digest)?;
    print::text(rt, b"\n")
}

// Prints the name of a vector and the tag of its message.
fn authenticates(rt: &impl Print, name: &[u8], key: &[u8], message: &[u8]) -> io::Result<()> {
    let mut tag = [0u8; 32];
    firmware::tag_hmac_sha256(key, message, &mut tag);
    print::text(rt, name)?;
    print::hex(rt, &tag)?;
    print::text(rt, b"\n")
}

// The same of a tag that is truncated to 16 bytes.
fn authenticates_half(rt: &impl Print, name: &[u8], key: &[u8], message: &[u8]) -> io::Result<()> {
    let mut tag = [0u8; 32];
    firmware::tag_hmac_sha256(key, message, &mut tag);
    print::text(rt, name)?;
    print::first_half(rt, &tag)?;
    print::text(rt, b"\n")
}

fn examples(rt: &impl Print) -> io::Result<()> {
    print::text(
        rt,
        b"FIPS 180-4, the messages of its examples (896 bits is that of SHA-512)\n",
    )?;
    hashes(rt, b"abc ", b"abc")?;
    hashes(
        rt,
        b"448 bits ",
        b"abcdbcdecdefdefgefghfghighijhijkijkljklmklmnlmnomnopnopq",
    )?;
    hashes(
        rt,
        b"896 bits ",
        b"abcdefghbcdefghicdefghijdefghijkefghijklfghijklmghijklmnhijklmnoijklmnopjklmnopqklmnopqrlmnopqrsmnopqrstnopqrstu",
    )
}

fn additional(rt: &impl Print) -> io::Result<()> {
    print::text(rt, b"NIST, SHA2_Additional\n")?;
    hashes(rt, b"bd ", b"\xbd")?;
    hashes(rt, b"c98c8e55 ", b"\xc9\x8c\x8e\x55")?;
    hashes(rt, b"55 zeros ", &[0u8; 55])?;
    hashes(rt, b"56 zeros ", &[0u8; 56])?;
    hashes(rt, b"57 zeros ", &[0u8; 57])?;
    hashes(rt, b"64 zeros ", &[0u8; 64])?;
    hashes(rt, b"1000 zeros ", &[0u8; 1000])?;
    hashes(rt, b"1000 A ", &[b'A'; 1000])?;
    hashes(rt, b"1005 U ", &[b'U'; 1005])
}

fn nessie(rt: &impl Print) -> io::Result<()> {
    print::text(rt, b"NESSIE, SHA-256, set 1\n")?;
    hashes(rt, b"a ", b"a")?;
    hashes(rt, b"message digest ", b"message digest")?;
    hashes(rt, b"a to z ", b"abcdefghijklmnopqrstuvwxyz")?;
    hashes(
        rt,
        b"A to Z, a to z, 0 to 9 ",
        b"ABCDEFGHIJKLMNOPQRSTUVWXYZabcdefghijklmnopqrstuvwxyz0123456789",
    )?;
    hashes(
        rt,
        b"8 times 1234567890 ",
        b"12345678901234567890123456789012345678901234567890123456789012345678901234567890",
    )
}

fn edges(rt: &impl Print) -> io::Result<()> {
    print::text(
        rt,
        b"GNU coreutils sha256sum, for lengths that NIST does not print\n",
    )?;
    hashes(rt, b"63 zeros ", &[0u8; 63])?;
    hashes(rt, b"65 zeros ", &[0u8; 65])?;
    hashes(rt, b"65535 zeros ", &[0u8; 65535])
}

fn tags(rt: &impl Print) -> io::Result<()> {
    print::text(rt, b"RFC 4231, section 4\n")?;
    authenticates(rt, b"case 1 ", &[0x0bu8; 20], b"Hi There")?;
    authenticates(rt, b"case 2 ", b"Jefe", b"what do ya want for nothing?")?;
    authenticates(rt, b"case 3 ", &[0xaau8; 20], &[0xddu8; 50])?;
    authenticates(
        rt,
        b"case 4 ",
        b"\x01\x02\x03\x04\x05\x06\x07\x08\x09\x0a\x0b\x0c\x0d\x0e\x0f\x10\x11\x12\x13\x14\x15\x16\x17\x18\x19",
        &[0xcdu8; 50],
    )?;
    authenticates_half(rt, b"case 5 ", &[0x0cu8; 20], b"Test With Truncation")?;
    authenticates(
        rt,
        b"case 6 ",
        &[0xaau8; 131],
        b"Test Using Larger Than Block-Size Key - Hash Key First",
    )?;
    authenticates(
        rt,
        b"case 7 ",
        &[0xaau8; 131],
        b"This is a test using a larger than block-size key and a larger than block-size data. The key needs to be hashed before being used by the HMAC algorithm.",
    )
}

pub fn run(rt: &impl Print) -> io::Result<()> {
    examples(rt)?;
    additional(rt)?;
    nessie(rt)?;
    edges(rt)?;
    tags(rt)
}
