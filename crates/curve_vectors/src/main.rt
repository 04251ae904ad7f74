#![tactic(auto)]
// Multiples of the two curves' base points by the numbers on standard input, one to a line of 67 bytes: the curve (0 for SECP160R1, 1 for
// SECP256R1), a space, the number in 64 hexadecimal digits and a newline. For each it prints r, the number modulo n, and the x coordinate of
// r times G. After a 2 the number is an r', and it prints the r and the identifier of SECP160R1 that a tag works out from it, or that there is
// none. The file stdin has published multiples, and stdout what their publishers say of x:
// on SECP160R1 GEC 2 section 2 (ECDSA: the key pair of U, the signature's k; ECDH: the key pair of V), then n - 1, n, n + 1, 0 and 2^256 - 1;
// on SECP256R1 the NIST routines' point multiplication (k = 2, 3, 112233445566778899), RFC 6979 section A.2.5, RFC 5903 section 8.1 (i and r),
// NIST CAVP (ECC CDH, P-256, count 0), then n - 1, n, n + 1, 0 and 2^256 - 1;
// as r' 0 and n, where there is no identifier, 2^160, whose r is cut to 20 zero bytes, 2^160 + 1, n - 1, 2^160 - 1, 1, n + 1 and 2^256 - 1, with the answers of
// OpenSSL's curve (compare/curves/compare.py).
use curves::Multiple;
use curves::secp160r1::secp160r1;
use curves::secp256r1::secp256r1;
use hex_reading::unhex;
use notation::text::hex_line;
use std::io;
use std::io::Read;

// The most lines that are answered.
const MOST_LINES: u32 = 1000000;

// Prints r and x.
fn answer(rt: &impl Print, r: &[u8], x: &[u8]) -> io::Result<()> {
    let mut out = [0u8; 256];
    if 64 < r.len() {
        return Ok(());
    }
    if 32 < x.len() {
        return Ok(());
    }
    let next = hex_line(&mut out, 0, b"r=", r);
    let end = hex_line(&mut out, next, b"x=", x);
    rt.write_all(&out[..end])
}

fn on_curve<const N: usize>(rt: &impl Print, m: Multiple<N>) -> io::Result<()> {
    answer(rt, &m.r, &m.x)
}

fn as_r_prime(rt: &impl Print, number: [u8; 32]) -> io::Result<()> {
    match identifier::from_number(number) {
        Some(i) => answer(rt, &i.r, &i.id),
        None => rt.write_all(b"none\n"),
    }
}

// Answers a line.
fn line(rt: &impl Print, text: [u8; 67]) -> io::Result<()> {
    let mut number = [0u8; 32];
    if unhex(&text[2..66], &mut number).is_none() {
        return Ok(());
    }
    match text[0] {
        b'0' => on_curve(rt, secp160r1(number)),
        b'1' => on_curve(rt, secp256r1(number)),
        _ => as_r_prime(rt, number),
    }
}

fn main(rt: HostRuntime) -> io::Result<()> {
    let mut input = rt.stdin();
    for _ in 0..MOST_LINES {
        let mut text = [0u8; 67];
        if input.read(&mut text)? != 67 {
            break;
        }
        line(&rt, text)?;
    }
    Ok(())
}
