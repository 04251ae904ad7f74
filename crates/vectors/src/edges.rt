// Sizes at the edges of what the exported calls take, and beyond. A row has the call, the bytes of its key, of its message or block and of its answer, `ok` or
// refusal 7, and the answer after the call: ee where nothing was written. Key and message are the first bytes of one sequence. compare/vectors.py
// has the answers from hashlib, hmac and OpenSSL.
use crate::print;
use lent_answer::WrongSize;
use std::io;

// What an exported call gives for a refusal, beside its number.
const REFUSED: u64 = 256;

// Kept: no plainer as closures: a row is data, and prints its call's name beside what the call gives.
#[derive(Clone, Copy)]
enum Call {
    Hash,
    Authenticate,
    Encrypt,
    Decrypt,
    EncryptLong,
}

// The sequence: 0 to 250, and so on from 0.
fn sequence() -> [u8; 65536] {
    let mut bytes = [0u8; 65536];
    for i in 0..65536 {
        bytes[i] = (i % 251) as u8;
    }
    bytes
}

fn called(call: Call, key: &[u8], message: &[u8], answer: &mut [u8]) -> u64 {
    match call {
        Call::Hash => firmware::tag_sha256(message, answer),
        Call::Authenticate => firmware::tag_hmac_sha256(key, message, answer),
        Call::Encrypt => firmware::tag_aes128_encrypt(key, message, answer),
        Call::Decrypt => firmware::tag_aes128_decrypt(key, message, answer),
        Call::EncryptLong => firmware::tag_aes256_encrypt(key, message, answer),
    }
}

fn name(rt: &impl Print, call: Call) -> io::Result<()> {
    match call {
        Call::Hash => print::text(rt, b"sha256 "),
        Call::Authenticate => print::text(rt, b"hmac "),
        Call::Encrypt => print::text(rt, b"encrypt "),
        Call::Decrypt => print::text(rt, b"decrypt "),
        Call::EncryptLong => print::text(rt, b"encrypt256 "),
    }
}

// Prints how an exported call ended, and its answer.
fn ending(rt: &impl Print, code: u64, answer: &[u8]) -> io::Result<()> {
    if code < REFUSED {
        print::text(rt, b"ok ")?;
    } else {
        print::refusal(rt, code - REFUSED)?;
    }
    print::hex(rt, answer)?;
    print::text(rt, b"\n")
}

// The same of the call over parts, which is not exported: its end as a number.
fn code_of(end: Result<(), WrongSize>) -> u64 {
    match end {
        Ok(()) => 32,
        Err(WrongSize) => REFUSED + 7,
    }
}

// Prints a row.
fn row(
    rt: &impl Print,
    bytes: &[u8],
    call: Call,
    key: u32,
    message: u32,
    room: u32,
) -> io::Result<()> {
    name(rt, call)?;
    print::number(rt, key)?;
    print::number(rt, message)?;
    print::number(rt, room)?;
    let mut answer = [0xeeu8; 64];
    let k = (key as usize).min(bytes.len());
    let m = (message as usize).min(bytes.len());
    let lent = (room as usize).min(answer.len());
    whole(rt, call, &bytes[..k], &bytes[..m], &mut answer[..lent])
}

fn whole(
    rt: &impl Print,
    call: Call,
    key: &[u8],
    message: &[u8],
    answer: &mut [u8],
) -> io::Result<()> {
    let end = called(call, key, message, answer);
    ending(rt, end, answer)
}

// Prints a row of HMAC of a message in three parts: the bytes of the key and of each part stand before its end.
fn parts(
    rt: &impl Print,
    bytes: &[u8],
    key: u32,
    head: u32,
    tail: u32,
    last: u32,
) -> io::Result<()> {
    print::text(rt, b"hmac-parts ")?;
    print::number(rt, key)?;
    print::number(rt, head)?;
    print::number(rt, tail)?;
    print::number(rt, last)?;
    let k = (key as usize).min(bytes.len());
    let h = (head as usize).min(bytes.len());
    let t = (tail as usize).min(bytes.len());
    let l = (last as usize).min(bytes.len());
    let mut answer = [0xeeu8; 32];
    let end = hash_calls::hmac_sha256_parts(
        &bytes[..k],
        &bytes[..h],
        &bytes[..t],
        &bytes[..l],
        &mut answer,
    );
    ending(rt, code_of(end), &answer)
}

fn hashes(rt: &impl Print, bytes: &[u8]) -> io::Result<()> {
    row(rt, bytes, Call::Hash, 0, 0, 32)?;
    row(rt, bytes, Call::Hash, 0, 65535, 32)?;
    row(rt, bytes, Call::Hash, 0, 65536, 32)?;
    row(rt, bytes, Call::Hash, 0, 3, 0)?;
    row(rt, bytes, Call::Hash, 0, 3, 31)?;
    row(rt, bytes, Call::Hash, 0, 3, 32)?;
    row(rt, bytes, Call::Hash, 0, 3, 33)
}

fn tags(rt: &impl Print, bytes: &[u8]) -> io::Result<()> {
    row(rt, bytes, Call::Authenticate, 0, 0, 32)?;
    row(rt, bytes, Call::Authenticate, 63, 3, 32)?;
    row(rt, bytes, Call::Authenticate, 64, 3, 32)?;
    row(rt, bytes, Call::Authenticate, 65, 3, 32)?;
    row(rt, bytes, Call::Authenticate, 65535, 3, 32)?;
    row(rt, bytes, Call::Authenticate, 65536, 3, 32)?;
    row(rt, bytes, Call::Authenticate, 3, 65535, 32)?;
    row(rt, bytes, Call::Authenticate, 3, 65536, 32)?;
    row(rt, bytes, Call::Authenticate, 3, 3, 0)?;
    row(rt, bytes, Call::Authenticate, 3, 3, 31)?;
    row(rt, bytes, Call::Authenticate, 3, 3, 32)?;
    row(rt, bytes, Call::Authenticate, 3, 3, 33)
}

fn tags_of_parts(rt: &impl Print, bytes: &[u8]) -> io::Result<()> {
    parts(rt, bytes, 64, 10, 20, 30)?;
    parts(rt, bytes, 64, 0, 65535, 0)?;
    parts(rt, bytes, 64, 0, 65536, 0)?;
    parts(rt, bytes, 64, 0, 0, 65535)?;
    parts(rt, bytes, 64, 0, 0, 65536)?;
    parts(rt, bytes, 64, 65536, 0, 0)?;
    parts(rt, bytes, 64, 32767, 1, 32767)?;
    parts(rt, bytes, 64, 32767, 2, 32767)?;
    parts(rt, bytes, 65535, 65533, 1, 1)?;
    parts(rt, bytes, 65536, 65533, 1, 1)
}

// The sizes of a block cipher's key, block and answer: of AES-128, each way, and of AES-256.
fn blocks(rt: &impl Print, bytes: &[u8], call: Call) -> io::Result<()> {
    row(rt, bytes, call, 16, 16, 16)?;
    row(rt, bytes, call, 0, 16, 16)?;
    row(rt, bytes, call, 15, 16, 16)?;
    row(rt, bytes, call, 17, 16, 16)?;
    row(rt, bytes, call, 32, 16, 16)?;
    row(rt, bytes, call, 16, 0, 16)?;
    row(rt, bytes, call, 16, 15, 16)?;
    row(rt, bytes, call, 16, 17, 16)?;
    row(rt, bytes, call, 16, 16, 0)?;
    row(rt, bytes, call, 16, 16, 15)?;
    row(rt, bytes, call, 16, 16, 17)
}

fn blocks_under_long_keys(rt: &impl Print, bytes: &[u8]) -> io::Result<()> {
    row(rt, bytes, Call::EncryptLong, 32, 16, 16)?;
    row(rt, bytes, Call::EncryptLong, 0, 16, 16)?;
    row(rt, bytes, Call::EncryptLong, 16, 16, 16)?;
    row(rt, bytes, Call::EncryptLong, 31, 16, 16)?;
    row(rt, bytes, Call::EncryptLong, 33, 16, 16)?;
    row(rt, bytes, Call::EncryptLong, 32, 0, 16)?;
    row(rt, bytes, Call::EncryptLong, 32, 15, 16)?;
    row(rt, bytes, Call::EncryptLong, 32, 17, 16)?;
    row(rt, bytes, Call::EncryptLong, 32, 16, 0)?;
    row(rt, bytes, Call::EncryptLong, 32, 16, 15)?;
    row(rt, bytes, Call::EncryptLong, 32, 16, 17)
}

// The sizes of SHAVS' long messages.
fn long_messages(rt: &impl Print, bytes: &[u8]) -> io::Result<()> {
    for i in 1..=64 {
        row(rt, bytes, Call::Hash, 0, 64 + 99 * i, 32)?;
    }
    Ok(())
}

pub fn run(rt: &impl Print) -> io::Result<()> {
    print::text(
        rt,
        b"Sizes at the edges: call, bytes of key, message and answer, end, answer\n",
    )?;
    let bytes = sequence();
    hashes(rt, &bytes)?;
    tags(rt, &bytes)?;
    tags_of_parts(rt, &bytes)?;
    blocks(rt, &bytes, Call::Encrypt)?;
    blocks(rt, &bytes, Call::Decrypt)?;
    blocks_under_long_keys(rt, &bytes)?;
    long_messages(rt, &bytes)
}
