// The lines of a row, `key=value` each, written as in a session file. A value that cannot be read prints `malformed`, so that the row's line is not the
// expected one.
ghost use Rattle.std.specs.Prelude.{◌≤◌, length, IfOk, IfSome};

use hex_reading::{one_byte, unhex};
use reading::unsigned;
use std::io;

// The most bytes of a record or an argument.
pub const MOST: usize = 512;

// Where the line that begins at a place ends: at its newline, or where the text does.
pub fn end_of(text: &[u8], at: usize) -> usize
    requires { at ≤ length text.now }
    ensures { (at ≤ result) × (result ≤ length text.now) }
{
    match text[at..].iter().position(|b| *b == b'\n') {
        Some(size) => at + size,
        None => text.len(),
    }
}

// Where a value stands.
#[derive(Clone, Copy)]
pub struct Place {
    pub start: usize,
    pub end: usize,
}

// Where the value of the first line with a key stands. Kept: no plainer by a split, since where a line ends in the whole text is asked for.
pub fn find(text: &[u8], key: &[u8]) -> Option<Place>
    ensures { IfSome result (λ p. (p.start ≤ p.end) × (p.end ≤ length text.now)) }
{
    let mut at = 0;
    while at < text.len() {
        let end = end_of(text, at);
        if text[at..end].starts_with(key) {
            return Some(Place {
                start: at + key.len(),
                end,
            });
        }
        at = end + 1;
    }
    None
}

// That value, or nothing.
pub fn value<'a>(row: &'a [u8], key: &[u8]) -> &'a [u8] {
    match find(row, key) {
        Some(place) => &row[place.start..place.end],
        None => b"",
    }
}

// A value in hexadecimal: its bytes, and how many there are.
pub fn bytes(rt: &impl Print, row: &[u8], key: &[u8], into: &mut [u8; MOST]) -> io::Result<usize>
    ensures { IfOk result (λ n. n ≤ length into.new) }
{
    let text = value(row, key);
    if text.len() <= 2 * MOST {
        if let Some(n) = unhex(text, into) {
            return Ok(n);
        }
    }
    rt.write_all(b"malformed ")?;
    Ok(0)
}

// A value that was read; one that could not be prints `malformed`, and counts as 0.
fn or_malformed<N: Default + Drop>(rt: &impl Print, read: Option<N>) -> io::Result<N> {
    match read {
        Some(n) => Ok(n),
        None => {
            rt.write_all(b"malformed ")?;
            Ok(N::default())
        }
    }
}

// A value of one byte in hexadecimal.
pub fn byte(rt: &impl Print, row: &[u8], key: &[u8]) -> io::Result<u8> {
    or_malformed(rt, one_byte(value(row, key)))
}

// A value in decimal.
pub fn number(rt: &impl Print, row: &[u8], key: &[u8]) -> io::Result<u32> {
    or_malformed(rt, unsigned(value(row, key)))
}
