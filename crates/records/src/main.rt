#![tactic(auto)]
// Runs the table that its argument names, a call over a record of bytes to a row, and prints a line for each: the row's name, its call, its
// room, and `ok` or the refusal in two hexadecimal digits. compare/reference makes the table, data/records.txt, and the lines in stdout; none of
// them comes from this program.
ghost use Rattle.std.specs.Prelude.{◌≤◌, length, IfOk, IfSome};

mod calls;
mod table;

use program_files::{MOST_PATH, argument, opened};
use std::fs::File;
use std::io;
use std::os::unix::fs::FileExt;

// The longest table.
const MOST_BYTES: usize = 16777216;

// What a row prints whose call has no known name.
const UNKNOWN: &[u8] = b"feff\n";

// What a call gives is the answer bytes written, or 256 and the refusal; 65,536 times the tenth at which a ring ended may be added.
const REFUSAL_BASE: u64 = 256;

const ENDED_BASE: u64 = 65536;

fn main(rt: HostRuntime) -> io::Result<()> {
    let mut path = [0u8; MOST_PATH];
    let length = argument(&rt, 1, &mut path)?;
    let table = opened(&rt, &path[..length])?;
    rows(&rt, &table)
}

// Runs each row of the table. Kept: no plainer as a `for`, since a row says where the next begins.
fn rows(rt: &impl Print, table: &File) -> io::Result<()> {
    let mut at = 0;
    while at < MOST_BYTES {
        let Some(size) = row_at(rt, table, at)? else {
            break;
        };
        at += size + 1;
    }
    Ok(())
}

// Runs the row that begins at a place of the table, and gives its bytes without the last newline. None where there is none.
fn row_at(rt: &impl Print, table: &File, at: usize) -> io::Result<Option<usize>>
    requires { at ≤ 16777216 }
    ensures { IfOk result (λ row. IfSome row (λ size. size ≤ 4096)) }
{
    let mut text = [0u8; 4096];
    let count = table.read_at(&mut text, at as u64)?;
    first_row(rt, &text[..count])
}

// The same of the row that a text begins with. A row ends with its line of the room.
fn first_row(rt: &impl Print, text: &[u8]) -> io::Result<Option<usize>>
    ensures { IfOk result (λ row. IfSome row (λ size. size ≤ length text.now)) }
{
    let Some(last) = table::find(text, b"room=") else {
        return Ok(None);
    };
    run(rt, &text[..last.end])?;
    Ok(Some(last.end))
}

fn run(rt: &impl Print, row: &[u8]) -> io::Result<()> {
    field(rt, row, b"name=")?;
    field(rt, row, b"call=")?;
    field(rt, row, b"room=")?;
    match calls::run(rt, row)? {
        Some(code) => ending(rt, code % ENDED_BASE),
        None => rt.write_all(UNKNOWN),
    }
}

// Prints a value of the row, and a space.
fn field(rt: &impl Print, row: &[u8], key: &[u8]) -> io::Result<()> {
    rt.write_all(table::value(row, key))?;
    rt.write_all(b" ")
}

// Prints how a call ended, and a newline.
fn ending(rt: &impl Print, code: u64) -> io::Result<()> {
    if code < REFUSAL_BASE {
        return rt.write_all(b"ok\n");
    }
    let refusal = code - REFUSAL_BASE;
    println!(rt; "{refusal:02x}")
}
