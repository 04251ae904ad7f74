#![tactic(auto)]
// Scanned frames as text: takes an input byte by byte, and for each line gives the parts of its frame or the refusal in words.
ghost use Rattle.std.specs.Prelude.{◌≡◌, [], ◌+◌, ◌≤◌, length, Some};
ghost use Rattle.sizes.specs.Sizes.{identifier_size, longest_frame};
ghost use Rattle.notation.specs.Written.{PutsText};
ghost use Rattle.frame_reader.specs.Reader.{wrong_byte, read_frame};
ghost use Rattle.frame_reader.specs.Scanned.{parts_of};
ghost use Rattle.frame_text.specs.Answers.{longest_line, malformed_text, protection_text, flags_text, parts_text, refusal_text, reading_text, line_text};
ghost use Rattle.frame_text.specs.Taking.{so_far, longer as longer_by, closed as closed_as, ends, Says, Takes};

use frame_reader::{Frame, WrongByte};
use notation::text;

const NEWLINE: u8 = b'\n';

const LONGEST_LINE: usize = 256;

// As many bytes as a line in hexadecimal can hold, and room for any answer.
const MOST_BYTES: usize = LONGEST_LINE / 2;

const TEXT_ROOM: usize = 96;

// A line so far: its first `count` bytes. Kept: a Vec could run out of memory, and taking a byte cannot fail. One that is too long already has a count above that.
#[derive(Clone, Copy)]
pub struct Line {
    pub bytes: [u8; LONGEST_LINE],
    pub count: usize,
}

// A text: the first `count` bytes; the others are zero. Kept as the line is.
#[derive(Clone, Copy)]
pub struct Text {
    pub bytes: [u8; TEXT_ROOM],
    pub count: usize,
}

// The line after a byte, and what the byte prints.
#[derive(Clone, Copy)]
pub struct Taken {
    pub line: Line,
    pub text: Text,
}

// No line yet.
pub fn begin() -> Line
    ensures { so_far result ≡ Some [] }
{
    Line {
        bytes: [0; LONGEST_LINE],
        count: 0,
    }
}

// Takes one byte of the input.
pub fn take(line: Line, byte: u8) -> Taken
    ensures { Takes line byte result }
{
    if byte == NEWLINE {
        return Taken {
            line: begin(),
            text: closed(line),
        };
    }
    Taken {
        line: longer(line, byte),
        text: nothing(),
    }
}

// The end of the input: a last line without its newline counts too.
pub fn finish(line: Line) -> Text
    ensures { Says (ends (so_far line)) result }
{
    if line.count == 0 {
        return nothing();
    }
    closed(line)
}

fn longer(line: Line, byte: u8) -> Line
    ensures { so_far result ≡ longer_by (so_far line) byte }
{
    let mut next = line;
    if line.count < LONGEST_LINE {
        next.bytes[line.count] = byte;
        next.count += 1;
    } else {
        next.count = LONGEST_LINE + 1;
    }
    next
}

fn closed(line: Line) -> Text
    ensures { Says (closed_as (so_far line)) result }
{
    let count = line.count;
    let bytes = line.bytes;
    if LONGEST_LINE < count {
        return malformed();
    }
    answer(&bytes[..count])
}

fn nothing() -> Text
    ensures { Says [] result }
{
    Text {
        bytes: [0; TEXT_ROOM],
        count: 0,
    }
}

fn malformed() -> Text
    ensures { Says malformed_text result }
{
    let mut bytes = [0u8; TEXT_ROOM];
    let count = text::put(&mut bytes, 0, b"malformed\n");
    Text { bytes, count }
}

// What a line says.
fn answer(line: &[u8]) -> Text
    requires { length line.now ≤ longest_line }
    ensures { Says (line_text line.now) result }
{
    let mut frame = [0u8; MOST_BYTES];
    match hex_reading::unhex(line, &mut frame) {
        Some(n) => told(&frame[..n]),
        None => malformed(),
    }
}

// What a frame says.
fn told(frame: &[u8]) -> Text
    ensures { Says (reading_text (read_frame identifier_size frame.now)) result }
{
    match frame_reader::read(frame) {
        Err(WrongByte { at }) => refused(at),
        Ok(frame) => parts(frame),
    }
}

fn refused(at: usize) -> Text
    requires { at ≤ longest_frame }
    ensures { Says (refusal_text wrong_byte at) result }
{
    let mut bytes = [0u8; TEXT_ROOM];
    let count = text::decimal_line(
        &mut bytes,
        0,
        b"refused with 8: first wrong byte at place ",
        at as u32,
    );
    Text { bytes, count }
}

fn parts(frame: Frame) -> Text
    ensures { Says (parts_text (parts_of frame)) result }
{
    let mut bytes = [0u8; TEXT_ROOM];
    let named = text::put(&mut bytes, 0, b"identifier=");
    let shown = text::hex(&mut bytes, named, &frame.id);
    let protected = protection(&mut bytes, shown, frame.on);
    let count = flags_line(&mut bytes, protected, frame.flags);
    Text { bytes, count }
}

fn protection(out: &mut [u8], at: usize, on: bool) -> usize
    requires { at + 13 ≤ length out.old }
    ensures { PutsText (protection_text on) at out.old result out.new }
{
    if on {
        return text::put(out, at, b" protection=1");
    }
    text::put(out, at, b" protection=0")
}

fn flags_line(out: &mut [u8], at: usize, flags: Option<u8>) -> usize
    requires { at + 10 ≤ length out.old }
    ensures { PutsText (flags_text flags) at out.old result out.new }
{
    match flags {
        None => text::put(out, at, b"\n"),
        Some(byte) => text::hex_line(out, at, b" flags=", &[byte]),
    }
}
