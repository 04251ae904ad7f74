#![tactic(auto)]
// The reader of the frames that `render` writes: what a text of any bytes says as a frame, or the place of its first wrong byte. Nothing
// here knows a unit.
ghost use Rattle.std.specs.Prelude.{◌≡◌, true, false, ◌≤◌, ◌<◌, min, ltb, length};
ghost use Rattle.sizes.specs.Sizes.{identifier_size, frame_identifier_at};
ghost use Rattle.frame_reader.specs.Reader.{length_at, says_flags, claimed, first_wrong, read_frame};
ghost use Rattle.frame_reader.specs.Scanned.{form_as, reading_of, longest_identifier, RightHead};

use sizes::{FRAME_FLAGS_AT, FRAME_IDENTIFIER_AT, IDENTIFIER_SIZE};

// Where the length byte and the byte of the frame's kind stand in the head.
const LENGTH_AT: usize = 3;

const KIND_AT: usize = 7;

// The number of the refusal of a text that is no frame. Kept: the C interface: it stands in the number that an exported call gives.
pub const WRONG_BYTE: u64 = 8;

// What a frame says: its identifier, its protection bit, and its flags byte where there is one.
#[derive(Clone, Copy)]
pub struct Frame {
    pub id: [u8; IDENTIFIER_SIZE],
    pub on: bool,
    pub flags: Option<u8>,
}

// What it says beside the identifier.
#[derive(Clone, Copy)]
struct Form {
    on: bool,
    flags: Option<u8>,
}

// Refusal 8, with the place of the first wrong byte.
#[derive(Clone, Copy)]
pub struct WrongByte {
    pub at: usize,
}

// Whether the length byte says that there is a flags byte, behind an identifier of `size` bytes.
fn says_flags(text: &[u8], size: usize) -> bool
    requires { (length_at < length text.now) × (size ≤ longest_identifier) }
    ensures { result ≡ says_flags size text.now }
{
    text[LENGTH_AT] as usize == size + 5
}

// Whether the byte at a place of the head may stand there, after bytes that may.
fn right(text: &[u8], at: usize, size: usize) -> bool
    requires { (at < frame_identifier_at) × ((at < length text.now) × ((at ≤ first_wrong size text.now) × (size ≤ longest_identifier))) }
    ensures { result ≡ ltb at (first_wrong size text.now) }
{
    let byte = text[at];
    match at {
        0 => byte == 0x02,
        1 => byte == 0x01,
        2 => byte == 0x06,
        LENGTH_AT => (byte as usize == size + 4) | says_flags(text, size),
        4 => byte == 0x16,
        5 => byte == 0xAA,
        6 => byte == 0xFE,
        _ => (byte == 0x40) | ((byte == 0x41) & says_flags(text, size)),
    }
}

// How many bytes of the head are right, from the first on.
fn head_right(text: &[u8], size: usize) -> usize
    requires { size ≤ longest_identifier }
    ensures { result ≡ min frame_identifier_at (first_wrong size text.now) }
{
    for at in 0..FRAME_IDENTIFIER_AT {
        if text.len() <= at {
            return at;
        }
        if !right(text, at, size) {
            return at;
        }
    }
    FRAME_IDENTIFIER_AT
}

// A text with a right head that says no flags byte: any bytes may follow, as many as the identifier has.
fn bare(text: &[u8], size: usize) -> Result<Form, WrongByte>
    requires { RightHead size text.now false }
    ensures { form_as (claimed size text.now).identifier result ≡ read_frame size text.now }
{
    let whole = FRAME_IDENTIFIER_AT + size;
    if text.len() < whole {
        return Err(WrongByte { at: text.len() });
    }
    if whole < text.len() {
        return Err(WrongByte { at: whole });
    }
    Ok(Form {
        on: false,
        flags: None,
    })
}

// One that says a flags byte: one more.
fn flagged(text: &[u8], size: usize) -> Result<Form, WrongByte>
    requires { RightHead size text.now true }
    ensures { form_as (claimed size text.now).identifier result ≡ read_frame size text.now }
{
    let flags_at = FRAME_IDENTIFIER_AT + size;
    if text.len() <= flags_at {
        return Err(WrongByte { at: text.len() });
    }
    if flags_at + 1 < text.len() {
        return Err(WrongByte { at: flags_at + 1 });
    }
    Ok(Form {
        on: text[KIND_AT] == 0x41,
        flags: Some(text[flags_at]),
    })
}

// A text as a frame with an identifier of `size` bytes.
fn judged(text: &[u8], size: usize) -> Result<Form, WrongByte>
    requires { size ≤ longest_identifier }
    ensures { form_as (claimed size text.now).identifier result ≡ read_frame size text.now }
{
    let at = head_right(text, size);
    if at < FRAME_IDENTIFIER_AT {
        return Err(WrongByte { at });
    }
    if says_flags(text, size) {
        return flagged(text, size);
    }
    bare(text, size)
}

// Reads a frame. Refusal: 8.
pub fn read(text: &[u8]) -> Result<Frame, WrongByte>
    ensures { reading_of result ≡ read_frame identifier_size text.now }
{
    let form = judged(text, IDENTIFIER_SIZE)?;
    Ok(Frame {
        id: octets::array(&text[FRAME_IDENTIFIER_AT..FRAME_FLAGS_AT]),
        on: form.on,
        flags: form.flags,
    })
}
