#![tactic(auto)]
// The frame reader for a host in C or Rust: any bytes are handed in, and what a frame says stands in the bytes that the host lends. Each call gives
// one number: the bytes written, or 256 and the refusal's number, and for refusal 8 also, 65,536 times, the place of the first wrong byte.
ghost use Rattle.std.specs.Prelude.{◌≡◌, ◌≤◌, length};
ghost use Rattle.laws.specs.Answer.{Wrote};
ghost use Rattle.sizes.specs.Sizes.{longest_frame};
ghost use Rattle.frame_reader.specs.Scanned.{parts_of};
ghost use Rattle.desk.specs.Exported.{parts_size, part_bytes, parts_read, parts_read_with_r, ExportsReading, wrong_byte_code};

use frame_opener::NotOpened;
use frame_reader::{Frame, WrongByte};
use sizes::IDENTIFIER_SIZE;

// Kept: the C interface: these numbers stand in the one that an exported call gives.
const REFUSAL_BASE: u64 = 256;

const PLACE_BASE: u64 = 65536;

// The number of the refusal of too few lent bytes.
const NO_ROOM: u64 = 6;

// Identifier, protection, whether there is a flags byte, that byte; and with r the battery level.
const PARTS_SIZE: usize = IDENTIFIER_SIZE + 3;

const OPENED_SIZE: usize = PARTS_SIZE + 1;

// Refusal 8 at a place.
fn wrong_byte(at: usize) -> u64
    requires { at ≤ longest_frame }
    ensures { result ≡ wrong_byte_code at }
{
    REFUSAL_BASE + frame_reader::WRONG_BYTE + at as u64 * PLACE_BASE
}

// Writes what a frame says.
fn put_parts(parts: &mut [u8], frame: Frame)
    requires { parts_size ≤ length parts.old }
    ensures { Wrote (part_bytes (parts_of frame)) parts_size parts.old parts.new }
{
    octets::put(parts, 0, &frame.id);
    let rest = [
        u8::from(frame.on),
        u8::from(frame.flags.is_some()),
        frame.flags.unwrap_or(0),
    ];
    octets::put(parts, IDENTIFIER_SIZE, &rest);
}

// Reads a frame. Refusals: 6 for fewer than 23 lent bytes, 8.
pub fn read(text: &[u8], parts: &mut [u8]) -> u64
    ensures { ExportsReading (parts_read text.now (length parts.old)) result parts.old parts.new }
{
    if parts.len() < PARTS_SIZE {
        return REFUSAL_BASE + NO_ROOM;
    }
    match frame_reader::read(text) {
        Err(WrongByte { at }) => wrong_byte(at),
        Ok(frame) => {
            put_parts(parts, frame);
            PARTS_SIZE as u64
        }
    }
}

// Reads a frame with its r. Refusals: 6 for fewer than 24 lent bytes, 8, 1, 8 at the flags byte.
pub fn read_with_r(text: &[u8], r: &[u8], parts: &mut [u8]) -> u64
    ensures { ExportsReading (parts_read_with_r r.now text.now (length parts.old)) result parts.old parts.new }
{
    if parts.len() < OPENED_SIZE {
        return REFUSAL_BASE + NO_ROOM;
    }
    match frame_opener::read_with_r(text, r) {
        Err(NotOpened::WrongByte(at)) => wrong_byte(at),
        Err(NotOpened::WrongSize) => REFUSAL_BASE + frame_opener::WRONG_SIZE,
        Ok(opened) => {
            put_parts(parts, opened.frame);
            parts[PARTS_SIZE] = opened.battery;
            OPENED_SIZE as u64
        }
    }
}
