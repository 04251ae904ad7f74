#![tactic(auto)]
// The reader of frames with r, which also gives the battery level. Nothing here knows a unit.
ghost use Rattle.std.specs.Prelude.{◌≡◌, ◌≤◌, length};
ghost use Rattle.sizes.specs.Sizes.{identifier_size, longest_message};
ghost use Rattle.frame_reader.specs.Reader.{Parts};
ghost use Rattle.frame_opener.specs.Opener.{read_frame_with_r, unmasked, flags_right, opened_by};
ghost use Rattle.frame_opener.specs.Opened.{battery_as, opening_of};
ghost use Rattle.frame_opener.specs.declared.NotOpened.{NotOpened};

use frame::MASK_AT;
use frame_reader::{Frame, WrongByte, read};
use sizes::{FRAME_FLAGS_AT, IDENTIFIER_SIZE};

// The number of the refusal of an r that is not as long as the identifier. Kept: the C interface, as the reader's number is.
pub const WRONG_SIZE: u64 = 1;

// What a frame says with its r.
#[derive(Clone, Copy)]
pub struct Opened {
    pub frame: Frame,
    pub battery: u8,
}

// Refusal 8 with the place of the first wrong byte, or refusal 1 for an r that is not as long as the identifier.
#[derive(Clone, Copy)]
pub enum NotOpened {
    WrongByte(usize),
    WrongSize,
}

impl From<WrongByte> for NotOpened {
    ghost from_gives = { λ w e. e ≡ NotOpened.WrongByte w.at };

    fn from(wrong: WrongByte) -> NotOpened {
        NotOpened::WrongByte(wrong.at)
    }
}

// The flags byte as it was before the XOR with the last byte of SHA-256 of r.
fn unmask(byte: u8, r: &[u8]) -> u8
    requires { length r.now ≤ longest_message }
    ensures { result ≡ unmasked r.now byte }
{
    let d = primitives::hash_pair(r, b"");
    byte ^ d[MASK_AT]
}

// Whether a flags byte, before the XOR, is one that the writer makes under this protection.
#[tactic(auto, unfolding(crate::specs::Opener::flags_right))]
fn flags_right(on: bool, f: u8) -> bool
    ensures { result ≡ flags_right on f }
{
    let protection = u8::from(on);
    (f / 8 == 0) & ((f % 2 == protection) & !((f / 2 % 4 == 0) & (f % 2 == 0)))
}

// The battery level that r shows of a frame that reads; 0 where its flags byte is left out.
#[tactic(auto, unfolding(crate::specs::Opener::opened_by))]
fn battery(on: bool, flags: Option<u8>, r: &[u8]) -> Result<u8, WrongByte>
    requires { length r.now ≤ longest_message }
    ensures { (p : Parts) → p.protected ≡ on → battery_as p result ≡ opened_by r.now identifier_size p flags }
{
    let Some(byte) = flags else {
        return Ok(0);
    };
    let f = unmask(byte, r);
    if !flags_right(on, f) {
        return Err(WrongByte { at: FRAME_FLAGS_AT });
    }
    Ok(f / 2 % 4)
}

// Reads a frame with its r. Refusals: 8, then 1 for an r that is not as long as the identifier, then 8 at the flags byte.
#[tactic(auto, using(crate::proofs::Scanning::with_refusal, crate::proofs::Scanning::with_wrong_size, crate::proofs::Scanning::with_size))]
pub fn read_with_r(text: &[u8], r: &[u8]) -> Result<Opened, NotOpened>
    ensures { opening_of result ≡ read_frame_with_r identifier_size r.now text.now }
{
    let frame = read(text)?;
    if r.len() != IDENTIFIER_SIZE {
        return Err(NotOpened::WrongSize);
    }
    Ok(Opened {
        frame,
        battery: battery(frame.on, frame.flags, r)?,
    })
}
