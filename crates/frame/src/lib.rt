#![tactic(auto)]
// The advertised frame of a 160-bit identifier: its flags byte, and all of it. Nothing here knows a unit.
ghost use Rattle.std.specs.Prelude.{◌≡◌, cond, ◌≤◌, length};
ghost use Rattle.std.specs.Int.Bits.{bit_xor};
ghost use Rattle.laws.specs.Answer.{Wrote};
ghost use Rattle.sizes.specs.Sizes.{highest_battery, identifier_size, answer_room};
ghost use Rattle.frame.specs.Frame.{length_byte, rendered, flags_before_xor, flags_mask, flags_for};

use sizes::{DIGEST_SIZE, FRAME_FLAGS_AT, FRAME_IDENTIFIER_AT, IDENTIFIER_SIZE, LONGEST_FRAME};

// The last byte of SHA-256 of r, which hides the flags byte.
pub const MASK_AT: usize = DIGEST_SIZE - 1;

// The flags byte before and after it is hidden: battery times 2 plus protection, and that with the last byte of SHA-256 of r.
fn plain_flags(battery: u8, on: bool) -> u8
    requires { battery ≤ highest_battery }
    ensures { result ≡ flags_before_xor battery on }
{
    battery * 2 + u8::from(on)
}

fn hidden_flags(battery: u8, on: bool, r: [u8; IDENTIFIER_SIZE]) -> u8
    requires { battery ≤ highest_battery }
    ensures { result ≡ bit_xor (flags_before_xor battery on) (flags_mask r) }
{
    let plain = plain_flags(battery, on);
    let d = primitives::hash_pair(&r, b"");
    plain ^ d[MASK_AT]
}

// The flags byte, left out where battery and protection are both 0.
#[tactic(auto, unfolding(crate::specs::Frame::flags_for))]
pub fn flags_for(battery: u8, on: bool, r: [u8; IDENTIFIER_SIZE]) -> Option<u8>
    requires { battery ≤ highest_battery }
    ensures { result ≡ flags_for battery on r }
{
    if battery == 0 && !on {
        return None;
    }
    Some(hidden_flags(battery, on, r))
}

fn length_byte(flags: Option<u8>) -> u8
    ensures { result ≡ length_byte identifier_size flags }
{
    match flags {
        None => 0x18,
        Some(_) => 0x19,
    }
}

// The byte that says what kind of frame it is.
fn kind_byte(on: bool) -> u8
    ensures { result ≡ cond on 0x41 0x40 }
{
    if on { 0x41 } else { 0x40 }
}

// Writes a frame of an identifier, the protection bit and the flags byte. Gives the number of bytes written.
pub fn render(id: [u8; IDENTIFIER_SIZE], on: bool, flags: Option<u8>, answer: &mut [u8]) -> usize
    requires { answer_room ≤ length answer.old }
    ensures { Wrote (rendered identifier_size id on flags) result answer.old answer.new }
{
    let size = length_byte(flags);
    let kind = kind_byte(on);
    let head = [0x02, 0x01, 0x06, size, 0x16, 0xAA, 0xFE, kind];
    octets::put(answer, 0, &head);
    octets::put(answer, FRAME_IDENTIFIER_AT, &id);
    match flags {
        None => FRAME_FLAGS_AT,
        Some(byte) => {
            octets::put(answer, FRAME_FLAGS_AT, &[byte]);
            LONGEST_FRAME
        }
    }
}
