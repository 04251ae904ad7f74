#![tactic(auto)]
// Which writes have a legal shape.
ghost use Rattle.std.specs.Prelude.{◌≡◌};
ghost use Rattle.shapes.specs.Lengths.{size_legal};

// The length of a 0x02 that proves the key held.
pub const PROVEN_SIZE: u8 = 48;

// Whether a length byte is legal for a data ID.
pub fn size_legal(id: u8, size: u8) -> bool
    ensures { result ≡ size_legal id size }
{
    match id {
        0x00 | 0x01 | 0x04 | 0x06 => size == 8,
        0x02 => size == 40 || size == PROVEN_SIZE,
        0x03 | 0x08 => size == 16,
        0x05 => size == 12,
        0x07 => size == 8 || size == 9,
        _ => false,
    }
}
