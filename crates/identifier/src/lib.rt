#![tactic(auto)]
// The ephemeral identifier of an identity key and a window, with its r: what a tag advertises while that key is in force, in that window. Nothing here
// knows a unit.
ghost use Rattle.std.specs.Prelude.{◌≡◌};
ghost use Rattle.curve_laws.specs.Curves.{SECP160R1};
ghost use Rattle.identifier.specs.Identifier.{half as half_of, pseudorandom as pseudorandom_of, WorksOut};

use curves::secp160r1::secp160r1;
use sizes::{BLOCK_SIZE, IDENTIFIER_SIZE, IDENTITY_KEY_SIZE, ROTATION_EXPONENT};

// The bytes of r', two blocks, and those of a number modulo n above the bytes of r.
const NUMBER_SIZE: usize = 2 * BLOCK_SIZE;

const ABOVE_R: usize = NUMBER_SIZE - IDENTIFIER_SIZE;

// An identifier of SECP160R1 and its r, cut or padded to as many bytes.
#[derive(Clone, Copy)]
pub struct Identifier {
    pub r: [u8; IDENTIFIER_SIZE],
    pub id: [u8; IDENTIFIER_SIZE],
}

// A half of the 32 bytes of the accessory rules' table 10: 11 bytes of padding, K, the window.
fn half(padding: u8, window: u32) -> [u8; BLOCK_SIZE]
    ensures { result ≡ half_of padding window }
{
    let mut block = [padding; BLOCK_SIZE];
    let exponent = [ROTATION_EXPONENT];
    octets::put(&mut block, 11, &exponent);
    let counter = window.to_be_bytes();
    octets::put(&mut block, 12, &counter);
    block
}

// r': the two halves under the identity key.
fn pseudorandom(key: [u8; IDENTITY_KEY_SIZE], window: u32) -> [u8; NUMBER_SIZE]
    ensures { result ≡ pseudorandom_of key window }
{
    let cipher = primitives::encrypt256_pair(key, half(0xFF, window), half(0x00, window));
    octets::joined(cipher.first, cipher.second)
}

// The identifier of r': r = r' mod n, the x coordinate of r times G, and r cut or padded. None where r is 0.
pub fn from_number(number: [u8; NUMBER_SIZE]) -> Option<Identifier>
    ensures { WorksOut SECP160R1 number result }
{
    let m = secp160r1(number);
    if octets::all_zero(&m.r) {
        return None;
    }
    Some(Identifier {
        r: octets::array(&m.r[ABOVE_R..]),
        id: m.x,
    })
}

// The identifier of an identity key and a window.
pub fn of_key(key: [u8; IDENTITY_KEY_SIZE], window: u32) -> Option<Identifier>
    ensures { WorksOut SECP160R1 (pseudorandom_of key window) result }
{
    from_number(pseudorandom(key, window))
}
