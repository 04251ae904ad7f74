#![tactic(auto)]
// What a value in hexadecimal on a line means: bytes, or one byte; or none, where it is wrong.
ghost use Rattle.std.specs.Prelude.{◌≡◌, ◌*◌, ◌≤◌, ◌<◌, length, IfSome};
ghost use Rattle.hex_reading.specs.Hex.{hex_value, one_byte};
ghost use Rattle.hex_reading.specs.HexValues.{pair_of, Unhexes};

// The value of a hexadecimal digit in lower case.
#[tactic(auto, unfolding(crate::specs::Hex::hex_value))]
fn nibble(c: u8) -> Option<u8>
    ensures value { result ≡ hex_value c }
    ensures small { IfSome result (λ n. n < 16) }
{
    match c {
        b'0'..=b'9' => Some(c - b'0'),
        b'a'..=b'f' => Some(c - b'a' + 10),
        _ => None,
    }
}

// The byte of two digits.
fn pair(high: u8, low: u8) -> Option<u8>
    ensures { result ≡ pair_of (hex_value high) (hex_value low) }
{
    Some(nibble(high)? * 16 + nibble(low)?)
}

// One byte in hexadecimal, two digits.
#[tactic(auto, using(crate::proofs::Unhexed::not_two, crate::proofs::Unhexed::two_digits))]
pub fn one_byte(text: &[u8]) -> Option<u8>
    ensures { result ≡ one_byte text.now }
{
    if text.len() != 2 {
        return None;
    }
    pair(text[0], text[1])
}

// Bytes in hexadecimal, two digits each, into lent bytes: how many there are.
#[tactic(auto, using(crate::proofs::Unhexed::bytes_odd, crate::proofs::Unhexed::joined_none, crate::proofs::Unhexed::joined_wrong, crate::proofs::Unhexed::joined_more, crate::proofs::Unhexed::joined_all))]
pub fn unhex(text: &[u8], into: &mut [u8]) -> Option<usize>
    requires { length text.now ≤ 2 * length into.old }
    ensures { Unhexes text.now result into.new }
{
    if text.len() % 2 != 0 {
        return None;
    }
    let count = text.len() / 2;
    for i in 0..count {
        into[i] = pair(text[2 * i], text[2 * i + 1])?;
    }
    Some(count)
}
