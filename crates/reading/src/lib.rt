#![tactic(auto)]
// What a value on a line means: numbers, a flag; or none, where it is wrong.
ghost use Rattle.std.specs.Prelude.{◌≡◌};
ghost use Rattle.reading.specs.Reading.{unsigned as unsigned_of, signed as signed_of, flag as flag_of, negative, positive};
ghost use Rattle.reading.specs.Values.{in_digits};

// A decimal number without leading zeros, of 32 bits.
pub fn unsigned(text: &[u8]) -> Option<u32>
    ensures { result ≡ unsigned_of text.now }
{
    if text.is_empty() {
        return None;
    }
    if 1 < text.len() && text[0] == b'0' {
        return None;
    }
    digits(text)
}

// The number of a text of digits; one that is too large is wrong as soon as it is.
fn digits(text: &[u8]) -> Option<u32>
    ensures { result ≡ in_digits text.now }
{
    let mut value: u32 = 0;
    for c in text {
        if !c.is_ascii_digit() {
            return None;
        }
        value = value.checked_mul(10)?.checked_add((*c - b'0') as u32)?;
    }
    Some(value)
}

// The same with a minus before it, of 32 bits as well.
#[tactic(auto, using(crate::proofs::Numerals::signed_by))]
pub fn signed(text: &[u8]) -> Option<i32>
    ensures { result ≡ signed_of text.now }
{
    match text.strip_prefix(b"-") {
        Some(digits) => below(unsigned(digits)?),
        None => above(unsigned(text)?),
    }
}

fn below(n: u32) -> Option<i32>
    ensures { result ≡ negative n }
{
    if n == 0 {
        return None;
    }
    if 2147483648 < n {
        return None;
    }
    Some(-1 - ((n - 1) as i32))
}

#[tactic(auto, using(crate::proofs::Numerals::above_is))]
fn above(n: u32) -> Option<i32>
    ensures { result ≡ positive n }
{
    i32::try_from(n).ok()
}

// 0 or 1.
#[tactic(auto, using(laws::proofs::Same::pointwise_same), unfolding(crate::specs::Reading::flag))]
pub fn flag(text: &[u8]) -> Option<bool>
    ensures { result ≡ flag_of text.now }
{
    if text == b"0".as_slice() {
        Some(false)
    } else if text == b"1".as_slice() {
        Some(true)
    } else {
        None
    }
}
