#![tactic(auto)]
// The hash and the message authentication code as public calls on any bytes, which refuse a wrong size with 7.
ghost use Rattle.std.specs.Prelude.{◌++◌, length};
ghost use Rattle.lent_answer.specs.Ends.{Ends};
ghost use Rattle.hash_calls.specs.Calls.{hashed, authenticated};

use lent_answer::{WrongSize, give};
use primitives::{hash_pair, mac};

// The longest message and the longest HMAC key.
const LONGEST: usize = sizes::LONGEST_MESSAGE;

// SHA-256 of a message of up to 65,535 bytes, into an answer of 32 bytes. Refusal: 7.
pub fn sha256(message: &[u8], answer: &mut [u8]) -> Result<(), WrongSize>
    ensures { Ends (hashed message.now (length answer.old)) result answer.old answer.new }
{
    if LONGEST < message.len() {
        return Err(WrongSize);
    }
    let digest = hash_pair(message, b"");
    give(answer, &digest)
}

// HMAC-SHA-256 under a key of up to 65,535 bytes of a message of as many, into an answer of 32 bytes. Refusal: 7.
pub fn hmac_sha256(key: &[u8], message: &[u8], answer: &mut [u8]) -> Result<(), WrongSize>
    ensures { Ends (authenticated key.now message.now (length answer.old)) result answer.old answer.new }
{
    hmac_sha256_parts(key, message, b"", b"", answer)
}

// HMAC-SHA-256 of a message that is handed in as a head, a tail and a last part, none of them copied. Refusal: 7.
pub fn hmac_sha256_parts(
    key: &[u8],
    head: &[u8],
    tail: &[u8],
    last: &[u8],
    answer: &mut [u8],
) -> Result<(), WrongSize>
    ensures { Ends (authenticated key.now (head.now ++ (tail.now ++ last.now)) (length answer.old)) result answer.old answer.new }
{
    let message = head
        .len()
        .saturating_add(tail.len())
        .saturating_add(last.len());
    if LONGEST < key.len() || LONGEST < message {
        return Err(WrongSize);
    }
    let tag = mac(key, head, tail, last);
    give(answer, &tag)
}
