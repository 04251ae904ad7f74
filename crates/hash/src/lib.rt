#![tactic(auto)]
// SHA-256 (FIPS 180-4) over a message handed in as parts.

// The hash value.
pub mod value;

ghost use Rattle.std.specs.Prelude.{◌≡◌, List, ◌++◌, ℕ, ◌+◌, ◌^◌, ◌<◌, length};
ghost use Rattle.padding.specs.Padding.{pad};
ghost use Rattle.padding.specs.Parts.{bytes_of};
ghost use Rattle.hash.specs.Sha256.{SHA256, digest, value_after};

use compression::{Working, compress};
use message_blocks::load;
use padding::parts::Message;

// SHA-256 of the four parts, one after another, as one message shorter than 2^64 bits. No more than a block of it is copied at a time.
pub fn digest(first: &[u8], head: &[u8], tail: &[u8], last: &[u8]) -> [u8; 32]
    requires { length first.now + length head.now + length tail.now + length last.now < 2 ^ 61 }
    ensures { result ≡ SHA256 (first.now ++ (head.now ++ (tail.now ++ last.now))) }
{
    let message = Message {
        first,
        head,
        tail,
        last,
        before: 0,
    };
    digest_after(value::initial(), &message)
}

// SHA-256 of the bytes before a message, whose hash value is given, and the message after them.
pub fn digest_after(start: Working, message: &Message) -> [u8; 32]
    ensures { (p : List ℕ) → length p ≡ message.now.before → start ≡ value_after p → result ≡ SHA256 (p ++ bytes_of message.now) }
{
    value::bytes(state_after(start, message))
}

// The last hash value of the same message, whose bytes are its SHA-256.
pub fn state_after(start: Working, message: &Message) -> Working
    ensures { (p : List ℕ) → length p ≡ message.now.before → start ≡ value_after p → result ≡ value_after (pad (p ++ bytes_of message.now)) }
{
    let blocks = (message.len() + 8) / 64 + 1;
    let mut words = [0u32; 16];
    let mut state = start;
    for i in 0..blocks {
        load(message, i, &mut words);
        state = compress(state, &mut words);
    }
    state
}

// SHA-256 of one block, whose hash value is given, and of the bytes of another hash value after it. These bytes are not written for it.
pub fn digest_of_value(start: Working, v: Working) -> [u8; 32]
    ensures { (p : List ℕ) → length p ≡ 64 → start ≡ value_after p → result ≡ SHA256 (p ++ digest v) }
{
    let mut words = value::after_block(v);
    value::bytes(compress(start, &mut words))
}
