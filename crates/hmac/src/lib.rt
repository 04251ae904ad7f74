#![tactic(auto)]
// HMAC (RFC 2104) with SHA-256 over a message handed in as parts.

// The key.
mod key;

ghost use Rattle.std.specs.Prelude.{◌≡◌, List, ◌++◌, ℕ, ◌+◌, ◌^◌, ◌<◌, length};
ghost use Rattle.hmac.specs.Hmac.{HMAC, keyed_by};

use compression::Working;
use hash::{digest_of_value, state_after};
use key::{key_block, masked, value_of};
use padding::parts::Message;

// A key of HMAC, made ready: the hash values after its block under ipad and under opad. Plain data, for as many messages as there are.
#[derive(Clone, Copy)]
pub struct Keyed {
    pub inner: Working,
    pub outer: Working,
}

// The key made ready.
pub fn ready_key(key: &[u8]) -> Keyed
    requires { length key.now < 2 ^ 61 }
    ensures { result ≡ keyed_by key.now }
{
    let block = key_block(key);
    Keyed {
        inner: value_of(masked(block, 0x36)),
        outer: value_of(masked(block, 0x5c)),
    }
}

// HMAC with SHA-256, under the key that was made ready, of the three parts one after another. With the key's block they are hashed as one message,
// so they are shorter than 2^64 bits together. No more than a block of them is copied at a time. Kept: three slices, as the public call over parts has
// them (`hash_calls::hmac_sha256_parts`).
pub fn hmac_under(key: Keyed, head: &[u8], tail: &[u8], last: &[u8]) -> [u8; 32]
    requires { 64 + (length head.now + length tail.now + length last.now) < 2 ^ 61 }
    ensures { (k : List ℕ) → key ≡ keyed_by k → result ≡ HMAC k (head.now ++ (tail.now ++ last.now)) }
{
    let message = Message {
        first: head,
        head: tail,
        tail: last,
        last: b"",
        before: 64,
    };
    let inner = state_after(key.inner, &message);
    digest_of_value(key.outer, inner)
}

// HMAC with SHA-256, under the key, of the three parts one after another.
pub fn hmac(key: &[u8], head: &[u8], tail: &[u8], last: &[u8]) -> [u8; 32]
    requires key_len_bound { length key.now < 2 ^ 61 }
    requires last_bound { 64 + length head.now + length tail.now + length last.now < 2 ^ 61 }
    ensures { result ≡ HMAC key.now (head.now ++ (tail.now ++ last.now)) }
{
    hmac_under(ready_key(key), head, tail, last)
}
