#![tactic(auto)]
// The hash, the message authentication code and the block cipher that the tag uses, on sizes that are known to be right.
ghost use Rattle.std.specs.Prelude.{◌≡◌, List, ◌++◌, ℕ, ◌≤◌, length};
ghost use Rattle.sizes.specs.Sizes.{longest_message};
ghost use Rattle.primitives.specs.Standards.{SHA256, HMAC, keyed_by, AES128, InvAES128, AES256};

pub use cipher::Blocks;
pub use hmac::Keyed;

// SHA-256 of two parts, one after the other.
pub fn hash_pair(first: &[u8], second: &[u8]) -> [u8; 32]
    requires { (length first.now ≤ longest_message) × (length second.now ≤ longest_message) }
    ensures { result ≡ SHA256 (first.now ++ second.now) }
{
    hash::digest(first, second, b"", b"")
}

// HMAC of a head, a tail and a last part, one after the other; none of them is copied.
pub fn mac(key: &[u8], head: &[u8], tail: &[u8], last: &[u8]) -> [u8; 32]
    requires { (length key.now ≤ longest_message) × ((length head.now ≤ longest_message) × ((length tail.now ≤ longest_message) × (length last.now ≤ longest_message))) }
    ensures { result ≡ HMAC key.now (head.now ++ (tail.now ++ last.now)) }
{
    hmac::hmac(key, head, tail, last)
}

// A key of HMAC made ready, for several messages.
pub fn ready_key(key: &[u8]) -> Keyed
    requires { length key.now ≤ longest_message }
    ensures { result ≡ keyed_by key.now }
{
    hmac::ready_key(key)
}

// HMAC under a key that was made ready, of a head, a tail and a last part, one after the other; none of them is copied.
pub fn mac_under(key: Keyed, head: &[u8], tail: &[u8], last: &[u8]) -> [u8; 32]
    requires { (length head.now ≤ longest_message) × ((length tail.now ≤ longest_message) × (length last.now ≤ longest_message)) }
    ensures { (k : List ℕ) → key ≡ keyed_by k → result ≡ HMAC k (head.now ++ (tail.now ++ last.now)) }
{
    hmac::hmac_under(key, head, tail, last)
}

// AES-128 of one block.
pub fn encrypt(key: [u8; 16], block: [u8; 16]) -> [u8; 16]
    ensures { result ≡ AES128 key block }
{
    cipher::encrypt(key, block)
}

// Its inverse.
pub fn decrypt(key: [u8; 16], block: [u8; 16]) -> [u8; 16]
    ensures { result ≡ InvAES128 key block }
{
    cipher::decrypt(key, block)
}

// AES-128 of two blocks under one key, expanded once.
pub fn encrypt_pair(key: [u8; 16], first: [u8; 16], second: [u8; 16]) -> Blocks
    ensures { (result.first ≡ AES128 key first) × (result.second ≡ AES128 key second) }
{
    cipher::encrypt_pair(key, first, second)
}

// Its inverse.
pub fn decrypt_pair(key: [u8; 16], first: [u8; 16], second: [u8; 16]) -> Blocks
    ensures { (result.first ≡ InvAES128 key first) × (result.second ≡ InvAES128 key second) }
{
    cipher::decrypt_pair(key, first, second)
}

// AES-256 of one block.
pub fn encrypt256(key: [u8; 32], block: [u8; 16]) -> [u8; 16]
    ensures { result ≡ AES256 key block }
{
    cipher::encrypt256(key, block)
}

// AES-256 of two blocks under one key.
pub fn encrypt256_pair(key: [u8; 32], first: [u8; 16], second: [u8; 16]) -> Blocks
    ensures { (result.first ≡ AES256 key first) × (result.second ≡ AES256 key second) }
{
    cipher::encrypt256_pair(key, first, second)
}
