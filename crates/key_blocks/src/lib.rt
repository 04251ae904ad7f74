#![tactic(auto)]
// The identity key as it travels: two blocks under the owner key.
ghost use Rattle.std.specs.Prelude.{◌≡◌, ◌+◌, ◌≤◌, length, take, drop};
ghost use Rattle.sizes.specs.Sizes.{block_size, identity_key_size};
ghost use Rattle.key_blocks.specs.KeyBlocks.{decrypted_key, encrypted_key};

use sizes::{ACCOUNT_KEY_SIZE, BLOCK_SIZE, IDENTITY_KEY_SIZE};

// A block of a slice from a place on.
fn block_at(s: &[u8], at: usize) -> [u8; BLOCK_SIZE]
    requires { at + block_size ≤ length s.now }
    ensures { result ≡ take block_size (drop at s.now) }
{
    octets::array(&s[at..at + BLOCK_SIZE])
}

// The identity key that 0x02 carries, decrypted with the owner key.
pub fn decrypted_key(key: [u8; ACCOUNT_KEY_SIZE], cipher: &[u8]) -> [u8; IDENTITY_KEY_SIZE]
    requires { identity_key_size ≤ length cipher.now }
    ensures { result ≡ decrypted_key key cipher.now }
{
    let first = block_at(cipher, 0);
    let second = block_at(cipher, BLOCK_SIZE);
    let plain = primitives::decrypt_pair(key, first, second);
    octets::joined(plain.first, plain.second)
}

// The identity key, encrypted with the owner key.
pub fn encrypted_key(
    key: [u8; ACCOUNT_KEY_SIZE],
    identity: [u8; IDENTITY_KEY_SIZE],
) -> [u8; IDENTITY_KEY_SIZE]
    ensures { result ≡ encrypted_key key identity }
{
    let first = block_at(&identity, 0);
    let second = block_at(&identity, BLOCK_SIZE);
    let cipher = primitives::encrypt_pair(key, first, second);
    octets::joined(cipher.first, cipher.second)
}
