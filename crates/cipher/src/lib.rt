#![tactic(auto)]
// AES (FIPS 197): one block of 16 bytes, each way under a key of 16 bytes, and encrypted under one of 32. Both are uses of one key expansion over Nk
// and one cipher over Nr. Where two blocks follow one another under a key, its schedule is made once.
ghost use Rattle.std.specs.Prelude.{◌≡◌, ◌+◌, ◌-◌, ◌*◌, ◌≤◌, length};
ghost use Rattle.words.specs.Words.{bytes_of};
ghost use Rattle.key_schedule.specs.Expansion.{expanded};
ghost use Rattle.key_schedule.specs.Fours.{Fours};
ghost use Rattle.cipher.specs.Aes.{AES128, InvAES128, AES256};

use inverse_keys::unmix_keys;
use key_schedule::expand;
use rounds::{cipher, inv_cipher};

// Two blocks.
#[derive(Clone, Copy)]
pub struct Blocks {
    pub first: [u8; 16],
    pub second: [u8; 16],
}

// The key schedule of N words of a key of nk words.
fn schedule<const N: usize>(nk: usize, key: &[u8]) -> [u32; N]
    requires { (nk ≤ N) × ((N ≤ 60) × (Fours nk (N - nk) × (length key.now ≡ 4 * nk))) }
    ensures { bytes_of result ≡ expanded nk (N - nk) key.now }
{
    let mut keys = [0u32; N];
    expand(nk, N - nk, key, &mut keys);
    keys
}

// AES-128: the block encrypted under the key.
pub fn encrypt(key: [u8; 16], block: [u8; 16]) -> [u8; 16]
    ensures { result ≡ AES128 key block }
{
    let keys = schedule::<44>(4, &key);
    cipher(&keys, 10, block)
}

// AES-128: the block decrypted under the key.
pub fn decrypt(key: [u8; 16], block: [u8; 16]) -> [u8; 16]
    ensures { result ≡ InvAES128 key block }
{
    let mut keys = schedule::<44>(4, &key);
    unmix_keys(10, &mut keys);
    inv_cipher(&keys, 10, block)
}

// AES-256: the block encrypted under the key.
pub fn encrypt256(key: [u8; 32], block: [u8; 16]) -> [u8; 16]
    ensures { result ≡ AES256 key block }
{
    let keys = schedule::<60>(8, &key);
    cipher(&keys, 14, block)
}

// AES-128: two blocks, each encrypted under the key.
pub fn encrypt_pair(key: [u8; 16], first: [u8; 16], second: [u8; 16]) -> Blocks
    ensures { (result.first ≡ AES128 key first) × (result.second ≡ AES128 key second) }
{
    let keys = schedule::<44>(4, &key);
    Blocks {
        first: cipher(&keys, 10, first),
        second: cipher(&keys, 10, second),
    }
}

// AES-128: two blocks, each decrypted under the key.
pub fn decrypt_pair(key: [u8; 16], first: [u8; 16], second: [u8; 16]) -> Blocks
    ensures { (result.first ≡ InvAES128 key first) × (result.second ≡ InvAES128 key second) }
{
    let mut keys = schedule::<44>(4, &key);
    unmix_keys(10, &mut keys);
    Blocks {
        first: inv_cipher(&keys, 10, first),
        second: inv_cipher(&keys, 10, second),
    }
}

// AES-256: two blocks, each encrypted under the key.
pub fn encrypt256_pair(key: [u8; 32], first: [u8; 16], second: [u8; 16]) -> Blocks
    ensures { (result.first ≡ AES256 key first) × (result.second ≡ AES256 key second) }
{
    let keys = schedule::<60>(8, &key);
    Blocks {
        first: cipher(&keys, 14, first),
        second: cipher(&keys, 14, second),
    }
}
