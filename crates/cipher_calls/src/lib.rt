#![tactic(auto)]
// The block cipher as public calls on any bytes, which refuse a wrong size with 7.
ghost use Rattle.std.specs.Prelude.{length};
ghost use Rattle.lent_answer.specs.Ends.{Ends};
ghost use Rattle.cipher_calls.specs.Calls.{encrypted, decrypted, encrypted256};

use lent_answer::{WrongSize, give};
use primitives::{decrypt, encrypt, encrypt256};

// AES-128 of a block of 16 bytes under a key of 16 bytes, into an answer of 16 bytes. Refusal: 7.
pub fn aes128_encrypt(key: &[u8], block: &[u8], answer: &mut [u8]) -> Result<(), WrongSize>
    ensures { Ends (encrypted key.now block.now (length answer.old)) result answer.old answer.new }
{
    let done = encrypt(key.try_into()?, block.try_into()?);
    give(answer, &done)
}

// Its inverse, with the same sizes. Refusal: 7.
pub fn aes128_decrypt(key: &[u8], block: &[u8], answer: &mut [u8]) -> Result<(), WrongSize>
    ensures { Ends (decrypted key.now block.now (length answer.old)) result answer.old answer.new }
{
    let done = decrypt(key.try_into()?, block.try_into()?);
    give(answer, &done)
}

// AES-256 of a block of 16 bytes under a key of 32 bytes, into an answer of 16 bytes. Refusal: 7.
pub fn aes256_encrypt(key: &[u8], block: &[u8], answer: &mut [u8]) -> Result<(), WrongSize>
    ensures { Ends (encrypted256 key.now block.now (length answer.old)) result answer.old answer.new }
{
    let done = encrypt256(key.try_into()?, block.try_into()?);
    give(answer, &done)
}
