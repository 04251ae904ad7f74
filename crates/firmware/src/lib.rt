#![tactic(auto)]
// The tag's calls for a host in C or Rust, over the unit as a record of bytes that the host keeps and saves. Any bytes may be handed in:
// those that are no record are answered as a unit that is not well formed. Each call gives one number: the answer bytes written, or
// 256 and the refusal's number; for elapsed time also, 65,536 times, the tenth at which a ring ended.
// The crate `firmware_c` exports each under its name, for the archive that a host links.
ghost use Rattle.std.specs.Prelude.{not, eqb, length};
ghost use Rattle.hash_calls.specs.Calls.{hashed, authenticated};
ghost use Rattle.cipher_calls.specs.Calls.{encrypted, decrypted, encrypted256};
ghost use Rattle.desk.specs.Exported.{parts_read, parts_read_with_r, ExportsReading};
ghost use Rattle.settings_calls.specs.Settings.{new_unit};
ghost use Rattle.tag.specs.Calls.{call, elapsed as elapsed_of};
ghost use Rattle.tag.specs.Calls as of;
ghost use Rattle.stored.specs.Record.{decoded};
ghost use Rattle.exports.specs.Exported.{Exports, ExportsAnswer, ExportsSleep, ExportsDigest, new_in};

use sizes::{BLOCK_SIZE, DIGEST_SIZE};
use stored::RECORD_SIZE;
use unit::Step;

// A new unit in the record. Refusals: 2 for a record of another length, then 1 for settings out of range; the bytes then stay.
#[unsafe(no_mangle)]
pub extern "C" fn tag_new(bytes: &mut [u8], power: i32, components: u32, selectable: u32) -> u64
    ensures { Exports (new_in bytes.old (new_unit power components selectable)) result bytes.old bytes.new }
{
    if bytes.len() != RECORD_SIZE {
        return exports::no_record(bytes);
    }
    exports::finish(bytes, tag::new_unit(power, components, selectable))
}

// Read: issues the lent nonce. Refusals: 6, 2, 3.
#[unsafe(no_mangle)]
pub extern "C" fn tag_read(bytes: &mut [u8], nonce: &[u8], answer: &mut [u8]) -> u64
    ensures { ExportsAnswer (call (of.read nonce.now) (length answer.old) (decoded bytes.old)) result bytes.old bytes.new answer.old answer.new }
{
    let step = tag::read(stored::decode(bytes), nonce, answer);
    exports::finish(bytes, step)
}

// Write: a request of the phone's, with the mask of the parts that can be reached now. Refusals: 6, 2, 1, and then, with the nonce spent, 0x81, 0x80,
// 0x81, 0x82.
#[unsafe(no_mangle)]
pub extern "C" fn tag_write(bytes: &mut [u8], request: &[u8], reach: u32, answer: &mut [u8]) -> u64
    ensures { ExportsAnswer (call (of.write (record { bytes = request.now; reach = reach })) (length answer.old) (decoded bytes.entry.now)) result bytes.entry.now bytes.exit.now answer.old answer.new }
{
    let step = tag::write(stored::decode(bytes), request, reach, answer);
    exports::finish(bytes, step)
}

// Button. Refusals: 6, 2.
#[unsafe(no_mangle)]
pub extern "C" fn tag_button(bytes: &mut [u8], answer: &mut [u8]) -> u64
    ensures { ExportsAnswer (call of.button (length answer.old) (decoded bytes.old)) result bytes.old bytes.new answer.old answer.new }
{
    let step = tag::button(stored::decode(bytes), answer);
    exports::finish(bytes, step)
}

// Time: any number of tenths. Refusals: 6, 2.
#[unsafe(no_mangle)]
pub extern "C" fn tag_elapsed(bytes: &mut [u8], tenths: u32, answer: &mut [u8]) -> u64
    ensures { ExportsAnswer (elapsed_of tenths (length answer.old) (decoded bytes.old)) result bytes.old bytes.new answer.old answer.new }
{
    let passed = tag::elapsed(stored::decode(bytes), tenths, answer);
    let step = Step {
        unit: passed.unit,
        reply: passed.reply,
    };
    exports::with_tenths(exports::finish(bytes, step), passed.ended)
}

// The tenths until the next thing that time alone would do, 65,536 times. The record stays. Refusal: 2.
#[unsafe(no_mangle)]
pub extern "C" fn tag_sleep(bytes: &[u8]) -> u64
    ensures { ExportsSleep (decoded bytes.now) result }
{
    match tag::sleep_until(stored::decode(bytes)) {
        Ok(tenths) => exports::with_tenths(0, tenths),
        Err(refusal) => exports::refusal_code(refusal),
    }
}

// Pairing mode: 0 is off, anything else on. Refusal: 2.
#[unsafe(no_mangle)]
pub extern "C" fn tag_pairing(bytes: &mut [u8], on: u32) -> u64
    ensures { Exports (call (of.pairing (not (eqb on 0))) 0 (decoded bytes.old)) result bytes.old bytes.new }
{
    let step = tag::pairing(stored::decode(bytes), on != 0);
    exports::finish(bytes, step)
}

// The battery level. Refusals: 2, 1.
#[unsafe(no_mangle)]
pub extern "C" fn tag_battery(bytes: &mut [u8], level: u32) -> u64
    ensures { Exports (call (of.battery level) 0 (decoded bytes.old)) result bytes.old bytes.new }
{
    let step = tag::battery(stored::decode(bytes), level);
    exports::finish(bytes, step)
}

// Adds an account key. Refusals: 2, 4.
#[unsafe(no_mangle)]
pub extern "C" fn tag_account_key(bytes: &mut [u8], key: &[u8]) -> u64
    ensures { Exports (call (of.account_key key.now) 0 (decoded bytes.old)) result bytes.old bytes.new }
{
    let step = tag::account_key(stored::decode(bytes), key);
    exports::finish(bytes, step)
}

// The phone has hung up: brings a waiting identity key into force. Refusal: 2.
#[unsafe(no_mangle)]
pub extern "C" fn tag_disconnect(bytes: &mut [u8]) -> u64
    ensures { Exports (call of.disconnect 0 (decoded bytes.old)) result bytes.old bytes.new }
{
    let step = tag::disconnect(stored::decode(bytes));
    exports::finish(bytes, step)
}

// The advertised frame. Refusals: 6, 2, 5.
#[unsafe(no_mangle)]
pub extern "C" fn tag_frame(bytes: &mut [u8], answer: &mut [u8]) -> u64
    ensures { ExportsAnswer (call of.frame (length answer.old) (decoded bytes.old)) result bytes.old bytes.new answer.old answer.new }
{
    let step = tag::advertise(stored::decode(bytes), answer);
    exports::finish(bytes, step)
}

// Reads a frame, of this tag or another: its identifier, protection, flags byte, in 23 bytes. Refusals: 6 for fewer, 8.
#[unsafe(no_mangle)]
pub extern "C" fn tag_frame_read(frame: &[u8], parts: &mut [u8]) -> u64
    ensures { ExportsReading (parts_read frame.now (length parts.old)) result parts.old parts.new }
{
    desk::read(frame, parts)
}

// The same with its r, and the battery level behind them, in 24 bytes. Refusals: 6 for fewer, 8, 1, 8.
#[unsafe(no_mangle)]
pub extern "C" fn tag_frame_read_with_r(frame: &[u8], r: &[u8], parts: &mut [u8]) -> u64
    ensures { ExportsReading (parts_read_with_r r.now frame.now (length parts.old)) result parts.old parts.new }
{
    desk::read_with_r(frame, r, parts)
}

// SHA-256 of a message of up to 65,535 bytes, into 32 bytes. Refusal: 7.
#[unsafe(no_mangle)]
pub extern "C" fn tag_sha256(message: &[u8], answer: &mut [u8]) -> u64
    ensures { ExportsDigest (hashed message.now (length answer.old)) result answer.old answer.new }
{
    let end = hash_calls::sha256(message, answer);
    exports::digest_code(end, DIGEST_SIZE as u64)
}

// HMAC-SHA-256 under a key of up to 65,535 bytes of a message of as many, into 32 bytes. Refusal: 7.
#[unsafe(no_mangle)]
pub extern "C" fn tag_hmac_sha256(key: &[u8], message: &[u8], answer: &mut [u8]) -> u64
    ensures { ExportsDigest (authenticated key.now message.now (length answer.old)) result answer.old answer.new }
{
    let end = hash_calls::hmac_sha256(key, message, answer);
    exports::digest_code(end, DIGEST_SIZE as u64)
}

// AES-128 of a block of 16 bytes under a key of 16 bytes, into 16 bytes. Refusal: 7.
#[unsafe(no_mangle)]
pub extern "C" fn tag_aes128_encrypt(key: &[u8], block: &[u8], answer: &mut [u8]) -> u64
    ensures { ExportsDigest (encrypted key.now block.now (length answer.old)) result answer.old answer.new }
{
    let end = cipher_calls::aes128_encrypt(key, block, answer);
    exports::digest_code(end, BLOCK_SIZE as u64)
}

// Its inverse, with the same sizes. Refusal: 7.
#[unsafe(no_mangle)]
pub extern "C" fn tag_aes128_decrypt(key: &[u8], block: &[u8], answer: &mut [u8]) -> u64
    ensures { ExportsDigest (decrypted key.now block.now (length answer.old)) result answer.old answer.new }
{
    let end = cipher_calls::aes128_decrypt(key, block, answer);
    exports::digest_code(end, BLOCK_SIZE as u64)
}

// AES-256 of a block of 16 bytes under a key of 32 bytes, into 16 bytes. Refusal: 7.
#[unsafe(no_mangle)]
pub extern "C" fn tag_aes256_encrypt(key: &[u8], block: &[u8], answer: &mut [u8]) -> u64
    ensures { ExportsDigest (encrypted256 key.now block.now (length answer.old)) result answer.old answer.new }
{
    let end = cipher_calls::aes256_encrypt(key, block, answer);
    exports::digest_code(end, BLOCK_SIZE as u64)
}
