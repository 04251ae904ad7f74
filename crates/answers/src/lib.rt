#![tactic(auto)]
// Answers and notices, signed and written into the bytes that the caller lends. Nothing here knows a unit.
ghost use Rattle.std.specs.Prelude.{ℕ, ◌≤◌, ◌≡◌, List, length};
ghost use Rattle.sizes.specs.Sizes.{most_data, answer_room};
ghost use Rattle.primitives.specs.Standards.{keyed_by};
ghost use Rattle.wire.specs.Signing.{signed, notice_data, ring_notice};
ghost use Rattle.laws.specs.Answer.{Wrote};

use primitives::Keyed;
use sizes::{HEAD_SIZE, IDENTITY_KEY_SIZE, NONCE_SIZE, TAG_SIZE};
use wire::signing;

// The ID of a ring and of its notices, and the status of a notice.
// Kept: what may not change: `notice_data` and `stop_notice` promise a notice of every status byte, which an enum would narrow.
pub const RING_ID: u8 = 0x05;

pub const STARTED: u8 = 0;

pub const FAILED: u8 = 1;

pub const TIMED_OUT: u8 = 2;

pub const BY_BUTTON: u8 = 3;

pub const BY_REQUEST: u8 = 4;

pub const NOTICE_SIZE: usize = 4;

// Writes the signed answer to a request, under a key that was made ready: ID, length, tag, data. Gives the number of bytes written.
pub fn sign(key: Keyed, nonce: [u8; NONCE_SIZE], id: u8, data: &[u8], answer: &mut [u8]) -> usize
    requires { (length «data».now ≤ most_data) × (answer_room ≤ length answer.old) }
    ensures { (k : List ℕ) → key ≡ keyed_by k → Wrote (signed k nonce id «data».now) result answer.old answer.new }
{
    let size = TAG_SIZE + data.len();
    let tag = signing::answer_tag(key, nonce, id, data);
    let first = [id, size as u8];
    octets::put(answer, 0, &first);
    octets::put(answer, 2, &tag);
    octets::put(answer, HEAD_SIZE, data);
    2 + size
}

// The data of a ring notice: status, mask and tenths left.
pub fn notice_data(status: u8, mask: u8, left: u16) -> [u8; NOTICE_SIZE]
    ensures { result ≡ notice_data status mask left }
{
    let tenths = left.to_be_bytes();
    [status, mask, tenths[0], tenths[1]]
}

// Writes a notice that a ring has stopped.
pub fn stop_notice(
    identity: [u8; IDENTITY_KEY_SIZE],
    nonce: [u8; NONCE_SIZE],
    status: u8,
    answer: &mut [u8],
) -> usize
    requires { answer_room ≤ length answer.old }
    ensures { Wrote (ring_notice identity nonce status 0 0) result answer.old answer.new }
{
    let ring_key = signing::derived_key(signing::RING, identity);
    let key = primitives::ready_key(&ring_key);
    let data = notice_data(status, 0, 0);
    sign(key, nonce, RING_ID, &data, answer)
}
