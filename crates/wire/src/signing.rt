// Keys made from the identity key, key proofs, and the tags of requests and answers.
ghost use Rattle.std.specs.Prelude.{◌≡◌, List, ◌++◌, ◌∷◌, [], ℕ, ◌≤◌, length};
ghost use Rattle.sizes.specs.Sizes.{most_length, most_data};
ghost use Rattle.primitives.specs.Standards.{keyed_by};
ghost use Rattle.wire.specs.Signing.{version, first_bytes, derived_key, key_proof, request_tag, answer_tag};

use primitives::Keyed;
use sizes::{DIGEST_SIZE, IDENTITY_KEY_SIZE, NONCE_SIZE, TAG_SIZE};

// The bytes that the recovery, ring and protection keys are made with.
// Kept: what may not change: `derived_key` promises a key of every byte, which an enum would narrow; these are bytes that are hashed.
pub const RECOVERY: u8 = 1;

pub const RING: u8 = 2;

pub const PROTECTION: u8 = 3;

// The protocol's major version.
pub const VERSION: u8 = 0x01;

const ID_AT: usize = 1 + NONCE_SIZE;

const COVERED_SIZE: usize = ID_AT + 2;

// Of a whole digest the first bytes count.
fn first_bytes(d: [u8; DIGEST_SIZE]) -> [u8; TAG_SIZE]
    ensures { result ≡ first_bytes d }
{
    octets::array(&d[..TAG_SIZE])
}

// The recovery, ring or protection key.
pub fn derived_key(n: u8, identity: [u8; IDENTITY_KEY_SIZE]) -> [u8; TAG_SIZE]
    ensures { result ≡ derived_key n identity }
{
    let last = [n];
    let d = primitives::hash_pair(&identity, &last);
    first_bytes(d)
}

// What proves the identity key that is held.
pub fn key_proof(identity: [u8; IDENTITY_KEY_SIZE], nonce: [u8; NONCE_SIZE]) -> [u8; TAG_SIZE]
    ensures { result ≡ key_proof identity nonce }
{
    let d = primitives::hash_pair(&identity, &nonce);
    first_bytes(d)
}

// What a tag covers before the data: version, nonce, ID and length.
fn covered(nonce: [u8; NONCE_SIZE], id: u8, size: u8) -> [u8; COVERED_SIZE]
    ensures { result ≡ (version ∷ nonce) ++ (id ∷ (size ∷ [])) }
{
    let mut head = [VERSION; COVERED_SIZE];
    let last = [id, size];
    octets::put(&mut head, 1, &nonce);
    octets::put(&mut head, ID_AT, &last);
    head
}

// The tag of a request, under a key that was made ready.
pub fn request_tag(
    key: Keyed,
    nonce: [u8; NONCE_SIZE],
    id: u8,
    size: u8,
    additional: &[u8],
) -> [u8; TAG_SIZE]
    requires { length additional.now ≤ most_length }
    ensures { (k : List ℕ) → key ≡ keyed_by k → result ≡ request_tag k nonce id size additional.now }
{
    let head = covered(nonce, id, size);
    let d = primitives::mac_under(key, &head, additional, b"");
    first_bytes(d)
}

// The tag of an answer, under a key that was made ready.
pub fn answer_tag(key: Keyed, nonce: [u8; NONCE_SIZE], id: u8, data: &[u8]) -> [u8; TAG_SIZE]
    requires { length «data».now ≤ most_data }
    ensures { (k : List ℕ) → key ≡ keyed_by k → result ≡ answer_tag k nonce id «data».now }
{
    let size = TAG_SIZE + data.len();
    let head = covered(nonce, id, size as u8);
    let last = [0x01];
    let d = primitives::mac_under(key, &head, data, &last);
    first_bytes(d)
}
