#![tactic(auto)]
// The unit as a record of bytes, which a host keeps in its own memory and saves to flash: a version byte, then the unit's fields part by
// part. The constants say where each part stands, each right behind the one before it.
ghost use Rattle.std.specs.Prelude.{◌≡◌, ◌≤◌, length};
ghost use Rattle.record_fields.specs.Kinds.{byte_size};
ghost use Rattle.record_fields.specs.Part.{value_of};
ghost use Rattle.stored.specs.Record.{unit_fields, record_size, encoded, decoded};

use record_fields::kinds::{BYTE_SIZE, TENTHS_SIZE};
use record_fields::{kinds, plain};
use record_keys::{accounts, identity, issued_nonces};
use record_parts::{clock, protection, settings, sound};
use sizes::NONCE_SIZE;
use unit::{TagUnit, change};

// Raised by every change of the layout; never 0x00 or 0xFF, so that zeroed and erased memory are no record.
pub const VERSION: u8 = 0x05;

const VERSION_AT: usize = 0;

const SETTINGS_AT: usize = VERSION_AT + BYTE_SIZE;

const CLOCK_AT: usize = SETTINGS_AT + settings::SIZE;

const NONCES_AT: usize = CLOCK_AT + clock::SIZE;

const ACCOUNTS_AT: usize = NONCES_AT + issued_nonces::SIZE;

const IDENTITY_AT: usize = ACCOUNTS_AT + accounts::SIZE;

const WAITING_AT: usize = IDENTITY_AT + identity::SIZE;

const SOUND_AT: usize = WAITING_AT + identity::SIZE;

const RING_NONCE_AT: usize = SOUND_AT + sound::SIZE;

const PROTECTION_AT: usize = RING_NONCE_AT + NONCE_SIZE;

const CONSENT_AT: usize = PROTECTION_AT + protection::SIZE;

const PAIRING_AT: usize = CONSENT_AT + TENTHS_SIZE;

const BATTERY_AT: usize = PAIRING_AT + BYTE_SIZE;

// The bytes of a record.
pub const RECORD_SIZE: usize = BATTERY_AT + BYTE_SIZE;

// Writes the record of a unit.
pub fn encode(bytes: &mut [u8], u: TagUnit)
    requires { length bytes.old ≡ record_size }
    ensures { bytes.new ≡ encoded u }
{
    kinds::put_byte(bytes, VERSION_AT, VERSION);
    settings::put(bytes, SETTINGS_AT, u.settings);
    clock::put(bytes, CLOCK_AT, u.clock);
    issued_nonces::put(bytes, NONCES_AT, u.nonces);
    accounts::put(bytes, ACCOUNTS_AT, u.accounts);
    identity::put(bytes, IDENTITY_AT, u.identity);
    identity::put(bytes, WAITING_AT, u.waiting);
    sound::put(bytes, SOUND_AT, u.sound);
    plain::put_bytes(bytes, RING_NONCE_AT, u.ring_nonce);
    protection::put(bytes, PROTECTION_AT, u.protection);
    kinds::put_tenths(bytes, CONSENT_AT, u.consent);
    kinds::put_flag(bytes, PAIRING_AT, u.pairing);
    kinds::put_byte(bytes, BATTERY_AT, u.battery);
}

// The unit whose fields stand in these bytes, each at its place.
fn fields(bytes: &[u8]) -> TagUnit
    requires { record_size ≤ length bytes.now }
    ensures { result ≡ value_of unit_fields bytes.now byte_size }
{
    TagUnit {
        settings: settings::read(bytes, SETTINGS_AT),
        clock: clock::read(bytes, CLOCK_AT),
        nonces: issued_nonces::read(bytes, NONCES_AT),
        accounts: accounts::read(bytes, ACCOUNTS_AT),
        identity: identity::read(bytes, IDENTITY_AT),
        waiting: identity::read(bytes, WAITING_AT),
        sound: sound::read(bytes, SOUND_AT),
        ring_nonce: plain::bytes(bytes, RING_NONCE_AT),
        protection: protection::read(bytes, PROTECTION_AT),
        consent: kinds::tenths(bytes, CONSENT_AT),
        pairing: kinds::flag(bytes, PAIRING_AT),
        battery: bytes[BATTERY_AT],
    }
}

// The record of a unit, as an array.
fn record(u: TagUnit) -> [u8; RECORD_SIZE]
    ensures { result ≡ encoded u }
{
    let mut bytes = [0u8; RECORD_SIZE];
    encode(&mut bytes, u);
    bytes
}

// The unit whose record these bytes are; bytes that are nobody's record mean no unit.
pub fn decode(bytes: &[u8]) -> TagUnit
    ensures { result ≡ decoded bytes.now }
{
    if bytes.len() != RECORD_SIZE {
        return change::no_unit();
    }
    let u = fields(bytes);
    if octets::same(&record(u), bytes) {
        u
    } else {
        change::no_unit()
    }
}
