#![tactic(auto)]
// What a tag unit holds: the unit record of the paper's "What a unit holds", by value. Any values at all may stand in a record;
// the crate `well_formed` judges them.

use nonces::Nonces;
use sizes::{IDENTITY_KEY_SIZE, KEYS_ROOM, NONCE_SIZE};

pub mod change;
pub mod end;
pub mod mask;

// Calibrated power in dBm at 0 m, the number of components that can ring, and whether the volume is selectable (0 or 1).
// Kept: any byte may stand in a record as `selectable`, so it is no bool.
#[derive(Clone, Copy)]
pub struct Settings {
    pub power: i32,
    pub components: u8,
    pub selectable: u8,
}

// Seconds and a tenth of a second, 0 to 9.
#[derive(Clone, Copy)]
pub struct Clock {
    pub seconds: u32,
    pub tenth: u8,
}

// The account keys in order of use, the most recent first, a table of which the first `count` rows are held, and the owner's place among them.
// Kept: no heap, fixed memory: the record's room of ten keys with their count; a record may also hold bytes behind it, which are refused.
#[derive(Clone, Copy)]
pub struct Accounts {
    pub count: usize,
    pub owner: Option<usize>,
    pub keys: [u8; KEYS_ROOM],
}

// An identity key (ephemeral identity key), if there is one.
// Kept: any record may be handed in, also one with bytes where no key is held, which `well_formed` judges; an Option could not hold those bytes.
#[derive(Clone, Copy)]
pub struct Identity {
    pub held: bool,
    pub bytes: [u8; IDENTITY_KEY_SIZE],
}

// Silent, or ringing the components of a mask at a volume, with the tenths left.
// Kept: the paper's form of the sound, an enum with a ringing case that holds its numbers.
#[derive(Clone, Copy)]
pub enum Sound {
    Silent,
    Ringing { mask: u8, volume: u8, left: u16 },
}

// Unwanted tracking protection: off, or on with the flag that lets a ring skip authentication.
// Kept: no plainer as Option<bool>, which would hide what the flag says.
#[derive(Clone, Copy)]
pub enum Protection {
    Off,
    On { skip: bool },
}

#[derive(Clone, Copy)]
pub struct TagUnit {
    pub settings: Settings,
    pub clock: Clock,
    pub nonces: Nonces,
    pub accounts: Accounts,
    // The identity key in force.
    pub identity: Identity,
    // The identity key that waits for the connection to end.
    pub waiting: Identity,
    pub sound: Sound,
    // The nonce of the accepted ring, zero while silent.
    pub ring_nonce: [u8; NONCE_SIZE],
    pub protection: Protection,
    // Tenths of consent left after a press of the button.
    pub consent: u16,
    pub pairing: bool,
    // 0 unsupported, 1 normal, 2 low, 3 critical.
    pub battery: u8,
}

// The refusals of the paper's list; `refusal_number` in specs/Refusals gives each its number.
#[derive(Clone, Copy)]
pub enum Refusal {
    NotAuthenticated,
    InvalidValue,
    NoConsent,
    OutOfRange,
    NotWellFormed,
    WrongNonce,
    WrongAccountKey,
    NoFrame,
    NoRoom,
}

// The unit after a call, and the call's end: how many answer bytes it wrote, or its refusal. A refused write changes the unit too, so the unit
// stands beside the end.
#[derive(Clone, Copy)]
pub struct Step {
    pub unit: TagUnit,
    pub reply: Result<usize, Refusal>,
}
