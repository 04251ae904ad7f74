// A unit with one thing changed, and the one form of each absent thing.
ghost use Rattle.std.specs.Prelude.{◌≡◌};
ghost use Rattle.unit.specs.Change.{fresh as fresh_unit, no_unit, no_identity, with_owner, with_protection, with_sound, silenced as silenced_unit, spent as spent_unit};

use crate::{Accounts, Clock, Identity, Protection, Settings, Sound, TagUnit};
use sizes::{IDENTITY_KEY_SIZE, KEYS_ROOM, NONCE_SIZE};

// No battery level: what makes the record of no unit one that is not well formed.
const NO_LEVEL: u8 = 255;

// A unit fresh from the maker, with its settings.
pub fn fresh(settings: Settings) -> TagUnit
    ensures { result ≡ fresh_unit settings }
{
    TagUnit {
        settings,
        clock: Clock {
            seconds: 0,
            tenth: 0,
        },
        nonces: nonces::none(),
        accounts: Accounts {
            count: 0,
            owner: None,
            keys: [0; KEYS_ROOM],
        },
        identity: no_identity(),
        waiting: no_identity(),
        sound: Sound::Silent,
        ring_nonce: [0; NONCE_SIZE],
        protection: Protection::Off,
        consent: 0,
        pairing: false,
        battery: 0,
    }
}

// No identity key: zeros in its room.
pub fn no_identity() -> Identity
    ensures { result ≡ no_identity }
{
    Identity {
        held: false,
        bytes: [0; IDENTITY_KEY_SIZE],
    }
}

// The record of no unit, which is not well formed.
pub fn no_unit() -> TagUnit
    ensures { result ≡ no_unit }
{
    let settings = Settings {
        power: 0,
        components: 0,
        selectable: 0,
    };
    TagUnit {
        battery: NO_LEVEL,
        ..fresh(settings)
    }
}

// The accounts with an owner.
pub fn with_owner(a: Accounts, owner: Option<usize>) -> Accounts
    ensures { result ≡ with_owner owner a }
{
    Accounts { owner, ..a }
}

// The unit with a sound, and the nonce of the accepted ring beside it.
pub fn with_sound(u: TagUnit, sound: Sound, ring_nonce: [u8; NONCE_SIZE]) -> TagUnit
    ensures { result ≡ with_sound sound ring_nonce u }
{
    TagUnit {
        sound,
        ring_nonce,
        ..u
    }
}

// The unit silent: no sound, and zeros where the ring's nonce was.
pub fn silenced(u: TagUnit) -> TagUnit
    ensures { result ≡ silenced_unit u }
{
    with_sound(u, Sound::Silent, [0; NONCE_SIZE])
}

// The unit with protection on or off.
pub fn with_protection(u: TagUnit, protection: Protection) -> TagUnit
    ensures { result ≡ with_protection protection u }
{
    TagUnit { protection, ..u }
}

// The unit with its newest nonce spent: it stays, and authenticates no further write.
pub fn spent(u: TagUnit) -> TagUnit
    ensures { result ≡ spent_unit u }
{
    TagUnit {
        nonces: nonces::spent(u.nonces),
        ..u
    }
}
