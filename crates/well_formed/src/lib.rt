#![tactic(auto)]
// Whether a record is well formed: one function for each line of the paper's "What a unit holds".
ghost use Rattle.std.specs.Prelude.{◌≡◌, not, ◌&&◌, ◌||◌, leb, eqb, ◌≤◌};
ghost use Rattle.sizes.specs.Sizes.{most_components, highest_volume, full_consent, highest_battery};
ghost use Rattle.unit.specs.WellFormed.{power_legal, settings_legal, accounts_legal, owner_legal, identity_legal, sound_legal, protection_legal, well_formed};

use sizes::{
    ACCOUNT_KEY_SIZE, FULL_CONSENT, HIGHEST_BATTERY, HIGHEST_VOLUME, LONGEST_RING, MOST_COMPONENTS,
    MOST_KEYS, NONCE_SIZE,
};
use unit::{Accounts, Identity, Protection, Settings, Sound, TagUnit, mask};

// Calibrated power from -100 to 20 dBm.
pub fn power_legal(power: i32) -> bool
    ensures { result ≡ power_legal power }
{
    -100 <= power && power <= 20
}

pub fn settings_legal(s: Settings) -> bool
    ensures { result ≡ settings_legal s }
{
    if !power_legal(s.power) {
        return false;
    }
    if MOST_COMPONENTS < s.components {
        return false;
    }
    s.selectable <= 1
}

fn accounts_legal(a: Accounts) -> bool
    ensures { result ≡ accounts_legal a }
{
    if MOST_KEYS < a.count {
        return false;
    }
    let keys = a.keys;
    tables::distinct(&keys, ACCOUNT_KEY_SIZE, a.count)
        && octets::all_zero(&keys[a.count * ACCOUNT_KEY_SIZE..])
}

fn owner_legal(a: Accounts) -> bool
    ensures { result ≡ owner_legal a }
{
    match a.owner {
        None => true,
        Some(place) => place < a.count,
    }
}

fn identity_legal(k: Identity, owner: Option<usize>) -> bool
    ensures { result ≡ identity_legal k owner }
{
    if k.held {
        owner.is_some()
    } else {
        octets::all_zero(&k.bytes)
    }
}

// The key in force and the one that waits.
fn identities_legal(identity: Identity, waiting: Identity, owner: Option<usize>) -> bool
    ensures { result ≡ (identity_legal identity owner && identity_legal waiting owner) }
{
    identity_legal(identity, owner) && identity_legal(waiting, owner)
}

// A volume of at most 3, and 0 where it is not selectable.
fn volume_legal(volume: u8, selectable: u8) -> bool
    ensures { result ≡ (leb volume highest_volume && (not (eqb selectable 0) || eqb volume 0)) }
{
    volume <= HIGHEST_VOLUME && (selectable != 0 || volume == 0)
}

fn sound_legal(sound: Sound, ring_nonce: [u8; NONCE_SIZE], s: Settings, keyed: bool) -> bool
    requires { s.components ≤ most_components }
    ensures { result ≡ sound_legal sound ring_nonce s keyed }
{
    match sound {
        Sound::Silent => octets::all_zero(&ring_nonce),
        Sound::Ringing { mask, volume, left } => {
            if !keyed {
                return false;
            }
            if mask == 0 {
                return false;
            }
            if !mask::inside(mask as u32, s.components) {
                return false;
            }
            if !volume_legal(volume, s.selectable) {
                return false;
            }
            0 < left && left <= LONGEST_RING
        }
    }
}

fn protection_legal(protection: Protection, keyed: bool) -> bool
    ensures { result ≡ protection_legal protection keyed }
{
    match protection {
        Protection::Off => true,
        Protection::On { .. } => keyed,
    }
}

// The clock's tenth, the consent left and the battery level, each at most its most.
fn numbers_legal(tenth: u8, consent: u16, battery: u8) -> bool
    ensures { result ≡ (leb tenth 9 && (leb consent full_consent && leb battery highest_battery)) }
{
    tenth <= 9 && consent <= FULL_CONSENT && battery <= HIGHEST_BATTERY
}

// Whether a record is well formed; any record at all is judged.
pub fn well_formed(u: TagUnit) -> bool
    ensures { result ≡ well_formed u }
{
    if !settings_legal(u.settings) {
        return false;
    }
    if !numbers_legal(u.clock.tenth, u.consent, u.battery) {
        return false;
    }
    if !accounts_legal(u.accounts) {
        return false;
    }
    if !owner_legal(u.accounts) {
        return false;
    }
    if !identities_legal(u.identity, u.waiting, u.accounts.owner) {
        return false;
    }
    if !nonces::legal(u.nonces) {
        return false;
    }
    let keyed = u.identity.held;
    if !sound_legal(u.sound, u.ring_nonce, u.settings, keyed) {
        return false;
    }
    protection_legal(u.protection, keyed)
}
