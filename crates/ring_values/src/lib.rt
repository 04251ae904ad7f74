#![tactic(auto)]
// The values of a ring: what is asked for, whether it is legal, and the bytes that tell what sounds. No unit and no key.
ghost use Rattle.std.specs.Prelude.{◌≡◌, ◌∷◌, ◌≤◌, length};
ghost use Rattle.sizes.specs.Sizes.{most_components};
ghost use Rattle.wire.specs.Signing.{failed};
ghost use Rattle.ring_values.specs.RingValues.{skips as is_skipped, all_of_none, asked_timeout, ring_mask, ring_legal, held_volume, sound_state, ring_data};

use sizes::{HIGHEST_VOLUME, LONGEST_RING};
use unit::{Protection, Settings, Sound, mask};

// The mask that means all components.
const WHOLE_MASK: u8 = 0xFF;

const STATE_SIZE: usize = 3;

// Whether a ring needs no tag: under protection with the skip flag.
pub fn skips(protection: Protection) -> bool
    ensures { result ≡ is_skipped protection }
{
    match protection {
        Protection::Off => false,
        Protection::On { skip } => skip,
    }
}

// The timeout that a ring asks for, in tenths.
pub fn asked_timeout(additional: &[u8]) -> u16
    requires { length additional.now ≡ ring_data }
    ensures { result ≡ asked_timeout additional.now }
{
    (additional[1] as u16) * 256 + (additional[2] as u16)
}

// The mask that a ring asks for: 0xFF means all components.
pub fn ring_mask(s: Settings, additional: &[u8]) -> u8
    requires { (length additional.now ≡ ring_data) × (s.components ≤ most_components) }
    ensures { result ≡ ring_mask s additional.now }
{
    let asked = additional[0];
    if asked == WHOLE_MASK {
        return mask::ringable_mask(s.components);
    }
    asked
}

// Whether all components are asked of a unit that has none, where the mask is the one that is asked for.
pub fn all_of_none(s: Settings, ring: u8, additional: &[u8]) -> bool
    requires { (length additional.now ≡ ring_data) × (ring ≡ ring_mask s additional.now) }
    ensures { result ≡ all_of_none s additional.now }
{
    additional[0] == WHOLE_MASK && ring == 0
}

// Whether the values of a ring with this mask are legal.
pub fn ring_legal(s: Settings, ring: u8, additional: &[u8]) -> bool
    requires { ((length additional.now ≡ ring_data) × (s.components ≤ most_components)) × (ring ≡ ring_mask s additional.now) }
    ensures { result ≡ ring_legal s additional.now }
{
    if !mask::inside(ring as u32, s.components) {
        return false;
    }
    if all_of_none(s, ring, additional) {
        return false;
    }
    if HIGHEST_VOLUME < additional[3] {
        return false;
    }
    if ring == 0 {
        return true;
    }
    let timeout = asked_timeout(additional);
    if timeout < 1 {
        return false;
    }
    timeout <= LONGEST_RING
}

// The volume that is held: 0 where it is not selectable.
pub fn held_volume(s: Settings, additional: &[u8]) -> u8
    requires { length additional.now ≡ ring_data }
    ensures { result ≡ held_volume s additional.now }
{
    if s.selectable == 0 {
        return 0;
    }
    additional[3]
}

// The data of a notice of failure: what sounds on.
pub fn fail_data(sound: Sound) -> [u8; answers::NOTICE_SIZE]
    ensures { result ≡ failed ∷ sound_state sound }
{
    match sound {
        Sound::Silent => answers::notice_data(answers::FAILED, 0, 0),
        Sound::Ringing { mask, left, .. } => answers::notice_data(answers::FAILED, mask, left),
    }
}

// What 0x06 gives: mask and tenths left, zeros when silent.
pub fn sound_state(sound: Sound) -> [u8; STATE_SIZE]
    ensures { result ≡ sound_state sound }
{
    match sound {
        Sound::Silent => [0; STATE_SIZE],
        Sound::Ringing { mask, left, .. } => {
            let tenths = left.to_be_bytes();
            [mask, tenths[0], tenths[1]]
        }
    }
}
