#![tactic(auto)]
// The requests 0x05 and 0x06: ring, stop, and read what rings.
ghost use Rattle.std.specs.Prelude.{◌≡◌, ◌||◌, ◌≤◌, length};
ghost use Rattle.sizes.specs.Sizes.{most_length};
ghost use Rattle.primitives.specs.Standards.{keyed_by};
ghost use Rattle.wire.specs.Shape.{request};
ghost use Rattle.wire.specs.Signing.{ring_key, ring_id};
ghost use Rattle.authentication.specs.Judgement.{tagged as is_tagged, last_nonce};
ghost use Rattle.authentication.specs.Promises.{Ready, Judges};
ghost use Rattle.ring_values.specs.RingValues.{skips as is_skipped, ring_data};
ghost use Rattle.ringing.specs.Ringing.{rung as rung_by, ring as ring_by, read_sound};

use authentication::{Verdict, identity};
use primitives::Keyed;
use ring_decisions::{Decision, ring_decision};
use ring_values::{
    asked_timeout, fail_data, held_volume, ring_legal, ring_mask, skips, sound_state,
};
use unit::{Refusal, Sound, TagUnit, change};
use wire::{Head, signing};

// Rings, stops, or fails and changes nothing; the answer is a notice, signed with the write's own nonce.
fn rung(
    u: TagUnit,
    key: Keyed,
    decision: Decision,
    volume: u8,
    left: u16,
) -> Result<Verdict, Refusal>
    requires { key ≡ keyed_by (ring_key u.identity.bytes) }
    ensures { Judges u ring_id (rung_by decision u volume left) result }
{
    match decision {
        Decision::Started(mask) => {
            let sound = Sound::Ringing { mask, volume, left };
            let started = answers::notice_data(answers::STARTED, mask, left);
            let after = change::with_sound(u, sound, u.nonces.newest);
            Ok(answering::granted(after, key, &started))
        }
        Decision::Stopped => {
            let stopped = answers::notice_data(answers::BY_REQUEST, 0, 0);
            Ok(answering::granted(change::silenced(u), key, &stopped))
        }
        Decision::Failed => {
            let failure = fail_data(u.sound);
            Ok(answering::granted(u, key, &failure))
        }
    }
}

// Whether a ring is let through: by the skip flag, or by its tag.
fn let_through(u: TagUnit, key: Keyed, h: Head, additional: &[u8]) -> bool
    requires { (key ≡ keyed_by (ring_key u.identity.bytes)) × (length additional.now ≤ most_length) }
    ensures { result ≡ (is_skipped u.protection || is_tagged (ring_key u.identity.bytes) (last_nonce u) (request h additional.now)) }
{
    skips(u.protection) || authentication::tagged(key, u.nonces.newest, h, additional)
}

// 0x05: rings, or stops the ring, where parts can be reached.
pub fn ring(u: TagUnit, h: Head, additional: &[u8], reach: u8) -> Result<Verdict, Refusal>
    requires { Ready u h.size additional.now × ((length additional.now ≡ ring_data) × (h.id ≡ ring_id)) }
    ensures { Judges u h.id (ring_by u (request h additional.now) reach) result }
{
    let key = identity::derived_key(u, signing::RING);
    if !let_through(u, key, h, additional) {
        return Err(Refusal::NotAuthenticated);
    }
    let ring = ring_mask(u.settings, additional);
    if !ring_legal(u.settings, ring, additional) {
        return Err(Refusal::InvalidValue);
    }
    let volume = held_volume(u.settings, additional);
    let left = asked_timeout(additional);
    let decision = ring_decision(u.sound, ring, reach);
    rung(u, key, decision, volume, left)
}

// 0x06: reads what rings.
pub fn read_sound(u: TagUnit, h: Head, additional: &[u8]) -> Result<Verdict, Refusal>
    requires { Ready u h.size additional.now }
    ensures { Judges u h.id (read_sound u (request h additional.now)) result }
{
    let key = identity::derived_key(u, signing::RING);
    if !authentication::tagged(key, u.nonces.newest, h, additional) {
        return Err(Refusal::NotAuthenticated);
    }
    let state = sound_state(u.sound);
    Ok(answering::granted(u, key, &state))
}
