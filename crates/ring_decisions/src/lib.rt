#![tactic(auto)]
// What a legal ring comes to on what sounds, with the parts that can be reached. No unit and no key.
ghost use Rattle.std.specs.Prelude.{◌≡◌};
ghost use Rattle.ring_decisions.specs.Decisions.{stop_decision, ring_decision};

use unit::Sound;

// What a legal 0x05 comes to: these parts ring, nothing sounds any more, or what sounds is left as it is.
#[derive(Clone, Copy)]
pub enum Decision {
    Started(u8),
    Stopped,
    Failed,
}

// A stop: fails where no part that sounds can be reached.
pub fn stop_decision(sound: Sound, reach: u8) -> Decision
    ensures { result ≡ stop_decision sound reach }
{
    match sound {
        Sound::Silent => Decision::Stopped,
        Sound::Ringing { mask, .. } => {
            if mask & reach == 0 {
                return Decision::Failed;
            }
            Decision::Stopped
        }
    }
}

// A ring, or with mask 0 a stop: parts out of reach are left out, and with none in reach it fails.
pub fn ring_decision(sound: Sound, ring: u8, reach: u8) -> Decision
    ensures { result ≡ ring_decision sound ring reach }
{
    if ring == 0 {
        return stop_decision(sound, reach);
    }
    let parts = ring & reach;
    if parts == 0 {
        return Decision::Failed;
    }
    Decision::Started(parts)
}
