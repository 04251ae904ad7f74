// The message schedule of FIPS 180-4, §6.2.2, step 1, in one buffer of sixteen words.
ghost use Rattle.std.specs.Prelude.{◌≡◌, ℕ, ◌+◌, ◌*◌, ◌≤◌, ◌<◌};
ghost use Rattle.message_schedule.specs.Schedule.{mod32, σ0, σ1};
ghost use Rattle.message_schedule.specs.Window.{Made};

use super::word::{small_sigma0, small_sigma1};

// W_t from W_(t-2), W_(t-7), W_(t-15) and W_(t-16).
fn word_from(w2: u32, w7: u32, w15: u32, w16: u32) -> u32
    ensures { result ≡ mod32 (σ1 w2 + w7 + σ0 w15 + w16) }
{
    small_sigma1(w2)
        .wrapping_add(w7)
        .wrapping_add(small_sigma0(w15))
        .wrapping_add(w16)
}

// A word from word 16 on, made at its turn. It takes the place of the word sixteen before it, which is needed for it and for none after it:
// word 16 p + place of the schedule takes that of word 16 (p - 1) + place.
pub fn next_word(w: &mut [u32; 16], place: usize) -> u32
    requires { place < 16 }
    ensures { (p : ℕ) → 1 ≤ p → p < 4 → Made (16 * p + place) w.old w.new result }
{
    let next = word_from(
        w[(place + 14) % 16],
        w[(place + 9) % 16],
        w[(place + 1) % 16],
        w[place],
    );
    w[place] = next;
    next
}
