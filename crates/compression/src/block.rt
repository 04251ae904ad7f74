// The hash computation of FIPS 180-4, §6.2.2, on one block.
ghost use Rattle.std.specs.Prelude.{◌≡◌, ℕ, ◌+◌, ◌*◌, ◌<◌, ◌≤◌, length, slice_index};
ghost use Rattle.compression.specs.Constants as constants;
ghost use Rattle.compression.specs.Compression as sha;
ghost use Rattle.compression.specs.Turns.{Taken};

use super::Working;
use message_schedule::schedule::next_word;
use message_schedule::word::{big_sigma0, big_sigma1, ch, maj};

// The constants of §4.2.2.
const K: [u32; 64] = [
    0x428a2f98, 0x71374491, 0xb5c0fbcf, 0xe9b5dba5, 0x3956c25b, 0x59f111f1, 0x923f82a4, 0xab1c5ed5,
    0xd807aa98, 0x12835b01, 0x243185be, 0x550c7dc3, 0x72be5d74, 0x80deb1fe, 0x9bdc06a7, 0xc19bf174,
    0xe49b69c1, 0xefbe4786, 0x0fc19dc6, 0x240ca1cc, 0x2de92c6f, 0x4a7484aa, 0x5cb0a9dc, 0x76f988da,
    0x983e5152, 0xa831c66d, 0xb00327c8, 0xbf597fc7, 0xc6e00bf3, 0xd5a79147, 0x06ca6351, 0x14292967,
    0x27b70a85, 0x2e1b2138, 0x4d2c6dfc, 0x53380d13, 0x650a7354, 0x766a0abb, 0x81c2c92e, 0x92722c85,
    0xa2bfe8a1, 0xa81a664b, 0xc24b8b70, 0xc76c51a3, 0xd192e819, 0xd6990624, 0xf40e3585, 0x106aa070,
    0x19a4c116, 0x1e376c08, 0x2748774c, 0x34b0bcb5, 0x391c0cb3, 0x4ed8aa4a, 0x5b9cca4f, 0x682e6ff3,
    0x748f82ee, 0x78a5636f, 0x84c87814, 0x8cc70208, 0x90befffa, 0xa4506ceb, 0xbef9a3f7, 0xc67178f2,
];

// One turn of step 3.
fn turn(k: u32, w: u32, v: Working) -> Working
    ensures { result ≡ sha.turn k w v }
{
    let t1 = v
        .h
        .wrapping_add(big_sigma1(v.e))
        .wrapping_add(ch(v.e, v.f, v.g))
        .wrapping_add(k)
        .wrapping_add(w);
    let t2 = big_sigma0(v.a).wrapping_add(maj(v.a, v.b, v.c));
    Working {
        a: t1.wrapping_add(t2),
        b: v.a,
        c: v.b,
        d: v.c,
        e: v.d.wrapping_add(t1),
        f: v.e,
        g: v.f,
        h: v.g,
    }
}

// Step 4.
fn added(v: Working, state: Working) -> Working
    ensures { result ≡ sha.added v state }
{
    Working {
        a: v.a.wrapping_add(state.a),
        b: v.b.wrapping_add(state.b),
        c: v.c.wrapping_add(state.c),
        d: v.d.wrapping_add(state.d),
        e: v.e.wrapping_add(state.e),
        f: v.f.wrapping_add(state.f),
        g: v.g.wrapping_add(state.g),
        h: v.h.wrapping_add(state.h),
    }
}

// Turn `place` of the first sixteen, with its constant and the word of the block.
fn first_turn(k: u32, w: &[u32; 16], place: usize, v: Working) -> Working
    requires { place < 16 }
    ensures { k ≡ slice_index constants.K place → Taken 1 place w.now w.now v result }
{
    turn(k, w[place], v)
}

// Turn 16 p + place of a later pass p, with its constant. It makes its word of the schedule, in place.
fn later_turn(k: u32, w: &mut [u32; 16], place: usize, v: Working) -> Working
    requires { place < 16 }
    ensures { (p : ℕ) → 1 ≤ p → p < 4 → k ≡ slice_index constants.K (16 * p + place) → Taken 1 (16 * p + place) w.old w.new v result }
{
    let word = next_word(w, place);
    turn(k, word, v)
}

// The first sixteen turns. They stand in a straight line, so that no variable changes its place, each with its constant.
fn first_turns(w: &[u32; 16], v0: Working) -> Working
    ensures { Taken 16 0 w.now w.now v0 result }
{
    let v1 = first_turn(K[0], w, 0, v0);
    let v2 = first_turn(K[1], w, 1, v1);
    let v3 = first_turn(K[2], w, 2, v2);
    let v4 = first_turn(K[3], w, 3, v3);
    let v5 = first_turn(K[4], w, 4, v4);
    let v6 = first_turn(K[5], w, 5, v5);
    let v7 = first_turn(K[6], w, 6, v6);
    let v8 = first_turn(K[7], w, 7, v7);
    let v9 = first_turn(K[8], w, 8, v8);
    let v10 = first_turn(K[9], w, 9, v9);
    let v11 = first_turn(K[10], w, 10, v10);
    let v12 = first_turn(K[11], w, 11, v11);
    let v13 = first_turn(K[12], w, 12, v12);
    let v14 = first_turn(K[13], w, 13, v13);
    let v15 = first_turn(K[14], w, 14, v14);
    first_turn(K[15], w, 15, v15)
}

// The sixteen turns of a later pass P, in a straight line too.
fn later_turns<const P: usize>(w: &mut [u32; 16], v0: Working) -> Working
    requires { (1 ≤ P) × (P < 4) }
    ensures { Taken 16 (16 * P) w.old w.new v0 result }
{
    let v1 = later_turn(K[16 * P], w, 0, v0);
    let v2 = later_turn(K[16 * P + 1], w, 1, v1);
    let v3 = later_turn(K[16 * P + 2], w, 2, v2);
    let v4 = later_turn(K[16 * P + 3], w, 3, v3);
    let v5 = later_turn(K[16 * P + 4], w, 4, v4);
    let v6 = later_turn(K[16 * P + 5], w, 5, v5);
    let v7 = later_turn(K[16 * P + 6], w, 6, v6);
    let v8 = later_turn(K[16 * P + 7], w, 7, v7);
    let v9 = later_turn(K[16 * P + 8], w, 8, v8);
    let v10 = later_turn(K[16 * P + 9], w, 9, v9);
    let v11 = later_turn(K[16 * P + 10], w, 10, v10);
    let v12 = later_turn(K[16 * P + 11], w, 11, v11);
    let v13 = later_turn(K[16 * P + 12], w, 12, v12);
    let v14 = later_turn(K[16 * P + 13], w, 13, v13);
    let v15 = later_turn(K[16 * P + 14], w, 14, v14);
    later_turn(K[16 * P + 15], w, 15, v15)
}

// The hash value after one more block, whose words the buffer holds at entry. These sixteen words are all of the schedule that is kept: they
// change in place.
pub fn compress(state: Working, w: &mut [u32; 16]) -> Working
    requires { length w.old ≡ 16 }
    ensures { (result ≡ sha.compress state w.old) × (length w.new ≡ 16) }
{
    let v16 = first_turns(w, state);
    let v32 = later_turns::<1>(w, v16);
    let v48 = later_turns::<2>(w, v32);
    let v64 = later_turns::<3>(w, v48);
    added(v64, state)
}
