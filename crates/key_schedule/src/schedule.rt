// The key expansion of FIPS 197, §5.2, in words, for keys of 4 or 8 words: four words at a time, of which the first alone asks for the box.
ghost use Rattle.std.specs.Prelude.{◌≡◌, List, [], ◌∷◌, ◌++◌, ℕ, ◌+◌, ◌-◌, ◌*◌, ◌/◌, ◌%◌, ◌≤◌, ◌<◌, length, take, drop};
ghost use Rattle.laws.specs.Bytes.{big_endian, number};
ghost use Rattle.words.specs.Words.{bytes_of};
ghost use Rattle.substitution.specs.Field.{xtimes};
ghost use Rattle.substitution.specs.Box.{SBox, TableOf};
ghost use Rattle.key_schedule.specs.Expansion.{expanded, temp, word};
ghost use Rattle.key_schedule.specs.Fours.{Fours};

use substitution::{sub_table, times_two};
use words::{bytes_of, word_of};

// Four words stored from a place of the schedule on. Kept: four stores, since copying them as a slice takes 4 instructions more a turn, 7 % of
// the key expansion.
fn put_four(w: &mut [u32], at: usize, a: [u32; 4])
    requires { at + 4 ≤ length w.old }
    ensures { w.new ≡ take at w.old ++ a ++ drop (at + 4) w.old }
{
    w[at] = a[0];
    w[at + 1] = a[1];
    w[at + 2] = a[2];
    w[at + 3] = a[3];
}

// The word of four bytes, each looked up in the box.
fn sub_word(table: &[u8; 256], a: u8, b: u8, c: u8, d: u8) -> u32
    requires { TableOf SBox table.now }
    ensures { result ≡ number (SBox a ∷ SBox b ∷ SBox c ∷ SBox d ∷ []) }
{
    word_of(
        table[a as usize],
        table[b as usize],
        table[c as usize],
        table[d as usize],
    )
}

// What is added to word n to make word Nk + n, the first of four, from the word before it. The caller counts n in turns of Nk: phase is n modulo
// Nk, and the constant is the first byte of Rcon for the turn.
fn added(table: &[u8; 256], phase: usize, constant: u8, previous: u32) -> u32
    requires { TableOf SBox table.now }
    ensures { (Nk n : ℕ) (w : List ℕ) → Fours Nk n → word w (n + Nk - 1) ≡ big_endian 4 previous → phase ≡ n % Nk → constant ≡ xtimes (n / Nk) 1 → big_endian 4 result ≡ temp Nk w (n + Nk) }
{
    let p = bytes_of(previous);
    if phase == 0 {
        let s = sub_word(table, p[1], p[2], p[3], p[0]);
        return s ^ word_of(constant, 0, 0, 0);
    }
    sub_word(table, p[0], p[1], p[2], p[3])
}

// The phase of the next four words. Kept: counted on, not n modulo Nk, since a small processor divides by steps.
fn next_phase(nk: usize, phase: usize) -> usize
    requires { phase ≤ 8 }
    ensures { (n : ℕ) → Fours nk n → phase ≡ n % nk → result ≡ (n + 4) % nk }
{
    if phase + 4 < nk { phase + 4 } else { 0 }
}

// The constant of the next four words' turn.
fn next_constant(nk: usize, phase: usize, constant: u8) -> u8
    requires { phase ≤ 8 }
    ensures { (n : ℕ) → Fours nk n → phase ≡ n % nk → constant ≡ xtimes (n / nk) 1 → result ≡ xtimes ((n + 4) / nk) 1 }
{
    if phase + 4 < nk {
        constant
    } else {
        times_two(constant)
    }
}

// The key as the schedule's first Nk words.
fn put_key(nk: usize, key: &[u8], w: &mut [u32])
    requires { (nk ≤ 8) × ((length key.now ≡ 4 * nk) × (nk ≤ length w.old)) }
    ensures { bytes_of (take nk w.new) ≡ key.now }
{
    for k in 0..nk {
        w[k] = word_of(key[4 * k], key[4 * k + 1], key[4 * k + 2], key[4 * k + 3]);
    }
}

// The key's Nk words, and then `more` words, four after four, into lent words.
fn put_schedule(table: &[u8; 256], nk: usize, more: usize, key: &[u8], w: &mut [u32])
    requires table_of { TableOf SBox table.now }
    requires fours { (Fours nk more) × (more ≤ 60) }
    requires key_len { (length key.now ≡ 4 * nk) × (length w.old ≡ nk + more) }
    ensures { bytes_of w.new ≡ expanded nk more key.now }
{
    put_key(nk, key, w);
    let mut phase: usize = 0;
    let mut constant: u8 = 1;
    let mut previous = w[nk - 1];
    for turn in 0..more / 4 {
        let n = 4 * turn;
        let a = w[n] ^ added(table, phase, constant, previous);
        let b = w[n + 1] ^ a;
        let c = w[n + 2] ^ b;
        let d = w[n + 3] ^ c;
        put_four(w, nk + n, [a, b, c, d]);
        previous = d;
        constant = next_constant(nk, phase, constant);
        phase = next_phase(nk, phase);
    }
}

// The key schedule into lent words: Nk of the key, and `more`. The box is off the stack when it returns.
pub fn expand(nk: usize, more: usize, key: &[u8], w: &mut [u32])
    requires fours { (Fours nk more) × (more ≤ 60) }
    requires key_len { (length key.now ≡ 4 * nk) × (length w.old ≡ nk + more) }
    ensures { bytes_of w.new ≡ expanded nk more key.now }
{
    let table = sub_table();
    put_schedule(&table, nk, more, key, w);
}
