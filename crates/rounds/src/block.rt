// The cipher and the inverse cipher of FIPS 197, §5.1 and §5.3, over Nr: one block under a key schedule in words. Full rounds go by a table of
// columns, the last one by a box; one of the two is off the stack when the other is set up.
// Kept: the schedule and Nr are two parameters with their bound: the schedule is lent as a slice of two lengths, and a type over it would be
// made for each block.
ghost use Rattle.std.specs.Prelude.{◌≡◌, List, ℕ, ◌+◌, ◌-◌, ◌*◌, ◌≤◌, length};
ghost use Rattle.words.specs.Words.{bytes_of};
ghost use Rattle.inverse_keys.specs.Keys.{InverseKeys};
ghost use Rattle.steps.specs.Steps.{SubBytes, ShiftRows, InvSubBytes, InvShiftRows, AddRoundKey};
ghost use Rattle.rounds.specs.Rounds.{rounds, Cipher, inv_rounds, InvCipher};

use column_tables::{mixed_table, unmixed_table};
use full_rounds::{full_round, inv_full_round};
use steps::forward::{add_round_key, shift_rows, sub_bytes};
use steps::inverse::{inv_shift_rows, inv_sub_bytes};
use substitution::{inv_sub_table, sub_table};

// All rounds but the last. Kept: a round's state goes by `next`, since the proof of a call's result put straight into an array doesn't close.
fn full_rounds(keys: &[u32], nr: usize, block: [u8; 16]) -> [u8; 16]
    requires { (1 ≤ nr) × ((nr ≤ 14) × (length keys.now ≡ 4 * (nr + 1))) }
    ensures { result ≡ rounds (bytes_of keys.now) (nr - 1) block }
{
    let columns = mixed_table();
    let mut s = add_round_key(keys, 0, block);
    for round in 1..nr {
        let next = full_round(&columns, keys, round, s);
        s = next;
    }
    s
}

// The last round, which mixes no columns.
fn last_round(keys: &[u32], nr: usize, s: [u8; 16]) -> [u8; 16]
    requires { 4 * nr + 4 ≤ length keys.now }
    ensures { result ≡ AddRoundKey (bytes_of keys.now) nr (ShiftRows (SubBytes s)) }
{
    let table = sub_table();
    add_round_key(keys, nr, shift_rows(sub_bytes(&table, s)))
}

// The block encrypted under the key schedule.
pub fn cipher(keys: &[u32], nr: usize, block: [u8; 16]) -> [u8; 16]
    requires { (1 ≤ nr) × ((nr ≤ 14) × (length keys.now ≡ 4 * (nr + 1))) }
    ensures { result ≡ Cipher nr (bytes_of keys.now) block }
{
    last_round(keys, nr, full_rounds(keys, nr, block))
}

// All inverse rounds but the last, under round keys of the equivalent inverse cipher for a key schedule w.
fn inv_full_rounds(keys: &[u32], nr: usize, block: [u8; 16]) -> [u8; 16]
    requires { (1 ≤ nr) × ((nr ≤ 14) × (length keys.now ≡ 4 * (nr + 1))) }
    ensures { (w : List ℕ) → InverseKeys nr w keys.now → inv_rounds (bytes_of w) 0 result ≡ InvCipher nr (bytes_of w) block }
{
    let columns = unmixed_table();
    let mut s = add_round_key(keys, nr, block);
    for round in (1..nr).rev() {
        let next = inv_full_round(&columns, keys, round, s);
        s = next;
    }
    s
}

// The last inverse round, which mixes no columns.
fn inv_last_round(keys: &[u32], s: [u8; 16]) -> [u8; 16]
    requires { 4 ≤ length keys.now }
    ensures { result ≡ AddRoundKey (bytes_of keys.now) 0 (InvSubBytes (InvShiftRows s)) }
{
    let table = inv_sub_table();
    add_round_key(keys, 0, inv_sub_bytes(&table, inv_shift_rows(s)))
}

// The block decrypted under a key schedule w, of which the round keys of the equivalent inverse cipher (§5.3.5) are lent.
pub fn inv_cipher(keys: &[u32], nr: usize, block: [u8; 16]) -> [u8; 16]
    requires { (1 ≤ nr) × ((nr ≤ 14) × (length keys.now ≡ 4 * (nr + 1))) }
    ensures { (w : List ℕ) → InverseKeys nr w keys.now → result ≡ InvCipher nr (bytes_of w) block }
{
    inv_last_round(keys, inv_full_rounds(keys, nr, block))
}
