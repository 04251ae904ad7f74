// The steps of a round, FIPS 197, §5.1: each takes the state by value and gives the next one.
ghost use Rattle.std.specs.Prelude.{◌≡◌, ◌+◌, ◌*◌, ◌≤◌, length};
ghost use Rattle.steps.specs.Steps.{SubBytes, ShiftRows, AddRoundKey};
ghost use Rattle.substitution.specs.Box.{SBox, TableOf};
ghost use Rattle.words.specs.Words.{bytes_of};

use substitution::look_up;
use words::{state_of, word_of};

// The box is lent, as a table.
pub fn sub_bytes(table: &[u8; 256], s: [u8; 16]) -> [u8; 16]
    requires { TableOf SBox table.now }
    ensures { result ≡ SubBytes s }
{
    look_up(table, s)
}

pub fn shift_rows(s: [u8; 16]) -> [u8; 16]
    ensures { result ≡ ShiftRows s }
{
    [
        s[0], s[5], s[10], s[15], s[4], s[9], s[14], s[3], s[8], s[13], s[2], s[7], s[12], s[1],
        s[6], s[11],
    ]
}

// The key schedule is lent in words.
pub fn add_round_key(keys: &[u32], round: usize, s: [u8; 16]) -> [u8; 16]
    requires { 4 * round + 4 ≤ length keys.now }
    ensures { result ≡ AddRoundKey (bytes_of keys.now) round s }
{
    let at = 4 * round;
    state_of(
        word_of(s[0], s[1], s[2], s[3]) ^ keys[at],
        word_of(s[4], s[5], s[6], s[7]) ^ keys[at + 1],
        word_of(s[8], s[9], s[10], s[11]) ^ keys[at + 2],
        word_of(s[12], s[13], s[14], s[15]) ^ keys[at + 3],
    )
}
