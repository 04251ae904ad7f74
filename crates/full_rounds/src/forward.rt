// A full round of the cipher. The state goes in by value, and the next one comes out.
ghost use Rattle.std.specs.Prelude.{◌≡◌, ◌+◌, ◌*◌, ◌≤◌, length};
ghost use Rattle.words.specs.Words.{bytes_of};
ghost use Rattle.substitution.specs.Box.{SBox, TableOf};
ghost use Rattle.column_tables.specs.Tables.{first_mixed};
ghost use Rattle.steps.specs.Steps.{SubBytes, ShiftRows, MixColumns, AddRoundKey};

use column_tables::mixed_column;
use words::state_of;

// A column of the next state is made from the bytes that ShiftRows brings into it.
pub fn full_round(table: &[u32; 256], keys: &[u32], round: usize, s: [u8; 16]) -> [u8; 16]
    requires table_of { TableOf (λ b. first_mixed 0x02 0x01 0x01 0x03 (SBox b)) table.now }
    requires round_in_bounds { 4 * round + 4 ≤ length keys.now }
    ensures { result ≡ AddRoundKey (bytes_of keys.now) round (MixColumns (ShiftRows (SubBytes s))) }
{
    let at = 4 * round;
    state_of(
        mixed_column(table, s[0], s[5], s[10], s[15]) ^ keys[at],
        mixed_column(table, s[4], s[9], s[14], s[3]) ^ keys[at + 1],
        mixed_column(table, s[8], s[13], s[2], s[7]) ^ keys[at + 2],
        mixed_column(table, s[12], s[1], s[6], s[11]) ^ keys[at + 3],
    )
}
