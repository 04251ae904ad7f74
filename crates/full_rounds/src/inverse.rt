// A full round of the equivalent inverse cipher (FIPS 197, §5.3.5): under round keys that are mixed back, it is the inverse cipher's own round.
ghost use Rattle.std.specs.Prelude.{◌≡◌, List, ℕ, ◌+◌, ◌*◌, ◌≤◌, ◌<◌, length};
ghost use Rattle.words.specs.Words.{bytes_of};
ghost use Rattle.substitution.specs.Box.{InvSBox, TableOf};
ghost use Rattle.column_tables.specs.Tables.{first_mixed};
ghost use Rattle.inverse_keys.specs.Keys.{InverseKeys};
ghost use Rattle.steps.specs.Steps.{InvSubBytes, InvShiftRows, InvMixColumns, AddRoundKey};

use column_tables::unmixed_column;
use words::state_of;

// A column of the next state is made from the bytes that InvShiftRows brings into it.
pub fn inv_full_round(table: &[u32; 256], keys: &[u32], round: usize, s: [u8; 16]) -> [u8; 16]
    requires table_of { TableOf (λ b. first_mixed 0x0e 0x09 0x0d 0x0b (InvSBox b)) table.now }
    requires round_in_bounds { 4 * round + 4 ≤ length keys.now }
    ensures { (Nr : ℕ) (w : List ℕ) → InverseKeys Nr w keys.now → 1 ≤ round → round < Nr → result ≡ InvMixColumns (AddRoundKey (bytes_of w) round (InvSubBytes (InvShiftRows s))) }
{
    let at = 4 * round;
    state_of(
        unmixed_column(table, s[0], s[13], s[10], s[7]) ^ keys[at],
        unmixed_column(table, s[4], s[1], s[14], s[11]) ^ keys[at + 1],
        unmixed_column(table, s[8], s[5], s[2], s[15]) ^ keys[at + 2],
        unmixed_column(table, s[12], s[9], s[6], s[3]) ^ keys[at + 3],
    )
}
