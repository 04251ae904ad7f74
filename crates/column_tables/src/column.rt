// A column of the state from the table's entries for its four bytes.
ghost use Rattle.std.specs.Prelude.{◌≡◌, [], ◌∷◌};
ghost use Rattle.std.specs.Int.Bits.{bit_xor};
ghost use Rattle.laws.specs.Bytes.{number};
ghost use Rattle.substitution.specs.Box.{SBox, InvSBox, TableOf};
ghost use Rattle.columns.specs.Columns.{mixed_word};
ghost use Rattle.columns.specs.Turned.{turned};
ghost use Rattle.column_tables.specs.Tables.{first_mixed};

// Kept as in `columns`: turned by two shifts. Four columns added, each turned one byte further than the one before it.
fn added(a: u32, b: u32, c: u32, d: u32) -> u32
    ensures { result ≡ bit_xor (bit_xor (bit_xor a (turned 24 b)) (turned 16 c)) (turned 8 d) }
{
    a ^ (b << 24 ^ b >> 8) ^ (c << 16 ^ c >> 16) ^ (d << 8 ^ d >> 24)
}

// The column of the substitutes of four bytes, mixed.
pub fn mixed_column(table: &[u32; 256], a: u8, b: u8, c: u8, d: u8) -> u32
    requires { TableOf (λ x. first_mixed 0x02 0x01 0x01 0x03 (SBox x)) table.now }
    ensures { result ≡ mixed_word 0x02 0x01 0x01 0x03 (number (SBox a ∷ SBox b ∷ SBox c ∷ SBox d ∷ [])) }
{
    added(
        table[a as usize],
        table[b as usize],
        table[c as usize],
        table[d as usize],
    )
}

// The column of the inverse substitutes of four bytes, mixed back. Kept: beside the one above, since one function for both would have the box and the
// coefficients as ghost parameters, which is no plainer.
pub fn unmixed_column(table: &[u32; 256], a: u8, b: u8, c: u8, d: u8) -> u32
    requires { TableOf (λ x. first_mixed 0x0e 0x09 0x0d 0x0b (InvSBox x)) table.now }
    ensures { result ≡ mixed_word 0x0e 0x09 0x0d 0x0b (number (InvSBox a ∷ InvSBox b ∷ InvSBox c ∷ InvSBox d ∷ [])) }
{
    added(
        table[a as usize],
        table[b as usize],
        table[c as usize],
        table[d as usize],
    )
}
