// The steps of an inverse round but for AddRoundKey and InvMixColumns, FIPS 197, §5.3.
ghost use Rattle.std.specs.Prelude.{◌≡◌};
ghost use Rattle.steps.specs.Steps.{InvSubBytes, InvShiftRows};
ghost use Rattle.substitution.specs.Box.{InvSBox, TableOf};

use substitution::look_up;

// The inverse box is lent, as a table.
pub fn inv_sub_bytes(table: &[u8; 256], s: [u8; 16]) -> [u8; 16]
    requires { TableOf InvSBox table.now }
    ensures { result ≡ InvSubBytes s }
{
    look_up(table, s)
}

pub fn inv_shift_rows(s: [u8; 16]) -> [u8; 16]
    ensures { result ≡ InvShiftRows s }
{
    [
        s[0], s[13], s[10], s[7], s[4], s[1], s[14], s[11], s[8], s[5], s[2], s[15], s[12], s[9],
        s[6], s[3],
    ]
}
