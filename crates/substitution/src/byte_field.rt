// FIPS 197, §4.2.1: a byte times x.
ghost use Rattle.std.specs.Prelude.{◌≡◌};
ghost use Rattle.substitution.specs.Field.{◌•◌};

pub fn times_two(b: u8) -> u8
    ensures { result ≡ 0x02 • b }
{
    if b < 128 { b * 2 } else { (b - 128) * 2 ^ 0x1b }
}
