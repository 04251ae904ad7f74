// A column of the state in a word, its first byte highest: its four bytes doubled at once, and mixed each way (FIPS 197, §5.1.3 and §5.3.3).
ghost use Rattle.std.specs.Prelude.{◌≡◌};
ghost use Rattle.substitution.specs.Field.{◌•◌};
ghost use Rattle.columns.specs.Columns.{each_byte, mixed_word};

// Kept: words are turned by two shifts, as the definition of a turn has it; std's rotation is an `or` of them, and would need a law beside it.

// Each byte times 02. The digit that leaves a byte comes back as 1b.
fn doubled(w: u32) -> u32
    ensures { result ≡ each_byte (λ b. 0x02 • b) w }
{
    let high = w >> 7 & 0x01010101;
    (w & 0x7f7f7f7f) << 1 ^ high ^ high << 1 ^ high << 3 ^ high << 4
}

// The column times 03 x^3 + x^2 + x + 02, as a word.
fn mixed(w: u32) -> u32
    ensures { result ≡ mixed_word 0x02 0x01 0x01 0x03 w }
{
    let twice = doubled(w);
    let thrice = twice ^ w;
    twice ^ (thrice << 8 ^ thrice >> 24) ^ (w << 16 ^ w >> 16) ^ (w << 24 ^ w >> 8)
}

// The column times 0b x^3 + 0d x^2 + 09 x + 0e: first times 04 x^2 + 05, and that mixed.
pub fn unmixed(w: u32) -> u32
    ensures { result ≡ mixed_word 0x0e 0x09 0x0d 0x0b w }
{
    let twice = doubled(w ^ (w << 16 ^ w >> 16));
    let four_times = doubled(twice);
    mixed(w ^ four_times)
}
