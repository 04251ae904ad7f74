// One limb by one limb: a product with two summands, which always fits 64 bits, and the two limbs of it.
ghost use Rattle.std.specs.Prelude.{◌≡◌, ◌+◌, ◌*◌, ◌/◌, ◌%◌};

// t + x y + c
pub fn sum(t: u32, x: u32, y: u32, c: u32) -> u64
    ensures { result ≡ t + x * y + c }
{
    t as u64 + x as u64 * y as u64 + c as u64
}

// The lower limb
pub fn low(s: u64) -> u32
    ensures { result ≡ s % 4294967296 }
{
    (s % 4294967296) as u32
}

// The upper limb
pub fn high(s: u64) -> u32
    ensures { result ≡ s / 4294967296 }
{
    (s >> 32) as u32
}
