// A message that is handed in as four parts.
ghost use Rattle.std.specs.Prelude.{◌≡◌, ◌+◌, ◌%◌, ◌^◌, ◌<◌, length};

// A message as four parts, one after another, and how many bytes went before it: whole blocks. With these it is shorter than 2^64 bits.
#[derive(Clone, Copy)]
pub struct Message<'a> {
    pub first: &'a [u8],
    pub head: &'a [u8],
    pub tail: &'a [u8],
    pub last: &'a [u8],
    pub before: usize,
    ghost bounded: { before + (length first.now + length head.now + length tail.now + length last.now) < 2 ^ 61 },
    ghost whole: { before % 64 ≡ 0 },
}
