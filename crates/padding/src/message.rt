// The padded message of FIPS 180-4, §5.1 and §5.2, of a message that is handed in as four parts: words straight from a part, and the 64 bytes of a
// block laid out.
ghost use Rattle.std.specs.Prelude.{◌≡◌, List, ◌++◌, ℕ, ◌+◌, ◌^◌, ◌≤◌, ◌<◌, length};
ghost use Rattle.padding.specs.Padding.{words_at};
ghost use Rattle.padding.specs.Blocks.{block_at, followed};
ghost use Rattle.padding.specs.Parts.{bytes_of};

use crate::parts::Message;

impl Message<'_> {
    // The bytes of its parts.
    pub fn len(&self) -> usize
        ensures { result ≡ length (bytes_of self.now) }
    {
        self.first.len() + self.head.len() + self.tail.len() + self.last.len()
    }

    // The 64 bytes from byte `at` on of the message and its padding.
    pub fn laid_out(&self, at: usize) -> [u8; 64]
        requires { at < 2 ^ 62 }
        ensures { result ≡ block_at (followed self.now.before (bytes_of self.now)) at }
    {
        let second = self.first.len();
        let third = second + self.head.len();
        let fourth = third + self.tail.len();
        let n = fourth + self.last.len();
        let zeros = (119 - n % 64) % 64;
        let length = (8 * (self.before + n)).to_be_bytes();
        let mut block = [0u8; 64];
        lay(self.first, 0, at, &mut block);
        lay(self.head, second, at, &mut block);
        lay(self.tail, third, at, &mut block);
        lay(self.last, fourth, at, &mut block);
        lay(b"\x80", n, at, &mut block);
        lay(&length, n + 1 + zeros, at, &mut block);
        block
    }
}

// Sixteen words straight from a slice, into the buffer.
pub fn words_at(bytes: &[u8], at: usize, words: &mut [u32; 16])
    requires { (at + 64 ≤ length bytes.now) × (length words.old ≡ 16) }
    ensures { words.new ≡ words_at bytes.now at }
{
    for t in 0..16 {
        let k = at + 4 * t;
        words[t] = u32::from_be_bytes([bytes[k], bytes[k + 1], bytes[k + 2], bytes[k + 3]]);
    }
}

// The bytes of a part that fall into a block. The part's first byte is byte `start` of the message, the block's is byte `at`: a block that
// has the bytes of a message m of `start` bytes gets those of m and the part.
fn lay(part: &[u8], start: usize, at: usize, block: &mut [u8; 64])
    requires { (start + length part.now < 2 ^ 62) × (at < 2 ^ 62) }
    ensures { (m : List ℕ) → length m ≡ start → block.old ≡ block_at m at → block.new ≡ block_at (m ++ part.now) at }
{
    let from = at.saturating_sub(start);
    let to = part.len().min((at + 64).saturating_sub(start));
    for k in from..to {
        block[start + k - at] = part[k];
    }
}
