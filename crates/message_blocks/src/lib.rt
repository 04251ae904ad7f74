#![tactic(auto)]
// The blocks of the padded message of FIPS 180-4, §5.1 and §5.2, of a message that is handed in as four parts. Only a block that lies in no single
// part is laid out in 64 bytes of its own; that of a short message at once.
ghost use Rattle.std.specs.Prelude.{◌≡◌, ◌+◌, ◌*◌, ◌^◌, ◌≤◌, ◌<◌, length};
ghost use Rattle.padding.specs.Padding.{words_at, block};
ghost use Rattle.padding.specs.Blocks.{followed};
ghost use Rattle.padding.specs.Parts.{bytes_of};

use octets::put;
use padding::message::words_at;
use padding::parts::Message;

// The sixteen words of the only block of a message under 56 bytes and its padding, into the buffer: its parts one after another, the mark, zeros,
// and the length as two words.
fn only_block(message: &Message, words: &mut [u32; 16])
    requires { (length (bytes_of message.now) < 56) × (length words.old ≡ 16) }
    ensures { words.new ≡ words_at (followed message.now.before (bytes_of message.now)) 0 }
{
    let second = message.first.len();
    let third = second + message.head.len();
    let fourth = third + message.tail.len();
    let n = fourth + message.last.len();
    let mut bytes = [0u8; 64];
    put(&mut bytes, 0, message.first);
    put(&mut bytes, second, message.head);
    put(&mut bytes, third, message.tail);
    put(&mut bytes, fourth, message.last);
    bytes[n] = 0x80;
    words_at(&bytes, 0, words);
    let bits = 8 * (message.before + n);
    words[14] = (bits >> 32) as u32;
    words[15] = (bits % 4294967296) as u32;
}

// The sixteen words of the 64 bytes from byte `at` on, into the buffer. A short message has none but the first 64, which are laid out at once.
fn laid_words(message: &Message, at: usize, words: &mut [u32; 16])
    requires in_bounds { (at < 2 ^ 62) × (at + 64 ≤ length (followed message.now.before (bytes_of message.now))) }
    requires words_len { length words.old ≡ 16 }
    ensures { words.new ≡ words_at (followed message.now.before (bytes_of message.now)) at }
{
    if message.len() < 56 {
        only_block(message, words);
        return;
    }
    let bytes = message.laid_out(at);
    words_at(&bytes, 0, words);
}

// The sixteen words of block i of the message and its padding, into the buffer. A block that lies inside first or tail is read straight from
// there. Any other is laid out; that is asked for in two places, so that it is compiled as a call whose bytes are off the stack when it returns.
pub fn load(message: &Message, i: usize, words: &mut [u32; 16])
    requires i_in_bounds { 64 * i + 64 ≤ length (followed message.now.before (bytes_of message.now)) }
    requires words_len { length words.old ≡ 16 }
    ensures { words.new ≡ block (followed message.now.before (bytes_of message.now)) i }
{
    let at = 64 * i;
    if at + 64 <= message.first.len() {
        words_at(message.first, at, words);
        return;
    }
    let start = message.first.len() + message.head.len();
    if start <= at {
        if at + 64 <= start + message.tail.len() {
            words_at(message.tail, at - start, words);
            return;
        }
        laid_words(message, at, words);
        return;
    }
    laid_words(message, at, words);
}
