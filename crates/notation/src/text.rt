// Writing text into lent bytes, from a place on. Each function gives the next place. Kept: the bytes and the place are two parameters, since a
// contract over a writer that held both would still name each of them before and after.
ghost use Rattle.std.specs.Prelude.{◌≡◌, [], ◌∷◌, ◌++◌, ◌+◌, ◌*◌, ◌≤◌, ◌<◌, length};
ghost use Rattle.notation.specs.Text.{decimal as decimal_of, hex as hex_of, hex_digit, newline};
ghost use Rattle.notation.specs.Written.{PutsText};

// Bytes as they are.
pub fn put(out: &mut [u8], at: usize, bytes: &[u8]) -> usize
    requires { at + length bytes.now ≤ length out.old }
    ensures { PutsText bytes.now at out.old result out.new }
{
    octets::put(out, at, bytes);
    at + bytes.len()
}

// One hexadecimal digit, in lower case.
#[tactic(auto, unfolding(crate::specs::Text::hex_digit))]
fn digit(d: u8) -> u8
    requires { d < 16 }
    ensures { result ≡ hex_digit d }
{
    if d < 10 { b'0' + d } else { b'a' + d - 10 }
}

// Bytes in hexadecimal, two digits each.
pub fn hex(out: &mut [u8], at: usize, bytes: &[u8]) -> usize
    requires { at + 2 * length bytes.now ≤ length out.old }
    ensures { PutsText (hex_of bytes.now) at out.old result out.new }
{
    let mut next = at;
    for b in bytes {
        out[next] = digit(*b / 16);
        out[next + 1] = digit(*b % 16);
        next += 2;
    }
    next
}

// A key, bytes in hexadecimal and a newline.
pub fn hex_line(out: &mut [u8], at: usize, key: &[u8], bytes: &[u8]) -> usize
    requires { at + (length key.now + (2 * length bytes.now + 1)) ≤ length out.old }
    ensures { PutsText (key.now ++ (hex_of bytes.now ++ (newline ∷ []))) at out.old result out.new }
{
    let next = put(out, at, key);
    let end = hex(out, next, bytes);
    put(out, end, b"\n")
}

// A key, a number in decimal and a newline.
pub fn decimal_line(out: &mut [u8], at: usize, key: &[u8], n: u32) -> usize
    requires { at + (length key.now + 11) ≤ length out.old }
    ensures { PutsText (key.now ++ (decimal_of n ++ (newline ∷ []))) at out.old result out.new }
{
    let next = put(out, at, key);
    let end = decimal(out, next, n);
    put(out, end, b"\n")
}

// A number in decimal: its digits from the last to the first, and then as text. Kept: the loop ends at the number's first digit, whose place no
// `for` would tell, and std writes a number only on the heap or through a formatter.
fn decimal(out: &mut [u8], at: usize, n: u32) -> usize
    requires { at + 10 ≤ length out.old }
    ensures { PutsText (decimal_of n) at out.old result out.new }
{
    let mut digits = [0u8; 10];
    let mut first = 9;
    let mut rest = n;
    while 10 <= rest && 0 < first {
        digits[first] = b'0' + (rest % 10) as u8;
        rest /= 10;
        first -= 1;
    }
    digits[first] = b'0' + (rest % 10) as u8;
    put(out, at, &digits[first..])
}
