#![tactic(auto)]
// A word of 32 bits as its four bytes, the first byte highest, and a state of AES as four words (FIPS 197, §3.5: "the four bytes in each column
// of the State array form 32-bit words").
ghost use Rattle.std.specs.Prelude.{◌≡◌, [], ◌∷◌};
ghost use Rattle.laws.specs.Bytes.{big_endian, number};
ghost use Rattle.words.specs.Words.{bytes_of};

// The word of four bytes.
pub fn word_of(a: u8, b: u8, c: u8, d: u8) -> u32
    ensures { result ≡ number (a ∷ b ∷ c ∷ d ∷ []) }
{
    u32::from_be_bytes([a, b, c, d])
}

// The four bytes of a word.
pub fn bytes_of(w: u32) -> [u8; 4]
    ensures { result ≡ big_endian 4 w }
{
    w.to_be_bytes()
}

// The state whose columns are four words.
pub fn state_of(a: u32, b: u32, c: u32, d: u32) -> [u8; 16]
    ensures { result ≡ bytes_of (a ∷ b ∷ c ∷ d ∷ []) }
{
    let [a0, a1, a2, a3] = a.to_be_bytes();
    let [b0, b1, b2, b3] = b.to_be_bytes();
    let [c0, c1, c2, c3] = c.to_be_bytes();
    let [d0, d1, d2, d3] = d.to_be_bytes();
    [
        a0, a1, a2, a3, b0, b1, b2, b3, c0, c1, c2, c3, d0, d1, d2, d3,
    ]
}
