// Printing bytes.
use std::io;

// Two lower-case digits a byte.
pub fn hex(rt: &impl Print, bytes: &[u8]) -> io::Result<()> {
    for byte in bytes {
        print!(rt; "{byte:02x}")?;
    }
    Ok(())
}

// The first sixteen bytes, where there are as many.
pub fn first_half(rt: &impl Print, bytes: &[u8]) -> io::Result<()> {
    if 16 <= bytes.len() {
        hex(rt, &bytes[..16])?;
    }
    Ok(())
}

// The number of a refusal, two digits, and a space.
pub fn refusal(rt: &impl Print, n: u64) -> io::Result<()> {
    print!(rt; "{n:02x} ")
}

// A number in decimal, and a space.
pub fn number(rt: &impl Print, n: u32) -> io::Result<()> {
    print!(rt; "{n} ")
}

pub fn text(rt: &impl Print, bytes: &[u8]) -> io::Result<()> {
    rt.write_all(bytes)
}
