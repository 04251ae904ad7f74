#![tactic(auto)]
// What the programs ask of the system: an argument, the file that a path names, its pieces, bytes written, and a message where something failed.
ghost use Rattle.std.specs.Prelude.{◌≤◌, length, IfOk};

use std::env::FillError;
use std::io::{Error, ErrorKind, Read};
use std::ops::ControlFlow;
use std::rt::{Env, Files};
use std::{fs, io};

// The longest path.
pub const MOST_PATH: usize = 4096;

// The most bytes of one read.
pub const BUFFER: usize = 65536;

// Whether there is an argument of this number. One that has no room in a path is there all the same.
pub fn has_argument(rt: &impl Env, number: usize) -> bool {
    !matches!(rt.arg(number, &mut []), Err(FillError::NotPresent))
}

// Puts an argument at the start of the path, and gives its length. Where there is none the input is invalid, where it has no room its name is.
pub fn argument(rt: &impl Env, number: usize, path: &mut [u8; MOST_PATH]) -> io::Result<usize>
    ensures { IfOk result (λ n. n ≤ length path.new) }
{
    match rt.arg(number, path) {
        Ok(length) => Ok(length),
        Err(FillError::NotPresent) => Err(Error::from(ErrorKind::InvalidInput)),
        Err(FillError::TooLong) => Err(Error::from(ErrorKind::InvalidFilename)),
    }
}

// Opens the file that a path names, to be read. A path that is not UTF-8 is an invalid name here.
pub fn opened<R: Files>(rt: &R, path: &[u8]) -> io::Result<R::File> {
    match str::from_utf8(path) {
        Ok(name) => fs::open(rt, name),
        Err(_) => Err(Error::from(ErrorKind::InvalidFilename)),
    }
}

// Says on standard error what failed, and why. Where that cannot be said there is nowhere left to say it.
pub fn fail(rt: &impl Eprint, what: &[u8], why: Error) {
    let name = str::from_utf8(what).unwrap_or("a name that is not UTF-8");
    let _ = eprintln!(rt; "{name}: {why}");
}

// Reads an open file from where it stands to its end, and hands on each piece of it. Breaks where the function that takes the pieces does, and where a
// read fails, which standard error then says of `name`. An interrupted read is tried again; no machine makes as many reads as are counted here.
pub fn each_piece<I: Read, F: FnMut(&[u8]) -> ControlFlow<()>>(
    rt: &impl Eprint,
    input: &mut I,
    name: &[u8],
    mut take: F,
) -> ControlFlow<()>
    requires { F.IsAlwaysCallable take }
{
    let mut buf = [0u8; BUFFER];
    for _ in 0..u64::MAX {
        match input.read(&mut buf) {
            Ok(0) => return ControlFlow::Continue(()),
            Ok(n) => {
                if take(&buf[..n]).is_break() {
                    return ControlFlow::Break(());
                }
            }
            Err(why) if why.kind() == ErrorKind::Interrupted => {}
            Err(why) => {
                fail(rt, name, why);
                return ControlFlow::Break(());
            }
        }
    }
    ControlFlow::Break(())
}

// Writes the first `count` bytes of a buffer to standard output. Breaks where there are not as many, and where they cannot be written, which standard
// error then says.
pub fn written(rt: &(impl Print + Eprint), out: &[u8], count: usize) -> ControlFlow<()> {
    let Some(bytes) = out.get(..count) else {
        return ControlFlow::Break(());
    };
    match rt.write_all(bytes) {
        Ok(()) => ControlFlow::Continue(()),
        Err(why) => {
            fail(rt, b"write", why);
            ControlFlow::Break(())
        }
    }
}
