#![tactic(auto)]
// Reads scanned frames: standard input, or the file that its one argument names, with a frame in hexadecimal on each line. Prints for each line what
// the frame says, or the refusal in words. What is printed is the library `frame_text`'s to promise: this program reads, hands on byte after byte,
// and writes. Where the system fails, standard error says so, and nothing more is printed.
use frame_text::{Line, Text};
use program_files::{MOST_PATH, argument, each_piece, fail, has_argument, opened};
use std::io::Read;
use std::ops::ControlFlow;
use std::rt::Files;

// Kept, as in tag_replay: no plainer as one function, since standard input and a file are two types: it would be handed its work twice.
fn main(rt: HostRuntime) {
    if !has_argument(&rt, 1) {
        let mut input = rt.stdin();
        from_descriptor(&rt, &mut input, b"standard input");
        return;
    }
    if has_argument(&rt, 2) {
        usage(&rt);
        return;
    }
    let mut path = [0u8; MOST_PATH];
    match argument(&rt, 1, &mut path) {
        Ok(length) if &path[..length] == b"--help".as_slice() => usage(&rt),
        Ok(length) => from_path(&rt, &path[..length]),
        Err(why) => fail(&rt, b"path", why),
    }
}

fn usage(rt: &impl Eprint) {
    let _ = rt.eprintln(
        "usage: frame_read [FILE]\n  reads frames, one in hexadecimal to a line, from the file or from standard input, and prints what each says",
    );
}

fn from_path<R: Files + Print + Eprint>(rt: &R, path: &[u8]) {
    match opened(rt, path) {
        Ok(mut file) => from_descriptor(rt, &mut file, path),
        Err(why) => fail(rt, path, why),
    }
}

// Reads an open file from where it stands to its end. A message about it says `name`.
fn from_descriptor<I: Read>(rt: &(impl Print + Eprint), input: &mut I, name: &[u8]) {
    let mut line = frame_text::begin();
    if each_piece(rt, input, name, |piece| handed(rt, &mut line, piece)).is_continue() {
        let _ = written(rt, frame_text::finish(line));
    }
}

// Hands a piece on, byte after byte, and writes what each prints.
fn handed(rt: &(impl Print + Eprint), line: &mut Line, piece: &[u8]) -> ControlFlow<()> {
    for byte in piece {
        let taken = frame_text::take(*line, *byte);
        *line = taken.line;
        written(rt, taken.text)?;
    }
    ControlFlow::Continue(())
}

// Writes a text that is not empty; by its promise its bytes are there.
fn written(rt: &(impl Print + Eprint), text: Text) -> ControlFlow<()> {
    if text.count == 0 {
        return ControlFlow::Continue(());
    }
    program_files::written(rt, &text.bytes, text.count)
}
