#![tactic(auto)]
// Replays a file to standard output: reads, feeds, writes. What is printed is promised by the libraries `replay` and `session_ends`; no contract
// can speak of bytes that the system reads or writes. Where the system fails, standard error says so, the answers so far stand, and nothing more is
// printed: a file that could not be read to its end is not called malformed.
use program_files::{BUFFER, each_piece, fail, opened, written};
use session::Session;
use std::io::Read;
use std::ops::ControlFlow;
use std::rt::Files;

// Replays the file that a path names.
pub fn from_path<R: Files + Print + Eprint>(rt: &R, path: &[u8]) {
    match opened(rt, path) {
        Ok(mut file) => from_descriptor(rt, &mut file, path),
        Err(why) => fail(rt, path, why),
    }
}

// Replays an open file, from where it stands to its end, or until the run has ended. A message about it says `name`.
pub fn from_descriptor<I: Read>(rt: &(impl Print + Eprint), input: &mut I, name: &[u8]) {
    let mut session = session_ends::begin();
    if each_piece(rt, input, name, |piece| fed(rt, &mut session, piece)).is_continue() {
        finish(rt, session);
    }
}

// Feeds a piece and writes what it prints, a part of the output at a time: by the promise of the replay its bytes are there. Breaks where the run
// has ended or the system failed. Kept: no plainer as a `for`, since the replay says how much of a piece it took.
pub fn fed(rt: &(impl Print + Eprint), session: &mut Session, piece: &[u8]) -> ControlFlow<()> {
    let mut rest = piece;
    while !rest.is_empty() {
        let mut out = [0u8; BUFFER];
        let next = replay::feed(*session, rest, &mut out);
        *session = next.session;
        written(rt, &out, next.written)?;
        if next.session.run.ended || next.taken == 0 {
            return ControlFlow::Break(());
        }
        rest = &rest[next.taken.min(rest.len())..];
    }
    ControlFlow::Continue(())
}

// Writes what the end of the file prints.
pub fn finish(rt: &(impl Print + Eprint), s: Session) {
    let mut out = [0u8; 64];
    if let Some(n) = session_ends::finish(s, &mut out) {
        let _ = written(rt, &out, n);
    }
}
