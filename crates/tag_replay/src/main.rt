#![tactic(auto)]
// Replays a session file: standard input, or the file that its one argument names, and prints what the tag answers. The work is in the
// libraries `session_ends` and `replay` (from bytes to bytes) and `replay_file` (reads and writes).
use program_files::{MOST_PATH, argument, fail, has_argument};

// Kept, as in frame_read: no plainer as one function, since standard input and a file are two types: it would be handed its work twice.
fn main(rt: HostRuntime) {
    if !has_argument(&rt, 1) {
        let mut input = rt.stdin();
        replay_file::from_descriptor(&rt, &mut input, b"standard input");
        return;
    }
    if has_argument(&rt, 2) {
        usage(&rt);
        return;
    }
    let mut path = [0u8; MOST_PATH];
    match argument(&rt, 1, &mut path) {
        Ok(length) if &path[..length] == b"--help".as_slice() => usage(&rt),
        Ok(length) => replay_file::from_path(&rt, &path[..length]),
        Err(why) => fail(&rt, b"path", why),
    }
}

fn usage(rt: &impl Eprint) {
    let _ = rt.eprintln(
        "usage: tag_replay [SESSION-FILE]\n  replays a session file, or standard input, and prints what the tag answers",
    );
}
