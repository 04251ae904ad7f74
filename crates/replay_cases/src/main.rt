#![tactic(auto)]
// Replays the files that its arguments name, and prints the name of each and what the replay prints: sessions with keys, and inputs at the
// edges of the format. Then come the inputs that reach line 1,000,000, too long to store. compare/sessions/make.py makes args, data/ and the
// answers in stdout; none of them comes from this program.
use program_files::{MOST_PATH, argument, fail, has_argument};
use session::Session;
use std::io;
use std::rt::{Env, Files};

// More arguments than a program can be given.
const MOST_ARGUMENTS: usize = 4294967295;

// The lines of a long input before its last ones: three settings, and presses up to line 999,998.
const PRESSES: u32 = 999995;

fn main(rt: HostRuntime) -> io::Result<()> {
    for i in 1..MOST_ARGUMENTS {
        if !case(&rt, i)? {
            break;
        }
    }
    long_cases(&rt)
}

// Replays the file that an argument names. Says whether there is such an argument.
fn case<R: Env + Files + Print + Eprint>(rt: &R, i: usize) -> io::Result<bool> {
    if !has_argument(rt, i) {
        return Ok(false);
    }
    let mut path = [0u8; MOST_PATH];
    match argument(rt, i, &mut path) {
        Ok(length) => {
            rt.write_all(&path[..length])?;
            rt.write_all(b"\n")?;
            replay_file::from_path(rt, &path[..length]);
        }
        Err(why) => fail(rt, b"path", why),
    }
    Ok(true)
}

// Inputs that differ from line 999,999 on.
fn long_cases(rt: &(impl Print + Eprint)) -> io::Result<()> {
    let near = pressed();
    long_case(rt, near, b"lines-999999\n", b"event=button\n")?;
    long_case(rt, near, b"line-1000000\n", b"event=button\nevent=button\n")?;
    long_case(
        rt,
        near,
        b"line-1000000-not-closed\n",
        b"event=button\nevent=button",
    )?;
    long_case(
        rt,
        near,
        b"line-1000000-blank\n",
        b"event=button\n\nevent=read\nnonce=0102030405060708\n",
    )?;
    long_case(
        rt,
        near,
        b"line-1000000-inside-an-event\n",
        b"event=read\nnonce=0102030405060708\n",
    )?;
    long_case(rt, near, b"line-1000000-missing\n", b"event=read\n")
}

fn long_case(
    rt: &(impl Print + Eprint),
    near: Session,
    name: &[u8],
    last: &[u8],
) -> io::Result<()> {
    rt.write_all(name)?;
    let mut session = near;
    let _ = replay_file::fed(rt, &mut session, last);
    replay_file::finish(rt, session);
    Ok(())
}

// The session before line 999,999. What the lines before it print is thrown away.
fn pressed() -> Session {
    let start = session_ends::begin();
    let mut session = after(start, b"power=-20\ncomponents=3\nvolume=1\n");
    for _ in 0..PRESSES {
        session = after(session, b"event=button\n");
    }
    session
}

fn after(s: Session, piece: &[u8]) -> Session {
    let mut out = [0u8; 512];
    replay::feed(s, piece, &mut out).session
}
