#![tactic(auto)]
// A piece of a session file, byte by byte: a line that grows, and the byte that ends it.
ghost use Rattle.std.specs.Prelude.{◌≡◌, ◌≤◌};
ghost use Rattle.notation.specs.Text.{newline};
ghost use Rattle.session.specs.Replay.{longest_line};
ghost use Rattle.session.specs.Session.{Bounded, Feeds};
ghost use Rattle.session.specs.Closing.{Awaits, Takes};

use session::{After, Fed, LINE_ROOM, LONGEST_LINE, Progress, Session, closing};

const NEWLINE: u8 = b'\n';

// The bytes of a piece, one after another. Kept: tried as a `for`, where the two ways join before the next turn, and the proof didn't close.
pub fn take(start: Session, piece: &[u8], out: &mut [u8]) -> Fed
    requires { Bounded start }
    ensures { Feeds start piece.now out.old result.session result.taken result.written out.new }
{
    let mut session = start;
    let mut written = 0;
    let mut taken = 0;
    while taken < piece.len() {
        if session.run.ended {
            return Fed {
                session,
                taken: piece.len(),
                written,
            };
        }
        if out.len() - written < LINE_ROOM {
            break;
        }
        let b = piece[taken];
        if b != NEWLINE && session.count < LONGEST_LINE {
            session.line[session.count] = b;
            session.count += 1;
            taken += 1;
        } else {
            let after = end_line(session, b, out, written);
            session = after.session;
            written = after.written;
            taken += 1;
        }
    }
    Fed {
        session,
        taken,
        written,
    }
}

// The byte that ends a line: its newline, or the one that makes it too long, which is malformed at once.
fn end_line(s: Session, b: u8, out: &mut [u8], at: usize) -> After
    requires { (Awaits s at out.old) × ((b ≡ newline → ⊥) → longest_line ≤ s.count) }
    ensures { Takes s b at out.old result.session result.written out.new }
{
    if b == NEWLINE {
        let closed = closing::close(s.run, &s.line[..s.count], out, at);
        return opened(closed, s.line);
    }
    opened(closing::breaks(s.run, out, at), s.line)
}

// The next line, with nothing of it read yet.
fn opened(p: Progress, line: [u8; 256]) -> After
    ensures { result ≡ record { session = record { run = p.run; line = line; count = 0 }; written = p.written } }
{
    After {
        session: Session {
            run: p.run,
            line,
            count: 0,
        },
        written: p.written,
    }
}
