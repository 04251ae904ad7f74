#![tactic(auto)]
// The two ends of a session file's replay: a session before its first byte, and the end of the file.
ghost use Rattle.std.specs.Prelude.{◌≡◌, ◌≤◌, cond, [], eqb, length};
ghost use Rattle.session.specs.Feeding.{first};
ghost use Rattle.notation.specs.Written.{PutsText};
ghost use Rattle.printing.specs.Texts.{malformed_text};
ghost use Rattle.session.specs.Session.{state_of, finish_room, Bounded, Finishes};

use lines::{Awaited, Next};
use session::{FINISH_ROOM, Run, Session};
use unit::change::no_unit;

// A session before its first byte.
pub fn begin() -> Session
    ensures { (state_of result ≡ first) × Bounded result }
{
    Session {
        run: Run {
            ended: false,
            next: Next::Inside(Awaited::Power),
            number: 1,
            power: 0,
            components: 0,
            kept: [0u8; 128],
            filled: 0,
            unit: no_unit(),
        },
        line: [0u8; 256],
        count: 0,
    }
}

// The end of the file: writes nothing, or that a line is missing or not closed, and gives the bytes written. With fewer lent bytes than
// FINISH_ROOM none, and nothing is written.
pub fn finish(s: Session, out: &mut [u8]) -> Option<usize>
    ensures { Finishes s out.old result out.new }
{
    if out.len() < FINISH_ROOM {
        return None;
    }
    let run = s.run;
    if run.ended {
        return Some(0);
    }
    match run.next {
        Next::Event => Some(unclosed(out, s.count, run.number)),
        Next::Inside(_) => Some(printing::malformed(out, 0, run.number)),
    }
}

// What stands after the last newline, where an event could begin: nothing, or a line that is not closed.
fn unclosed(out: &mut [u8], count: usize, number: u32) -> usize
    requires { finish_room ≤ length out.old }
    ensures { PutsText (cond (eqb count 0) [] (malformed_text number)) 0 out.old result out.new }
{
    if count == 0 {
        return 0;
    }
    printing::malformed(out, 0, number)
}
