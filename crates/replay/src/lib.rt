#![tactic(auto)]
// The replay of a session file, from bytes to bytes: a piece of it is fed.
ghost use Rattle.session.specs.Session.{Feeds};
ghost use Rattle.session.specs.Closing.{BoundedBy};

use session::{Fed, LAST_NUMBER, LONGEST_LINE, Session};

// Feeds a piece of the file, and writes what it prints; the lent bytes behind that stay. Takes bytes while LINE_ROOM lent bytes are left, and
// the whole piece once the run has ended. A session whose counts exceed their rooms takes nothing.
pub fn feed(s: Session, piece: &[u8], out: &mut [u8]) -> Fed
    ensures { Feeds s piece.now out.old result.session result.taken result.written out.new }
{
    if bounded(s) {
        return pieces::take(s, piece, out);
    }
    Fed {
        session: s,
        taken: 0,
        written: 0,
    }
}

fn bounded(s: Session) -> bool
    ensures { BoundedBy s result }
{
    s.count <= LONGEST_LINE && s.run.number <= LAST_NUMBER && s.run.filled <= 128
}
