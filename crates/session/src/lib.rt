#![tactic(auto)]
// A session file's run: the record of it, and what a closed line does to it. Its two ends stand in `session_ends`; how the bytes of a file are
// fed to it, in `pieces` and `replay`.
use lines::Next;
use unit::TagUnit;

pub mod closing;

// The longest line, without its newline.
pub const LONGEST_LINE: usize = 256;

// The last line has this number; where it was read, the run goes on to the next.
pub const MOST_LINES: u32 = 999999;

pub const LAST_NUMBER: u32 = MOST_LINES + 1;

// Room that holds what any one line prints.
pub const LINE_ROOM: usize = 256;

// A run between two lines: what is expected, the number of the line that is to come, what was read before it, and the unit.
#[derive(Clone, Copy)]
pub struct Run {
    pub ended: bool,
    pub next: Next,
    pub number: u32,
    pub power: i32,
    pub components: u32,
    // The bytes of an event's first line, where a second follows, the first `filled` of them. Kept: a Vec could run out of memory, and feeding cannot
    // fail.
    pub kept: [u8; 128],
    pub filled: usize,
    pub unit: TagUnit,
}

// A run, and how many bytes it has written.
#[derive(Clone, Copy)]
pub struct Progress {
    pub run: Run,
    pub written: usize,
}

// A run in the middle of a line: the line so far is the first `count` bytes. Kept as the bytes of a run are.
#[derive(Clone, Copy)]
pub struct Session {
    pub run: Run,
    pub line: [u8; 256],
    pub count: usize,
}

// A session after a byte that ends a line, and the next place of what it writes.
#[derive(Clone, Copy)]
pub struct After {
    pub session: Session,
    pub written: usize,
}

// How far a piece was taken.
#[derive(Clone, Copy)]
pub struct Fed {
    pub session: Session,
    // Bytes of the piece that were taken, and bytes that were written.
    pub taken: usize,
    pub written: usize,
}

// Room that holds what the end of a file prints.
pub const FINISH_ROOM: usize = 64;
