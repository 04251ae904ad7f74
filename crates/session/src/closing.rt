// Closing a line: what it does to the run.
ghost use Rattle.std.specs.Prelude.{◌≡◌, ◌≤◌, take, ◌+◌, length};
ghost use Rattle.lines.specs.declared.Next.TheVariants as next;
ghost use Rattle.session.specs.Replay as replay;
ghost use Rattle.printing.specs.Texts.{malformed_text};
ghost use Rattle.events.specs.Promises.{event_of};
ghost use Rattle.printing.specs.Answers.{line_room};
ghost use Rattle.lines.specs.Lines.{sets_up, brings};
ghost use Rattle.lines.specs.Promises.{line_of};
ghost use Rattle.session.specs.Feeding.{fed_to, ended};
ghost use Rattle.session.specs.Session.{expected_of, BoundedRun};
ghost use Rattle.session.specs.Closing.{Ready, Closing, Closes, ClosesLine, moved};

use crate::{MOST_LINES, Progress, Run};
use events::Event;
use lines::{Awaited, Line, Next};
use unit::TagUnit;

// A line is closed.
pub fn close(run: Run, line: &[u8], out: &mut [u8], at: usize) -> Progress
    requires { Closing run line.now at out.old }
    ensures { ClosesLine (replay.judged (expected_of run) run.number line.now) run at out.old result.run result.written out.new }
{
    if MOST_LINES < run.number {
        return breaks(run, out, at);
    }
    let mut bytes = [0u8; 128];
    let Some(told) = lines::read(run.next, line, &mut bytes) else {
        return breaks(run, out, at);
    };
    act(run, told.line, told.number, bytes, told.count, out, at)
}

// What a line that was read does.
fn act(
    run: Run,
    what: Line,
    number: u32,
    bytes: [u8; 128],
    count: usize,
    out: &mut [u8],
    at: usize,
) -> Progress
    requires { (Ready run at out.old) × (count ≤ 128) }
    ensures { ClosesLine (line_of what run.power run.components (take run.filled run.kept) number (take count bytes)) run at out.old result.run result.written out.new }
{
    match what {
        Line::Power(p) => {
            let mut read = run;
            read.power = p;
            follow(read, Awaited::Components, at)
        }
        Line::Components => {
            let mut read = run;
            read.components = number;
            follow(read, Awaited::Volume, at)
        }
        Line::Volume => create(run, number, out, at),
        Line::Follows(awaited) => follow(run, awaited, at),
        Line::Keeps(awaited) => {
            let mut read = run;
            read.kept = bytes;
            read.filled = count;
            follow(read, awaited, at)
        }
        Line::Brings(event) => bring(run, event, number, &bytes[..count], out, at),
    }
}

// The run with the next line's number, what is expected there, and a unit.
fn advance(run: Run, next: Next, unit: TagUnit) -> Run
    requires { run.number ≤ replay.most_lines }
    ensures { result ≡ moved next unit run }
{
    Run {
        next,
        number: run.number + 1,
        unit,
        ..run
    }
}

// The same unit at the next line.
fn follow(run: Run, awaited: Awaited, at: usize) -> Progress
    requires { run.number ≤ replay.most_lines }
    ensures { (result.run ≡ moved (next.Inside awaited) run.unit run) × (result.written ≡ at) }
{
    Progress {
        run: advance(run, Next::Inside(awaited), run.unit),
        written: at,
    }
}

// The settings are read: a new unit, or its refusal, which ends the run.
fn create(run: Run, selectable: u32, out: &mut [u8], at: usize) -> Progress
    requires { Ready run at out.old }
    ensures { ClosesLine (sets_up run.power run.components selectable) run at out.old result.run result.written out.new }
{
    let step = tag::new_unit(run.power, run.components, selectable);
    match step.reply {
        Ok(_) => {
            let unit = step.unit;
            Progress {
                run: advance(run, Next::Event, unit),
                written: at,
            }
        }
        Err(refusal) => {
            let written = printing::refused(out, at, refusal);
            let mut after = run;
            after.ended = true;
            Progress {
                run: after,
                written,
            }
        }
    }
}

// A whole event.
fn bring(run: Run, event: Event, number: u32, bytes: &[u8], out: &mut [u8], at: usize) -> Progress
    requires { Ready run at out.old }
    ensures { ClosesLine (brings (event_of event number (take run.filled run.kept) bytes.now)) run at out.old result.run result.written out.new }
{
    let kept = &run.kept[..run.filled];
    let done = events::perform(run.unit, event, number, kept, bytes, out, at);
    Progress {
        run: advance(run, Next::Event, done.unit),
        written: done.written,
    }
}

// A run that ends with a malformed line.
pub fn breaks(run: Run, out: &mut [u8], at: usize) -> Progress
    requires { (at + line_room ≤ length out.old) × BoundedRun run }
    ensures { Closes (fed_to ended (malformed_text run.number)) at out.old result.run result.written out.new }
{
    Progress {
        run: Run { ended: true, ..run },
        written: printing::malformed(out, at, run.number),
    }
}
