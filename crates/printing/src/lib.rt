#![tactic(auto)]
// What an event prints, and a refusal and a malformed line.
ghost use Rattle.std.specs.Prelude.{◌≡◌, ◌+◌, ◌≤◌, length, take, ◌++◌};
ghost use Rattle.sizes.specs.Sizes.{answer_room};
ghost use Rattle.unit.specs.Refusals.{refusal_number};
ghost use Rattle.printing.specs.Texts.{refused_text, malformed_text, bytes_text, notes_text};
ghost use Rattle.notation.specs.Written.{PutsText};
ghost use Rattle.printing.specs.Answers.{line_room, malformed_room, title_room, answered_text, completed_text, elapsed_text, passed_text, replies_within};

use notation::text;
use time::Passed;
use unit::{Refusal, Step, TagUnit};

// The unit after an event, and the next place.
#[derive(Clone, Copy)]
pub struct Performed {
    pub unit: TagUnit,
    pub written: usize,
}

pub fn refused(out: &mut [u8], at: usize, refusal: Refusal) -> usize
    requires { at + line_room ≤ length out.old }
    ensures { PutsText (refused_text (refusal_number refusal)) at out.old result out.new }
{
    let one = [u8::from(refusal)];
    text::hex_line(out, at, b"answer=refused\ncode=", &one)
}

pub fn malformed(out: &mut [u8], at: usize, number: u32) -> usize
    requires { at + malformed_room ≤ length out.old }
    ensures { PutsText (malformed_text number) at out.old result out.new }
{
    text::decimal_line(out, at, b"answer=malformed\nline=", number)
}

// bytes= with the bytes, where there are any.
fn bytes(out: &mut [u8], at: usize, answer: &[u8]) -> usize
    requires { (length answer.now ≤ answer_room) × (at + 128 ≤ length out.old) }
    ensures { PutsText (bytes_text answer.now) at out.old result out.new }
{
    if answer.len() == 0 {
        return at;
    }
    text::hex_line(out, at, b"bytes=", answer)
}

// A success: its title, and the answer bytes that were written.
fn success(out: &mut [u8], at: usize, title: &[u8], answer: &[u8], count: usize) -> usize
    requires { (length title.now ≤ title_room) × ((length answer.now ≡ answer_room) × ((count ≤ answer_room) × (at + line_room ≤ length out.old))) }
    ensures { PutsText (title.now ++ bytes_text (take count answer.now)) at out.old result out.new }
{
    let next = text::put(out, at, title);
    bytes(out, next, &answer[..count])
}

// The end of an event with answer bytes.
pub fn answered(step: Step, title: &[u8], answer: &[u8], out: &mut [u8], at: usize) -> Performed
    requires { (length title.now ≤ title_room) × ((length answer.now ≡ answer_room) × ((replies_within step.reply answer_room) × (at + line_room ≤ length out.old))) }
    ensures { (result.unit ≡ step.unit) × PutsText (answered_text title.now step.reply answer.now) at out.old result.written out.new }
{
    match step.reply {
        Ok(n) => Performed {
            unit: step.unit,
            written: success(out, at, title, answer, n),
        },
        Err(refusal) => Performed {
            unit: step.unit,
            written: refused(out, at, refusal),
        },
    }
}

// The end of an event without answer bytes.
pub fn completed(step: Step, title: &[u8], out: &mut [u8], at: usize) -> Performed
    requires { (length title.now ≤ title_room) × (at + line_room ≤ length out.old) }
    ensures { (result.unit ≡ step.unit) × PutsText (completed_text title.now step.reply) at out.old result.written out.new }
{
    match step.reply {
        Ok(_) => Performed {
            unit: step.unit,
            written: text::put(out, at, title),
        },
        Err(refusal) => Performed {
            unit: step.unit,
            written: refused(out, at, refusal),
        },
    }
}

// notes= 0, or 1 with the tenth at which a ring ended and its notice.
fn notes(out: &mut [u8], at: usize, tenth: u32, answer: &[u8]) -> usize
    requires { (length answer.now ≤ answer_room) × (at + 160 ≤ length out.old) }
    ensures { PutsText (notes_text tenth answer.now) at out.old result out.new }
{
    if answer.len() == 0 {
        return text::put(out, at, b"notes=0\n");
    }
    let next = text::decimal_line(out, at, b"notes=1\nat=", tenth);
    bytes(out, next, answer)
}

// The end of time that passed: the notes and the clock's seconds.
fn elapsed(
    out: &mut [u8],
    at: usize,
    tenth: u32,
    seconds: u32,
    answer: &[u8],
    count: usize,
) -> usize
    requires { (length answer.now ≡ answer_room) × ((count ≤ answer_room) × (at + line_room ≤ length out.old)) }
    ensures { PutsText (elapsed_text tenth seconds (take count answer.now)) at out.old result out.new }
{
    let next = text::put(out, at, b"answer=elapsed\n");
    let noted = notes(out, next, tenth, &answer[..count]);
    text::decimal_line(out, noted, b"clock=", seconds)
}

// The end of time.
pub fn passed(p: Passed, answer: &[u8], out: &mut [u8], at: usize) -> Performed
    requires { (length answer.now ≡ answer_room) × ((replies_within p.reply answer_room) × (at + line_room ≤ length out.old)) }
    ensures { (result.unit ≡ p.unit) × PutsText (passed_text p.ended p.unit.clock.seconds p.reply answer.now) at out.old result.written out.new }
{
    match p.reply {
        Ok(n) => Performed {
            unit: p.unit,
            written: elapsed(out, at, p.ended, p.unit.clock.seconds, answer, n),
        },
        Err(refusal) => Performed {
            unit: p.unit,
            written: refused(out, at, refusal),
        },
    }
}
