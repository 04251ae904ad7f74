#![tactic(auto)]
// Events: each is one call of the tag, and prints its answer. Answer room is always ANSWER_ROOM.
ghost use Rattle.std.specs.Prelude.{◌+◌, ◌≤◌, length};
ghost use Rattle.events.specs.Event as event;
ghost use Rattle.printing.specs.Answers.{line_room};
ghost use Rattle.events.specs.Promises.{ask_of, setting_of, event_of, Performs};

use printing::Performed;
use sizes::ANSWER_ROOM;
use unit::TagUnit;

// An event that the tag answers with bytes.
#[derive(Clone, Copy)]
pub enum Ask {
    Read,
    Write,
    Button,
    Frame,
}

// One that it answers without.
#[derive(Clone, Copy)]
pub enum Setting {
    Pairing(bool),
    Battery,
    Key,
    Disconnect,
}

// An event. Its number or its bytes, and those kept from the line before, stand beside it.
#[derive(Clone, Copy)]
pub enum Event {
    Asks(Ask),
    Sets(Setting),
    Elapsed,
}

pub fn perform(
    u: TagUnit,
    e: Event,
    number: u32,
    kept: &[u8],
    bytes: &[u8],
    out: &mut [u8],
    at: usize,
) -> Performed
    requires { at + line_room ≤ length out.old }
    ensures { Performs (event_of e number kept.now bytes.now) u at out.old result.unit result.written out.new }
{
    match e {
        Event::Asks(what) => asked(u, what, number, kept, bytes, out, at),
        Event::Sets(what) => set(u, what, number, bytes, out, at),
        Event::Elapsed => elapse(u, number, out, at),
    }
}

fn asked(
    u: TagUnit,
    what: Ask,
    number: u32,
    kept: &[u8],
    bytes: &[u8],
    out: &mut [u8],
    at: usize,
) -> Performed
    requires { at + line_room ≤ length out.old }
    ensures { Performs (event.asks (ask_of what number kept.now bytes.now)) u at out.old result.unit result.written out.new }
{
    let mut answer = [0u8; ANSWER_ROOM];
    match what {
        Ask::Read => {
            let step = tag::read(u, bytes, &mut answer);
            printing::answered(step, b"answer=read\n", &answer, out, at)
        }
        Ask::Write => {
            let step = tag::write(u, kept, number, &mut answer);
            printing::answered(step, b"answer=write\n", &answer, out, at)
        }
        Ask::Button => {
            let step = tag::button(u, &mut answer);
            printing::answered(step, b"answer=button\n", &answer, out, at)
        }
        Ask::Frame => {
            let step = tag::advertise(u, &mut answer);
            printing::answered(step, b"answer=frame\n", &answer, out, at)
        }
    }
}

fn set(u: TagUnit, what: Setting, level: u32, bytes: &[u8], out: &mut [u8], at: usize) -> Performed
    requires { at + line_room ≤ length out.old }
    ensures { Performs (event.asks (setting_of what level bytes.now)) u at out.old result.unit result.written out.new }
{
    match what {
        Setting::Pairing(on) => printing::completed(
            tag::pairing(u, on),
            b"answer=pairing\n",
            out,
            at,
        ),
        Setting::Battery => printing::completed(
            tag::battery(u, level),
            b"answer=battery\n",
            out,
            at,
        ),
        Setting::Key => printing::completed(tag::account_key(u, bytes), b"answer=key\n", out, at),
        Setting::Disconnect => printing::completed(
            tag::disconnect(u),
            b"answer=disconnect\n",
            out,
            at,
        ),
    }
}

fn elapse(u: TagUnit, tenths: u32, out: &mut [u8], at: usize) -> Performed
    requires { at + line_room ≤ length out.old }
    ensures { Performs (event.elapsed tenths) u at out.old result.unit result.written out.new }
{
    let mut answer = [0u8; ANSWER_ROOM];
    let passed = tag::elapsed(u, tenths, &mut answer);
    printing::passed(passed, &answer, out, at)
}
