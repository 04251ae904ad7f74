#![tactic(auto)]
// What a line says, by what is expected there.
ghost use Rattle.std.specs.Prelude.{◌≡◌, ◌≤◌, length, []};
ghost use Rattle.reading.specs.Reading.{unsigned as unsigned_of};
ghost use Rattle.hex_reading.specs.Hex.{bytes as bytes_of};
ghost use Rattle.lines.specs.Lines as lines;
ghost use Rattle.lines.specs.Promises.{expecting, awaiting, Means, Says, SaysNumber, line_of, value_line};

use events::{Ask, Event, Setting};

// A line of the settings or of an event.
#[derive(Clone, Copy)]
pub enum Awaited {
    Power,
    Components,
    Volume,
    Nonce,
    Data,
    Reach,
    Tenths,
    On,
    Level,
    KeyBytes,
}

// Which line is expected: an event's name, or one inside the settings or an event. Kept: as an Option its None would not say that a name is expected.
#[derive(Clone, Copy)]
pub enum Next {
    Event,
    Inside(Awaited),
}

// What a line means. Its number or its bytes stand beside it; those of one that keeps them are for the line that follows.
#[derive(Clone, Copy)]
pub enum Line {
    Power(i32),
    Components,
    Volume,
    Follows(Awaited),
    Keeps(Awaited),
    Brings(Event),
}

// A line that was read, its number, and how many bytes of it stand at the front of those lent.
#[derive(Clone, Copy)]
pub struct Told {
    pub line: Line,
    pub number: u32,
    pub count: usize,
}

// The line where one is expected; none where it breaks the order.
pub fn read(next: Next, line: &[u8], into: &mut [u8]) -> Option<Told>
    requires { (length line.now ≤ 256) × (length into.old ≡ 128) }
    ensures { Says (λ p c b. lines.taken (expecting next p c b) line.now) result into.new }
{
    match next {
        Next::Event => Some(plain(event(line)?)),
        Next::Inside(awaited) => inside(awaited, line, into),
    }
}

// A line of the settings or of an event.
fn inside(awaited: Awaited, line: &[u8], into: &mut [u8]) -> Option<Told>
    requires { (length line.now ≤ 256) × (length into.old ≡ 128) }
    ensures { Says (λ p c b. lines.held (awaiting awaited p c b) line.now) result into.new }
{
    match awaited {
        Awaited::Power => Some(plain(power(line)?)),
        Awaited::Components => number(line, b"components=", Line::Components),
        Awaited::Volume => number(line, b"volume=", Line::Volume),
        Awaited::Nonce => octets(line, b"nonce=", Line::Brings(Event::Asks(Ask::Read)), into),
        Awaited::Data => octets(line, b"data=", Line::Keeps(Awaited::Reach), into),
        Awaited::Reach => reach(line),
        Awaited::Tenths => number(line, b"tenths=", Line::Brings(Event::Elapsed)),
        Awaited::On => Some(plain(on(line)?)),
        Awaited::Level => number(line, b"level=", Line::Brings(Event::Sets(Setting::Battery))),
        Awaited::KeyBytes => octets(
            line,
            b"bytes=",
            Line::Brings(Event::Sets(Setting::Key)),
            into,
        ),
    }
}

// A line that is whole by itself.
fn plain(line: Line) -> Told
    ensures { result ≡ record { line = line; number = 0; count = 0 } }
{
    Told {
        line,
        number: 0,
        count: 0,
    }
}

fn power(line: &[u8]) -> Option<Line>
    ensures { Means (lines.held lines.power line.now) result }
{
    let value = line.strip_prefix(b"power=")?;
    Some(Line::Power(reading::signed(value)?))
}

fn on(line: &[u8]) -> Option<Line>
    ensures { Means (lines.held lines.on line.now) result }
{
    let value = line.strip_prefix(b"on=")?;
    Some(Line::Brings(Event::Sets(Setting::Pairing(reading::flag(value)?))))
}

// The parts in reach, one byte behind its key: with the bytes kept they make a write.
fn reach(line: &[u8]) -> Option<Told>
    ensures { SaysNumber (λ p c b. lines.held (lines.reach b) line.now) result }
{
    let value = line.strip_prefix(b"reach=")?;
    Some(Told {
        line: Line::Brings(Event::Asks(Ask::Write)),
        number: u32::from(hex_reading::one_byte(value)?),
        count: 0,
    })
}

// The number behind a key, and what it is for.
fn number(line: &[u8], key: &[u8], means: Line) -> Option<Told>
    ensures { SaysNumber (λ p c b. value_line key.now unsigned_of (λ n. line_of means p c b n []) line.now) result }
{
    let value = line.strip_prefix(key)?;
    Some(Told {
        line: means,
        number: reading::unsigned(value)?,
        count: 0,
    })
}

// The bytes behind a key, and what they are for. A line has at most 256 bytes, so that half of them fit.
fn octets(line: &[u8], key: &[u8], means: Line, into: &mut [u8]) -> Option<Told>
    requires { (length line.now ≤ 256) × (length into.old ≡ 128) }
    ensures { Says (λ p c b. value_line key.now bytes_of (line_of means p c b 0) line.now) result into.new }
{
    let value = line.strip_prefix(key)?;
    Some(Told {
        line: means,
        number: 0,
        count: hex_reading::unhex(value, into)?,
    })
}

// An event's name behind its key.
fn event(line: &[u8]) -> Option<Line>
    ensures { Means (lines.taken lines.event line.now) result }
{
    named(line.strip_prefix(b"event=")?)
}

// What a name asks for: a line of its own, or the event at once.
#[tactic(auto, using(laws::proofs::Same::pointwise_same), unfolding(crate::specs::Lines::named))]
fn named(name: &[u8]) -> Option<Line>
    ensures { Means (lines.named name.now) result }
{
    if name == b"read".as_slice() {
        Some(Line::Follows(Awaited::Nonce))
    } else if name == b"write".as_slice() {
        Some(Line::Follows(Awaited::Data))
    } else if name == b"elapsed".as_slice() {
        Some(Line::Follows(Awaited::Tenths))
    } else if name == b"button".as_slice() {
        Some(Line::Brings(Event::Asks(Ask::Button)))
    } else if name == b"pairing".as_slice() {
        Some(Line::Follows(Awaited::On))
    } else if name == b"battery".as_slice() {
        Some(Line::Follows(Awaited::Level))
    } else if name == b"key".as_slice() {
        Some(Line::Follows(Awaited::KeyBytes))
    } else if name == b"disconnect".as_slice() {
        Some(Line::Brings(Event::Sets(Setting::Disconnect)))
    } else if name == b"frame".as_slice() {
        Some(Line::Brings(Event::Asks(Ask::Frame)))
    } else {
        None
    }
}
