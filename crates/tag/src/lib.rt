#![tactic(auto)]
// The calls of the tag. A unit goes in by value and comes back with the call's end. Any bytes and any record may be handed in: each call
// ends with a result or with one refusal, in the order of its comment. A write refused with 0x80, 0x81 or 0x82 spends the nonce; any
// other refusal leaves the unit as it was; no refusal writes a lent byte.
ghost use Rattle.std.specs.Prelude.{◌≡◌, length};
ghost use Rattle.unit.specs.Outcome.{Answers, Completes};
ghost use Rattle.time.specs.Passing.{Passes};
ghost use Rattle.sleep.specs.Sleep.{Sleeps};
ghost use Rattle.settings_calls.specs.Settings.{new_unit};
ghost use Rattle.tag.specs.Calls.{call, elapsed as elapsed_of};
ghost use Rattle.tag.specs.Guards.{formed_guard, ready_guard};
ghost use Rattle.tag.specs.Calls as of;

use key_calls::{accounts, connection};
use settings_calls::{battery, pairing, settings};
use sizes::ANSWER_ROOM;
use time::Passed;
use unit::{Refusal, Step, TagUnit, end};

// The guard of every call: refusal 2 for a unit that is not well formed. The unit is lent, so that no copy of it stands on the stack for the guards.
fn formed(u: &TagUnit) -> Result<(), Refusal>
    ensures { result ≡ formed_guard u.now }
{
    if well_formed::well_formed(*u) {
        Ok(())
    } else {
        Err(Refusal::NotWellFormed)
    }
}

// The guards of a call with answer bytes: refusal 6 for too few of them, and then 2.
fn ready(u: &TagUnit, room: usize) -> Result<(), Refusal>
    ensures { result ≡ ready_guard room u.now }
{
    if room < ANSWER_ROOM {
        return Err(Refusal::NoRoom);
    }
    formed(u)
}

// A new unit, fresh, with its settings. Refusals: 1 for settings out of range; the record given back is then not well formed.
pub fn new_unit(power: i32, components: u32, selectable: u32) -> Step
    ensures { Completes (new_unit power components selectable) result.unit result.reply }
{
    settings::new_unit(power, components, selectable)
}

// Read: issues the lent nonce, and answers with 0x01 and the nonce. Refusals: 6, 2, and 3 for a nonce that is not of eight bytes or is one of the
// last sixteen issued.
pub fn read(u: TagUnit, lent: &[u8], answer: &mut [u8]) -> Step
    ensures { Answers (call (of.read lent.now) (length answer.old) u) result.unit result.reply answer.old answer.new }
{
    match ready(&u, answer.len()) {
        Ok(()) => read_call::issued(u, lent, answer),
        Err(refusal) => end::refuse(u, refusal),
    }
}

// Write: a request of the phone's, with the mask of the parts that can be reached now. Refusals: 6, 2, 1 for a mask with a bit outside the ringable
// mask, and then, with the nonce spent, 0x81 for its shape, 0x80, 0x81 for its values, 0x82.
pub fn write(u: TagUnit, w: &[u8], reach: u32, answer: &mut [u8]) -> Step
    ensures { Answers (call (of.write (record { bytes = w.now; reach = reach })) (length answer.old) u) result.unit result.reply answer.old answer.new }
{
    match ready(&u, answer.len()) {
        Ok(()) => requests::write(u, w, reach, answer),
        Err(refusal) => end::refuse(u, refusal),
    }
}

// Button: stops a ring, with a notice; while silent gives consent. Refusals: 6, 2.
pub fn button(u: TagUnit, answer: &mut [u8]) -> Step
    ensures { Answers (call of.button (length answer.old) u) result.unit result.reply answer.old answer.new }
{
    match ready(&u, answer.len()) {
        Ok(()) => press_call::pressed(u, answer),
        Err(refusal) => end::refuse(u, refusal),
    }
}

// Time: any number of tenths. A ring that ends gives its notice and the tenth at which it ended. Refusals: 6, 2.
pub fn elapsed(u: TagUnit, tenths: u32, answer: &mut [u8]) -> Passed
    ensures { Passes (elapsed_of tenths (length answer.old) u) result.unit result.reply result.ended answer.old answer.new }
{
    match ready(&u, answer.len()) {
        Ok(()) => time::elapse(u, tenths, answer),
        Err(refusal) => time::refused(u, refusal),
    }
}

// How long the unit may sleep: the tenths until the next thing that time alone would do, a ring's end, consent's end, a new window or the seconds' return
// to 0. From 1 to 10,240. The unit stays as it is. Refusal: 2.
pub fn sleep_until(u: TagUnit) -> Result<u32, Refusal>
    ensures { Sleeps u result }
{
    formed(&u)?;
    Ok(sleep::soonest(u))
}

// Pairing mode on or off. Refusal: 2.
pub fn pairing(u: TagUnit, on: bool) -> Step
    ensures { Completes (call (of.pairing on) 0 u) result.unit result.reply }
{
    match formed(&u) {
        Ok(()) => pairing::turned(u, on),
        Err(refusal) => end::refuse(u, refusal),
    }
}

// The battery level, 0 to 3. Refusals: 2, 1.
pub fn battery(u: TagUnit, level: u32) -> Step
    ensures { Completes (call (of.battery level) 0 u) result.unit result.reply }
{
    match formed(&u) {
        Ok(()) => battery::told(u, level),
        Err(refusal) => end::refuse(u, refusal),
    }
}

// Adds an account key, which is then the most recently used; one already held changes nothing. In a full table the least recently used that is not
// the owner's goes. Refusals: 2, and 4 for another size than 16 bytes.
pub fn account_key(u: TagUnit, key: &[u8]) -> Step
    ensures { Completes (call (of.account_key key.now) 0 u) result.unit result.reply }
{
    match formed(&u) {
        Ok(()) => accounts::added(u, key),
        Err(refusal) => end::refuse(u, refusal),
    }
}

// The phone has hung up: an identity key that waits comes into force, and a ring ends without a notice. Without one nothing changes. Refusal: 2.
pub fn disconnect(u: TagUnit) -> Step
    ensures { Completes (call of.disconnect 0 u) result.unit result.reply }
{
    match formed(&u) {
        Ok(()) => end::accept(connection::ended(u), 0),
        Err(refusal) => end::refuse(u, refusal),
    }
}

// The advertised frame, 28 or 29 bytes, of the identifier of the current window under the identity key in force. It takes a multiple on the curve. Refusals: 6,
// 2, 5 without such a key or where r is 0.
pub fn advertise(u: TagUnit, answer: &mut [u8]) -> Step
    ensures { Answers (call of.frame (length answer.old) u) result.unit result.reply answer.old answer.new }
{
    match ready(&u, answer.len()) {
        Ok(()) => advertising::shown(u, answer),
        Err(refusal) => end::refuse(u, refusal),
    }
}
