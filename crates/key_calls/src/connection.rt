// The end of a connection: the identity key that waits comes into force.
ghost use Rattle.std.specs.Prelude.{◌≡◌, cond};
ghost use Rattle.key_calls.specs.Keys.{brought_in};

use unit::{TagUnit, change};

// The unit with the waiting key in force, silent.
fn brought_in(u: TagUnit) -> TagUnit
    ensures { result ≡ brought_in u }
{
    TagUnit {
        identity: u.waiting,
        waiting: change::no_identity(),
        ..change::silenced(u)
    }
}

// The unit after a connection.
pub fn ended(u: TagUnit) -> TagUnit
    ensures { result ≡ cond u.waiting.held (brought_in u) u }
{
    if u.waiting.held { brought_in(u) } else { u }
}
