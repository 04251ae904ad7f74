// Adding an account key.
ghost use Rattle.std.specs.Prelude.{◌≡◌, true};
ghost use Rattle.unit.specs.Outcome.{Completes};
ghost use Rattle.tables.specs.Rows.{among};
ghost use Rattle.unit.specs.WellFormed.{accounts_legal, held_keys};
ghost use Rattle.key_calls.specs.Keys.{keeping};

use sizes::ACCOUNT_KEY_SIZE;
use unit::{Accounts, Refusal, Step, TagUnit, end};

// Whether a key is held.
fn held(a: Accounts, key: &[u8]) -> bool
    requires { accounts_legal a ≡ true }
    ensures { result ≡ among key.now (held_keys a) }
{
    tables::among(key, &a.keys, ACCOUNT_KEY_SIZE, 0, a.count)
}

// Adds a key to a well-formed unit.
pub fn added(u: TagUnit, key: &[u8]) -> Step
    requires { accounts_legal u.accounts ≡ true }
    ensures { Completes (keeping key.now u) result.unit result.reply }
{
    if key.len() != ACCOUNT_KEY_SIZE {
        return end::refuse(u, Refusal::WrongAccountKey);
    }
    if held(u.accounts, key) {
        return end::accept(u, 0);
    }
    let accounts = account_keys::added(u.accounts, key);
    end::accept(TagUnit { accounts, ..u }, 0)
}
