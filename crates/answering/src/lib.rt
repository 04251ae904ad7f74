#![tactic(auto)]
// The verdict on a request that is granted, and the end of a request: the one place where the answers of the nine requests are signed and written.
ghost use Rattle.std.specs.Prelude.{◌≡◌, List, ℕ, ◌≤◌, length, Ok, Err};
ghost use Rattle.sizes.specs.Sizes.{most_data, answer_room};
ghost use Rattle.unit.specs.Outcome.{Answers};
ghost use Rattle.unit.specs.declared.TagUnit.{TagUnit};
ghost use Rattle.authentication.specs.Judgement.{Judgement, last_nonce, concluded};
ghost use Rattle.authentication.specs.Promises.{Grants, Judges};

use authentication::Verdict;
use primitives::Keyed;
use sizes::{MOST_DATA, NONCE_SIZE};
use unit::{Refusal, Step, TagUnit, end};

// Granted to a key, with these data in the answer.
pub fn granted(unit: TagUnit, key: Keyed, data: &[u8]) -> Verdict
    requires { length «data».now ≤ most_data }
    ensures { Grants unit key «data».now result }
{
    let mut payload = [0; MOST_DATA];
    octets::put(&mut payload, 0, data);
    Verdict {
        unit,
        key,
        size: data.len(),
        payload,
    }
}

// Ends a request that was granted by a judgement on a unit with this nonce: writes the answer, signed with that nonce.
pub fn conclude(v: Verdict, nonce: [u8; NONCE_SIZE], id: u8, answer: &mut [u8]) -> Step
    requires { answer_room ≤ length answer.old }
    ensures { (u : TagUnit) (j : Judgement) → nonce ≡ last_nonce u → Judges u id j (Ok v) → Answers (concluded u j) result.unit result.reply answer.old answer.new }
{
    let data = &v.payload[..v.size];
    let count = answers::sign(v.key, nonce, id, data, answer);
    end::accept(v.unit, count)
}

// Ends a request that was denied by a judgement on a unit: refuses, with that unit, and whatever bytes are lent stay as they are.
pub fn deny(u: TagUnit, refusal: Refusal) -> Step
    ensures { (id : ℕ) (j : Judgement) (lent : List ℕ) → Judges u id j (Err refusal) → Answers (concluded u j) result.unit result.reply lent lent }
{
    end::refuse(u, refusal)
}
