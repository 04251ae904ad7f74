#![tactic(auto)]
// The request 0x00, which any account key may make: the parameters of the beacon. It is judged on the unit with its nonce spent.
ghost use Rattle.std.specs.Prelude.{◌≡◌, true};
ghost use Rattle.unit.specs.WellFormed.{power_legal};
ghost use Rattle.wire.specs.Shape.{request};
ghost use Rattle.authentication.specs.Promises.{Ready, Judges};
ghost use Rattle.parameter_read.specs.Parameters.{wire_byte, parameters as parameters_of, read_parameters};

use authentication::Verdict;
use sizes::BLOCK_SIZE;
use unit::{Refusal, Settings, TagUnit};
use wire::Head;

// SECP160R1.
const CURVE: u8 = 0x00;

// Calibrated power as one signed byte, two's complement.
pub fn wire_byte(power: i32) -> u8
    requires { power_legal power ≡ true }
    ensures { result ≡ wire_byte power }
{
    if power < 0 {
        (power + 256) as u8
    } else {
        power as u8
    }
}

// What 0x00 gives before encryption.
fn plain(s: Settings, seconds: u32) -> [u8; BLOCK_SIZE]
    requires { power_legal s.power ≡ true }
    ensures { result ≡ parameters_of s seconds }
{
    let first = [wire_byte(s.power)];
    let clock = seconds.to_be_bytes();
    let last = [CURVE, s.components, s.selectable];
    let mut block = [0; BLOCK_SIZE];
    octets::put(&mut block, 0, &first);
    octets::put(&mut block, 1, &clock);
    octets::put(&mut block, 5, &last);
    block
}

// 0x00: the parameters, encrypted by the account key used, which is then the most recently used.
pub fn read_parameters(u: TagUnit, h: Head, additional: &[u8]) -> Result<Verdict, Refusal>
    requires { Ready u h.size additional.now }
    ensures { Judges u h.id (read_parameters u (request h additional.now)) result }
{
    let signer = signers::used_key(u, h, additional).ok_or(Refusal::NotAuthenticated)?;
    let key = signers::key_at(u.accounts, signer.place);
    let block = primitives::encrypt(key, plain(u.settings, u.clock.seconds));
    let after = TagUnit {
        accounts: account_keys::used(u.accounts, signer.place),
        ..u
    };
    Ok(answering::granted(after, signer.key, &block))
}
