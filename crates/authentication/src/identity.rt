// Keys made from the identity key, and proofs of it.
ghost use Rattle.std.specs.Prelude.{◌≡◌};
ghost use Rattle.primitives.specs.Standards.{keyed_by};
ghost use Rattle.wire.specs.Signing.{derived_key};
ghost use Rattle.authentication.specs.Judgement.{proves as is_proof};

use primitives::Keyed;
use unit::TagUnit;
use wire::signing;

// The recovery, ring or protection key of the identity key in force, made ready.
pub fn derived_key(u: TagUnit, number: u8) -> Keyed
    ensures { result ≡ keyed_by (derived_key number u.identity.bytes) }
{
    let key = signing::derived_key(number, u.identity.bytes);
    primitives::ready_key(&key)
}

// Whether bytes prove the identity key in force.
pub fn proves(u: TagUnit, proof: &[u8]) -> bool
    ensures { result ≡ is_proof u proof.now }
{
    let made = signing::key_proof(u.identity.bytes, u.nonces.newest);
    octets::same(&made, proof)
}
