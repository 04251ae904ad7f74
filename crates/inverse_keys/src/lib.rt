#![tactic(auto)]
// The round keys of the equivalent inverse cipher (FIPS 197, §5.3.5), in words.
ghost use Rattle.std.specs.Prelude.{◌≡◌, ◌+◌, ◌*◌, ◌≤◌, length};
ghost use Rattle.inverse_keys.specs.Keys.{InverseKeys};

use columns::unmixed;

// The key schedule, in its place: the round keys but the first and the last mixed back.
pub fn unmix_keys(nr: usize, keys: &mut [u32])
    requires { (1 ≤ nr) × ((nr ≤ 14) × (length keys.old ≡ 4 * (nr + 1))) }
    ensures { InverseKeys nr keys.old keys.new }
{
    for i in 4..4 * nr {
        keys[i] = unmixed(keys[i]);
    }
}
