// Fields that are bytes as they are, of any length.
ghost use Rattle.std.specs.Prelude.{◌≡◌, ◌+◌, ◌≤◌, length};
ghost use Rattle.octets.specs.Put.{Puts};
ghost use Rattle.record_fields.specs.Kinds.{plain};

pub fn put_bytes<const N: usize>(to: &mut [u8], at: usize, bytes: [u8; N])
    requires { at + N ≤ length to.old }
    ensures { Puts at N ((plain N).bytes bytes.entry) to.old to.new }
{
    octets::put(to, at, &bytes);
}

pub fn bytes<const N: usize>(from: &[u8], at: usize) -> [u8; N]
    requires { at + N ≤ length from.now }
    ensures { result ≡ (plain N).value from.now at }
{
    octets::array(&from[at..at + N])
}
