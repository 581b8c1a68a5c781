// The order of prefixes, by address, then by length, as numbers.
ghost use Rattle.std.specs.Prelude.{◌≡◌};
ghost use Rattle.route.specs.PrefixOrder.{key_of};

use crate::Prefix;

// A prefix as one number: where lengths are below 64, numbers come as their prefixes do.
pub fn key_of(p: Prefix) -> u64
    ensures { result ≡ key_of p.address p.length.0 }
{
    (p.address as u64) * 64 + (p.length.0 as u64)
}
