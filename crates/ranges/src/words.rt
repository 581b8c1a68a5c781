// Routes as 64-bit keys, which sort as their first parts do; ranges.
ghost use Rattle.std.specs.Prelude.{◌≡◌};
ghost use Rattle.route.specs.Shown.{route_of};
ghost use Rattle.ranges.specs.Keys.{key_of, route_in};

use route::{Hop, Length, Prefix, Route, order};

// A range: where it starts, and its hop.
#[derive(Clone, Copy, PartialEq, Eq)]
pub struct Range {
    pub start: u32,
    pub hop: Option<Hop>,
}

// A route as one number, so that two keys are compared at once. Keys come as their addresses do, then as their lengths and their hops.
#[derive(Clone, Copy, PartialEq, Eq, PartialOrd, Ord)]
pub(crate) struct Key(pub u64);

impl From<Route> for Key {
    ghost from_gives = { λ r k. k ≡ key_of (route_of r) };

    fn from(r: Route) -> Key {
        Key(order::key_of(r.prefix) * 65536 + (r.hop.0 as u64))
    }
}

impl From<Key> for Route {
    ghost from_gives = { λ k r. route_of r ≡ route_in k };

    fn from(k: Key) -> Route {
        let prefix = Prefix {
            address: (k.0 / 4194304 % 4294967296) as u32,
            length: Length((k.0 / 65536 % 64) as u32),
        };
        Route {
            prefix,
            hop: Hop((k.0 % 65536) as u32),
        }
    }
}
