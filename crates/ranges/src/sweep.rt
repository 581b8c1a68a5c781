// The sweep: the merged ranges of prefixes that are sorted by address, then by length.
//
// A prefix is open from its address up to its end. Open prefixes are a stack: of those that match an
// address the one opened last is the longest. The stack stands in the front of the row of keys, whose
// keys have been read.
ghost use Rattle.std.specs.Prelude.{◌≡◌, ◌+◌, ◌-◌, ◌*◌, ◌<◌, ◌≤◌, length, drop, map, IfSome, IfNone};
ghost use Rattle.route.specs.Shown.{hop_number, route_of};
ghost use Rattle.ranges.specs.Ranges.{past_end};
ghost use Rattle.ranges.specs.Keys.{key_at, routes_in};
ghost use Rattle.ranges.specs.Sweeps.{ends_with, open_hop, extended, advanced, ends_by, closed_by, opening, swept_ranges};

use crate::words::{Key, Range};
use route::rule::span_of;
use route::{Hop, Route};
use std::num::wrapping_add_u32;

// Where a sweep is: how many prefixes are open, the address up to which ranges are made, how many
// are made.
#[derive(Clone, Copy)]
pub struct Progress {
    pub opened: usize,
    pub reached: u32,
    pub made: usize,
}

// A sweep over keys: how many are read, and where it is.
//
// These numbers stand beside the rows: a vector in fixed memory has its size in its type, so that the sweep would be made once for
// each size of the scratch, and the open keys take the front of the row that they are read from.
#[derive(Drop)]
pub(crate) struct Sweep<'a> {
    keys: &'a mut [Key],
    ranges: &'a mut [Range],
    read: usize,
    at: Progress,
    ghost stack: { (at.opened ≤ read) × (read ≤ length keys.now) },
    ghost room: { at.made + at.opened + 2 * (length keys.now - read) ≤ length ranges.now },
}

// One past the last address of a prefix; past the last address of all it is 0.
fn past_end(r: Route) -> u32
    ensures { result ≡ past_end 32 (route_of r) }
{
    let span = span_of(r.prefix.length);
    let last = wrapping_add_u32(r.prefix.address, (span - 1) as u32);
    wrapping_add_u32(last, 1)
}

// Whether a prefix ends at x or before: where the one past its end is 0 it never does.
fn ends_by(r: Route, x: u32) -> bool
    ensures { result ≡ ends_by 32 x (route_of r) }
{
    let past = past_end(r);
    !(past == 0) & (past <= x)
}

// A method asks for room for one range more, which the last one uses up: so it is no ghost of the sweep.
impl<'a> Sweep<'a> {
    ghost use Rattle.ranges.specs.Shown.{range_of};
    ghost use Rattle.ranges.specs.Sweeping.{sweep_of, HasRoom, Starts, SameKeys};

    // A sweep over these keys.
    pub(crate) fn new(keys: &'a mut [Key], ranges: &'a mut [Range]) -> Sweep<'a>
        requires { 2 * length keys.old < length ranges.old }
        ensures starts { Starts result }
        ensures keys { result.keys.now ≡ keys.old }
    {
        Sweep {
            keys,
            ranges,
            read: 0,
            at: Progress {
                opened: 0,
                reached: 0,
                made: 0,
            },
        }
    }

    // The route whose prefix was opened last.
    fn last(&self) -> Option<Route>
        ensures some { IfSome result (λ r. (0 < self.now.at.opened) × (route_of r ≡ key_at self.now.keys.now (self.now.at.opened - 1))) }
        ensures none { IfNone result (self.now.at.opened ≡ 0) }
    {
        if self.at.opened == 0 {
            return None;
        }
        Some(Route::from(self.keys[self.at.opened - 1]))
    }

    // The hop of the prefix opened last, none where none is open.
    fn open_hop(&self) -> Option<Hop>
        ensures { hop_number result ≡ open_hop (sweep_of self.now).opened }
    {
        self.last().map(|r| r.hop)
    }

    // Whether the last of the ranges has this hop. By its number, since `Some(Hop(0))` shows as none does.
    fn ends_with(&self, hop: Option<Hop>) -> bool
        ensures { result ≡ ends_with (sweep_of self.now).made (hop_number hop) }
    {
        if self.at.made == 0 {
            return false;
        }
        let last = self.ranges[self.at.made - 1];
        Hop::number_of(last.hop) == Hop::number_of(hop)
    }

    // Makes a range that starts where the sweep is, with the hop of the prefix opened last; none where
    // the last of the ranges has this hop.
    fn extend(&mut self)
        requires { HasRoom self.old }
        ensures made { (sweep_of self.new).made ≡ extended (sweep_of self.old) }
        ensures same { SameKeys self.old self.new }
        ensures rest { (self.new.at.opened ≡ self.old.at.opened) × (self.new.at.reached ≡ self.old.at.reached) × (self.new.at.made ≤ self.old.at.made + 1) }
    {
        let hop = self.open_hop();
        if !self.ends_with(hop) {
            self.ranges[self.at.made] = Range {
                start: self.at.reached,
                hop,
            };
            self.at.made += 1;
        }
    }

    // On to address x: the addresses passed over are a range.
    fn advance(&mut self, x: u32)
        requires { HasRoom self.old }
        ensures sweep { sweep_of self.new ≡ advanced x (sweep_of self.old) }
        ensures same { SameKeys self.old self.new }
        ensures rest { (self.new.at.opened ≡ self.old.at.opened) × (self.new.at.made ≤ self.old.at.made + 1) }
    {
        if self.at.reached < x {
            self.extend();
            self.at.reached = x;
        }
    }

    // Closes the prefixes opened last, while they end by x.
    fn close_by(&mut self, x: u32)
        requires { HasRoom self.old }
        ensures sweep { sweep_of self.new ≡ closed_by 32 x (sweep_of self.old) }
        ensures same { SameKeys self.old self.new }
        ensures rest { (self.new.at.opened ≤ self.old.at.opened) × (self.new.at.made + self.new.at.opened ≤ self.old.at.made + self.old.at.opened) }
    {
        while let Some(r) = self.last() {
            if !ends_by(r, x) {
                return;
            }
            self.advance(past_end(r));
            self.at.opened -= 1;
        }
    }

    // Opens the prefix of the next key: first those that end by its address are closed.
    fn open_next(&mut self)
        requires room { HasRoom self.old }
        requires left { self.old.read < length self.old.keys.now }
        ensures sweep { sweep_of self.new ≡ opening 32 (sweep_of self.old) (key_at self.old.keys.now self.old.read) }
        ensures rest { drop self.new.read self.new.keys.now ≡ drop (self.old.read + 1) self.old.keys.now }
        ensures read { (self.new.read ≡ self.old.read + 1) × (length self.new.keys.now ≡ length self.old.keys.now) × HasRoom self.new }
    {
        let key = self.keys[self.read];
        let next = Route::from(key).prefix.address;
        self.close_by(next);
        self.advance(next);
        self.read += 1;
        self.keys[self.at.opened] = key;
        self.at.opened += 1;
    }

    // The merged ranges of the keys' prefixes. The keys are sorted.
    pub(crate) fn run(mut self) -> &'a [Range]
        requires { Starts self }
        ensures { map range_of result.now ≡ swept_ranges 32 (routes_in self.entry.keys.now) }
    {
        for i in self.read..self.keys.len() {
            self.open_next();
        }
        self.close_by(u32::MAX);
        self.extend();
        let Sweep { ranges, at, .. } = self;
        &ranges[..at.made]
    }
}
