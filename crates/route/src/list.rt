// The plain answer over a lent list: rows of addresses, lengths and hops, in any order.
//
// A list is tested whole before it answers: its size, then entry by entry the entry's own numbers
// and whether an earlier entry has its prefix. A filter is asked first, so that earlier entries are
// hardly ever compared. The longest match is found from the list's end.
//
// The check of a longer list is a function of its own in the compiled code, so that its filters are in no
// frame of a short one.
ghost use Rattle.std.specs.Prelude.{◌≡◌, ◌<◌, ◌≤◌, List, [], length, IfOk, IfErr};
ghost use Rattle.route.specs.Rule.{Route, improved, longest};
ghost use Rattle.route.specs.Refusals.{value, unless_fault, fine, fault};
ghost use Rattle.route.specs.Lists.{routes, same_prefix, list_fault, rows_size_fault, list_check, list_lookup, EqualRows};
ghost use Rattle.route.specs.Shown.{number, place, route_of, verdict_of, counted, shown};
ghost use Rattle.route.specs.Loops.{entry_of, match_of};

use crate::filter::Filter;
use crate::{Hop, Length, MAX_ROUTES, Prefix, Refusal, Route, rule};

// A list of no more entries is short: comparing them all takes less time than clearing a filter.
const SHORT: usize = 8;

// A list in three rows of one length: each entry's address, prefix length and hop.
#[derive(Clone, Copy)]
pub struct List<'a> {
    pub addresses: &'a [u32],
    pub lengths: &'a [u32],
    pub hops: &'a [u32],
    ghost equal: { EqualRows addresses.now lengths.now hops.now },
}

// Tests a list: the number of entries, or refusal 8 for unequal rows or more than 4,096 entries,
// then entry by entry 1, 2, 3 of the entry and 4 where an earlier entry has its prefix.
pub fn check(addresses: &[u32], lengths: &[u32], hops: &[u32]) -> Result<usize, Refusal>
    ensures { counted result ≡ list_check 32 addresses.now lengths.now hops.now }
{
    let list = List::new(addresses, lengths, hops)?;
    list.check()?;
    Ok(list.len())
}

// The next hop of the longest prefix that matches q; refusals as of `check`.
pub fn lookup(
    addresses: &[u32],
    lengths: &[u32],
    hops: &[u32],
    q: u32,
) -> Result<Option<Hop>, Refusal>
    ensures { shown result ≡ list_lookup 32 addresses.now lengths.now hops.now q }
{
    let list = List::new(addresses, lengths, hops)?;
    list.check()?;
    match list.longest_match(q) {
        Some(r) => Ok(Some(r.hop)),
        None => Ok(None),
    }
}

impl<'a> List<'a> {
    ghost use Rattle.route.specs.Entries.{routes_of};

    // The list that three rows are, or refusal 8: unequal rows, or too many entries.
    pub fn new(
        addresses: &'a [u32],
        lengths: &'a [u32],
        hops: &'a [u32],
    ) -> Result<List<'a>, Refusal>
        ensures ok { IfOk result (λ list. (fine ≡ rows_size_fault addresses.now lengths.now hops.now) × (list.addresses.now ≡ addresses.now) × (list.lengths.now ≡ lengths.now) × (list.hops.now ≡ hops.now)) }
        ensures err { IfErr result (λ r. fault (number r) (place r) ≡ rows_size_fault addresses.now lengths.now hops.now) }
    {
        let n = addresses.len();
        if !((n == lengths.len()) & (n == hops.len()) & (n <= MAX_ROUTES)) {
            return Err(Refusal::Size);
        }
        Ok(List {
            addresses,
            lengths,
            hops,
        })
    }

    pub fn len(&self) -> usize
        ensures addresses { result ≡ length self.now.addresses.now }
        ensures routes { result ≡ length (routes_of self.now) }
    {
        self.addresses.len()
    }

    // Entry i.
    pub fn entry(&self, i: usize) -> Route
        requires { i < length self.now.addresses.now }
        ensures { route_of result ≡ entry_of (routes_of self.now) i }
    {
        let prefix = Prefix {
            address: self.addresses[i],
            length: Length(self.lengths[i]),
        };
        Route {
            prefix,
            hop: Hop(self.hops[i]),
        }
    }

    // Entry by entry the refusals 1 to 4, with a filter of so many words. Where it says that an entry's
    // prefix was not noted, no earlier entry has it.
    fn check_with<const WORDS: usize>(&self, word: u64) -> Result<(), Refusal>
        requires { (0 < WORDS) × (WORDS ≤ 4096) }
        ensures { verdict_of result ≡ list_fault 32 0 [] (routes_of self.now) }
    {
        let mut filter = Filter::<WORDS>::of(word);
        let mut twice = None;
        'entries: for i in 0..self.len() {
            let r = self.entry(i);
            rule::entry_check(i, r)?;
            if filter.note(r.prefix) {
                for j in 0..i {
                    if has_prefix(r, self.entry(j)) {
                        twice = Some(i);
                        break 'entries;
                    }
                }
            }
        }
        match twice {
            Some(i) => Err(Refusal::Twice(i)),
            None => Ok(()),
        }
    }

    // The same with a filter whose size goes with the list's, since it is cleared at every call.
    #[inline(never)]
    fn long_check(&self) -> Result<(), Refusal>
        ensures { verdict_of result ≡ list_fault 32 0 [] (routes_of self.now) }
    {
        match self.len() {
            0..=64 => self.check_with::<16>(0),
            65..=1024 => self.check_with::<512>(0),
            _ => self.check_with::<4096>(0),
        }
    }

    // The same. In a short list all earlier entries are compared: every bit of its filter is set.
    pub fn check(&self) -> Result<(), Refusal>
        ensures { verdict_of result ≡ list_fault 32 0 [] (routes_of self.now) }
    {
        if self.len() <= SHORT {
            return self.check_with::<1>(u64::MAX);
        }
        self.long_check()
    }

    // The longest match, found from the list's end.
    fn longest_match(&self, q: u32) -> Option<Route>
        ensures { match_of result ≡ longest 32 (routes_of self.now) q }
    {
        let mut best = None;
        for i in (0..self.len()).rev() {
            let r = self.entry(i);
            best = improve(best, rule::covers(r.prefix, q), r);
        }
        best
    }
}

// Whether two routes have one prefix.
fn has_prefix(r: Route, s: Route) -> bool
    ensures { result ≡ same_prefix (route_of r) (route_of s) }
{
    r.prefix == s.prefix
}

// The longest match of the entries after this one, or this one where it matches and is longer.
fn improve(m: Option<Route>, hit: bool, r: Route) -> Option<Route>
    ensures { match_of result ≡ improved hit (route_of r) (match_of m) }
{
    match m {
        _ if !hit => m,
        Some(o) if r.prefix.length <= o.prefix.length => m,
        _ => Some(r),
    }
}
