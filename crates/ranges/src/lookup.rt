// The lookup in lent ranges: one pass over the rows, without an exit, tests the rules behind the first
// range and counts the starts at or below the address. Starts rise, so the range that is sought stands
// so many places behind the first. Where a rule is broken, a pass range by range finds the place.
ghost use Rattle.std.specs.Prelude.{◌≡◌, ◌+◌, ◌<◌, ◌≤◌, length, IfOk, IfErr};
ghost use Rattle.route.specs.Refusals.{fine, fault};
ghost use Rattle.route.specs.Shown.{number, place, verdict_of, shown};
ghost use Rattle.ranges.specs.Ranges.{max_ranges, breaks, first_breaks, size_fault, range_lookup, table_lookup, ranges};
ghost use Rattle.ranges.specs.Shown.{range_of};
ghost use Rattle.ranges.specs.Loops.{range_at, behind_fault, behind_answer};

use crate::MAX_RANGES;
use crate::words::Range;
use route::{Hop, MAX_HOP, Refusal};

// Ranges in two rows of one length: where each starts, and its hop.
#[derive(Clone, Copy)]
struct Ranges<'a> {
    starts: &'a [u32],
    hops: &'a [u32],
    ghost equal: { length starts.now ≡ length hops.now },
    ghost few: { length starts.now ≤ max_ranges },
}

// Whether the first range of a table breaks a rule.
fn first_breaks(r: Range) -> bool
    ensures { result ≡ first_breaks (range_of r) }
{
    (r.start != 0) | (MAX_HOP < Hop::number_of(r.hop))
}

// Whether a range breaks a rule behind the range p. By its hop's number, since `Some(Hop(0))` shows as
// none does.
fn breaks(p: Range, r: Range) -> bool
    ensures { result ≡ breaks (range_of p) (range_of r) }
{
    let hop = Hop::number_of(r.hop);
    (r.start <= p.start) | (hop == Hop::number_of(p.hop)) | (MAX_HOP < hop)
}

impl<'a> Ranges<'a> {
    // The ranges that two rows say, or refusal 8: unequal rows, or too many ranges.
    fn new(starts: &'a [u32], hops: &'a [u32]) -> Result<Ranges<'a>, Refusal>
        ensures ok { IfOk result (λ t. (fine ≡ size_fault starts.now hops.now) × (t.starts.now ≡ starts.now) × (t.hops.now ≡ hops.now)) }
        ensures err { IfErr result (λ r. fault (number r) (place r) ≡ size_fault starts.now hops.now) }
    {
        let n = starts.len();
        if !((n == hops.len()) & (n <= MAX_RANGES)) {
            return Err(Refusal::Size);
        }
        Ok(Ranges { starts, hops })
    }

    fn len(&self) -> usize
        ensures { result ≡ length self.now.starts.now }
    {
        self.starts.len()
    }

    // Range i.
    fn range(&self, i: usize) -> Range
        requires { i < length self.now.starts.now }
        ensures { range_of result ≡ range_at self.now.starts.now self.now.hops.now i }
    {
        Range {
            start: self.starts[i],
            hop: Hop::new(self.hops[i]),
        }
    }

    // Whether the range behind range i breaks a rule.
    fn breaks_behind(&self, i: usize) -> bool
        requires { i + 1 < length self.now.starts.now }
        ensures { result ≡ breaks (range_at self.now.starts.now self.now.hops.now i) (range_at self.now.starts.now self.now.hops.now (i + 1)) }
    {
        breaks(self.range(i), self.range(i + 1))
    }

    // Range by range refusal 7 of those behind the first.
    #[cold]
    fn check_behind(&self) -> Result<(), Refusal>
        requires { 0 < length self.now.starts.now }
        ensures { verdict_of result ≡ behind_fault self.now.starts.now self.now.hops.now 0 }
    {
        for i in 0..self.len() - 1 {
            if self.breaks_behind(i) {
                return Err(Refusal::Image(i + 1));
            }
        }
        Ok(())
    }

    // The ranges behind the first: each is tested, and those that start at or below q are counted.
    fn look_behind(&self, q: u32) -> Result<Option<Hop>, Refusal>
        requires { 0 < length self.now.starts.now }
        ensures { shown result ≡ behind_answer self.now.starts.now self.now.hops.now 0 q }
    {
        let mut bad = false;
        let mut below = 0u32;
        for i in 0..self.len() - 1 {
            bad |= self.breaks_behind(i);
            below += (self.starts[i + 1] <= q) as u32;
        }
        if bad {
            self.check_behind()?;
        }
        Ok(Hop::new(self.hops[below as usize]))
    }

    // The hop of the last range that starts at or below q, or refusal 7.
    fn lookup(&self, q: u32) -> Result<Option<Hop>, Refusal>
        ensures { shown result ≡ table_lookup (ranges self.now.starts.now self.now.hops.now) q }
    {
        if self.len() == 0 {
            return Err(Refusal::Image(0));
        }
        if first_breaks(self.range(0)) {
            return Err(Refusal::Image(0));
        }
        self.look_behind(q)
    }
}

// Looks q up in a range table: refusal 8 or 7, else the hop of the last range that starts at or
// below q.
pub fn lookup(starts: &[u32], range_hops: &[u32], q: u32) -> Result<Option<Hop>, Refusal>
    ensures { shown result ≡ range_lookup starts.now range_hops.now q }
{
    let ranges = Ranges::new(starts, range_hops)?;
    ranges.lookup(q)
}
