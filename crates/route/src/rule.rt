// The rule for one prefix: the addresses that it covers, whether it matches, whether it is valid.
//
// A prefix of length n covers 2^(32-n) addresses, its span, and matches those with its own quotient
// by the span. The span of length 0 is 2^32, so it is a u64: no 32-bit number is shifted by 32.
ghost use Rattle.std.specs.Prelude.{◌≡◌};
ghost use Rattle.route.specs.Rule.{matches};
ghost use Rattle.route.specs.Refusals.{prefix_fault, hop_fault, entry_fault};
ghost use Rattle.route.specs.Shown.{route_of, verdict_of};
ghost use Rattle.route.specs.Loops.{IsSpan};

use crate::{Hop, Length, MAX_HOP, Prefix, Refusal, Route};

// How many addresses a prefix of length n covers; a length over 32 counts as 32.
pub fn span_of(n: Length) -> u64
    ensures { IsSpan 32 n.0 result }
{
    let bits = n.0;
    if bits <= 32 { 1u64 << (32 - bits) } else { 1 }
}

// Whether the prefix matches the address q.
pub fn covers(p: Prefix, q: u32) -> bool
    ensures { result ≡ matches 32 p.address p.length.0 q }
{
    let s = span_of(p.length);
    (q as u64) / s == (p.address as u64) / s
}

// Refusal 1 for a length over 32, then 2 for an address that is no multiple of the span.
pub fn prefix_check(place: usize, p: Prefix) -> Result<(), Refusal>
    ensures { verdict_of result ≡ prefix_fault 32 place p.address p.length.0 }
{
    if Length(32) < p.length {
        return Err(Refusal::Length(place));
    }
    if (p.address as u64) % span_of(p.length) != 0 {
        return Err(Refusal::Address(place));
    }
    Ok(())
}

// Refusal 3 for a hop of 0 or over 65,535.
pub fn hop_check(place: usize, hop: Hop) -> Result<(), Refusal>
    ensures { verdict_of result ≡ hop_fault place hop.0 }
{
    if (hop.0 == 0) | (MAX_HOP < hop.0) {
        return Err(Refusal::Hop(place));
    }
    Ok(())
}

// Refusals 1, 2, 3 of a prefix and its hop, in this order.
pub fn entry_check(place: usize, r: Route) -> Result<(), Refusal>
    ensures { verdict_of result ≡ entry_fault 32 place (route_of r) }
{
    prefix_check(place, r.prefix)?;
    hop_check(place, r.hop)
}
