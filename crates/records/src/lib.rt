// Update records: what stands at a place of the bytes, and a reader that keeps the bytes and its place.
//
// Any bytes get an answer: a record with the next place, nothing at the end of the input, or a refusal
// with its number and place. A record's next place lies behind the place that was asked for and within
// the input (proofs/Places), so a loop from place to place ends.
#![tactic(auto)]

pub mod numbers;
pub mod reader;

ghost use Rattle.std.specs.Prelude.{◌≡◌, ◌*◌, ◌^◌, ◌≤◌, ◌<◌, leb, ltb, IfOk};
ghost use Rattle.route.specs.Rule.{span};
ghost use Rattle.route.specs.Refusals.{fault_if, hop_fault, address_refusal, length_refusal, kind_refusal};
ghost use Rattle.records.specs.Records.{checked_at, record_at};
ghost use Rattle.records.specs.Shown.{kind_number, reading_of, reading_by, reply};

use numbers::number_at;
use route::{Hop, Length, Prefix, Refusal, Route, rule};

// What a record asks for: the set of a prefix with its next hop, or the removal of one.
#[derive(Clone, Copy)]
pub enum Record {
    Remove(Prefix),
    Set(Route),
}

// A record's kind.
#[derive(Clone, Copy)]
enum Kind {
    Remove,
    Set,
}

// What stands at a place of the bytes. Refusal 8 for a place past them; then each number is read,
// 11 and 12, and checked before the next: 13 the kind, 1 the length, 2 the address, 3 the hop.
pub fn record_at(bytes: &[u8], at: usize) -> Result<Option<(Record, usize)>, Refusal>
    ensures { reply result ≡ record_at 32 bytes.now at }
{
    if bytes.len() < at {
        return Err(Refusal::Size);
    }
    if at == bytes.len() {
        return Ok(None);
    }
    let (kind, next) = kind_at(bytes, at)?;
    let (length, next) = length_at(bytes, next)?;
    let (quotient, next) = quotient_at(bytes, next, length)?;
    let prefix = Prefix {
        address: address_of(quotient, length),
        length,
    };
    match kind {
        Kind::Remove => Ok(Some((Record::Remove(prefix), next))),
        Kind::Set => {
            let (hop, next) = hop_at(bytes, next)?;
            Ok(Some((Record::Set(Route { prefix, hop }), next)))
        }
    }
}

// Each part is read at a place and answers the next one: a `Reader`, which keeps its place at a refusal, would be
// copied at each part.
//
// The kind at a place.
fn kind_at(bytes: &[u8], at: usize) -> Result<(Kind, usize), Refusal>
    ensures { reading_by kind_number result ≡ checked_at bytes.now at (λ n. fault_if (ltb 1 n) kind_refusal at) }
{
    match number_at(bytes, at)? {
        (0, next) => Ok((Kind::Remove, next)),
        (1, next) => Ok((Kind::Set, next)),
        _ => Err(Refusal::Kind(at)),
    }
}

// The length at a place.
fn length_at(bytes: &[u8], at: usize) -> Result<(Length, usize), Refusal>
    ensures reading { reading_by (λ n. n.0) result ≡ checked_at bytes.now at (λ n. fault_if (ltb 32 n) length_refusal at) }
    ensures most { IfOk result (λ p. p.0.0 ≤ 32) }
{
    let (n, next) = number_at(bytes, at)?;
    if 32 < n {
        return Err(Refusal::Length(at));
    }
    Ok((Length(n), next))
}

// The quotient at a place, of an address by the span of this length.
fn quotient_at(bytes: &[u8], at: usize, length: Length) -> Result<(u32, usize), Refusal>
    requires { length.0 ≤ 32 }
    ensures reading { reading_of result ≡ checked_at bytes.now at (λ x. fault_if (leb (2 ^ length.0) x) address_refusal at) }
    ensures below { IfOk result (λ p. p.0 < 2 ^ length.0) }
{
    let (x, next) = number_at(bytes, at)?;
    if 1u64 << length.0 <= x as u64 {
        return Err(Refusal::Address(at));
    }
    Ok((x, next))
}

// The hop at a place. Inlined, as `number_at` is.
#[inline(always)]
fn hop_at(bytes: &[u8], at: usize) -> Result<(Hop, usize), Refusal>
    ensures { reading_by (λ h. h.0) result ≡ checked_at bytes.now at (hop_fault at) }
{
    let (h, next) = number_at(bytes, at)?;
    let hop = Hop(h);
    rule::hop_check(at, hop)?;
    Ok((hop, next))
}

// The address that has the quotient x by the span.
fn address_of(x: u32, length: Length) -> u32
    requires { (length.0 ≤ 32) × (x < 2 ^ length.0) }
    ensures { result ≡ x * span 32 length.0 }
{
    ((x as u64) * rule::span_of(length)) as u32
}
