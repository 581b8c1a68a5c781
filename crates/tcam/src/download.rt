// The download: the prefixes of a table, read out one by one in order of address, then length.
//
// A call is one pass, and nothing is kept from one call to the next, so updates may go on between
// two calls. Each slot is tested; of the entries still to come the first in order is kept, and of
// two slots with one prefix the earlier one.
//
// Prefixes are compared by their keys. How far a key is ahead of the least one still to come is a
// wrapping difference, so that one comparison tells both whether an entry is still to come and
// whether it is nearer than the one kept.
ghost use Rattle.std.specs.Prelude.{◌≡◌, ◌≤◌, length};
ghost use Rattle.route.specs.Refusals.{fine};
ghost use Rattle.route.specs.Shown.{verdict_of};
ghost use Rattle.tcam.specs.Download.{from_fault, download};
ghost use Rattle.tcam.specs.Shown.{from_of, next_of};
ghost use Rattle.tcam.specs.Loops.{far_ahead, IsLeast, IsAheadOf, NextByKeys};
ghost use Rattle.tcam.specs.Held.{cells_of};

use crate::lookup::rest_check;
use crate::slots::Cell;
use crate::table::Table;
use route::order::key_of;
use route::rule::prefix_check;
use route::{Prefix, Refusal, Slot};

// Refusals 1 and 2 of the prefix asked from; the start has none.
fn past_check(past: Option<Prefix>) -> Result<(), Refusal>
    ensures { verdict_of result ≡ from_fault 32 (from_of past) }
{
    match past {
        None => Ok(()),
        Some(p) => prefix_check(0, p),
    }
}

// The least key of a prefix that is still to come.
fn least_key(past: Option<Prefix>) -> u64
    requires { from_fault 32 (from_of past) ≡ fine }
    ensures { IsLeast (from_of past) result }
{
    match past {
        None => 0,
        Some(p) => key_of(p) + 1,
    }
}

// Farther ahead than any entry: keys are below 2^38, and this is 2^40.
const FAR_AHEAD: u64 = 1099511627776;

// How far ahead of the key `least` a key is: a smaller one, taken round, is farther than any entry.
fn ahead_of(least: u64, key: u64) -> u64
    requires { least ≤ far_ahead }
    ensures { IsAheadOf least key result }
{
    key.wrapping_sub(least)
}

// S1 of each slot, and of the entries whose keys are not below `least` the nearest, whose slot is
// kept. `nearest` begins farther ahead than any entry can be, so that one comparison does for both tests of a slot.
fn next_in(table: &Table, least: u64) -> Result<Option<Cell>, Refusal>
    requires { least ≤ far_ahead }
    ensures { NextByKeys 32 (cells_of table.now) least (next_of result) }
{
    let mut nearest = FAR_AHEAD;
    let mut next = None;
    for i in 0..table.len() {
        let c = table.cell(Slot(i));
        let valid = c.is_valid();
        let broken = !valid;
        if broken {
            return Err(Refusal::Image(i));
        }
        if c.is_free() {
            continue;
        }
        let ahead = ahead_of(least, key_of(c.prefix()));
        if ahead < nearest {
            nearest = ahead;
            next = Some(Slot(i));
        }
    }
    match next {
        None => Ok(None),
        Some(s) => Ok(Some(table.cell(s))),
    }
}

// The next entry past a prefix, or the first where there is none to be past: refusal 8, 7, 1 or 2, else
// the entry, or none at the end.
pub fn next_entry(
    addresses: &[u32],
    tags: &[u32],
    past: Option<Prefix>,
) -> Result<Option<Cell>, Refusal>
    ensures { next_of result ≡ download 32 addresses.now tags.now (from_of past) }
{
    let table = Table::new(addresses, tags)?;
    if let Err(f) = past_check(past) {
        // refusal 7 of the image comes first
        rest_check(&table, Slot(0))?;
        return Err(f);
    }
    next_in(&table, least_key(past))
}
