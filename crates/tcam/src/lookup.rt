// The lookup: the hop of the first used slot that matches, on every image that keeps S1.
//
// One pass. Up to the first match each slot is tested and compared; the slots behind it are only
// tested.
ghost use Rattle.std.specs.Prelude.{◌≡◌, ◌≤◌, length, drop};
ghost use Rattle.route.specs.Refusals.{value, unless_fault};
ghost use Rattle.route.specs.Shown.{verdict_of, shown};
ghost use Rattle.tcam.specs.Slots.{cells, slot_fault, first_match, slot_lookup};
ghost use Rattle.tcam.specs.Held.{cells_of};

use crate::table::Table;
use route::{Hop, Refusal, Slot};

// S1 of the slots from slot `from` on.
pub(crate) fn rest_check(table: &Table, from: Slot) -> Result<(), Refusal>
    requires { from.0 ≤ length table.now.addresses.now }
    ensures { verdict_of result ≡ slot_fault 32 from.0 (cells (drop from.0 table.now.addresses.now) (drop from.0 table.now.tags.now)) }
{
    for i in from.0..table.len() {
        if !table.cell(Slot(i)).is_valid() {
            return Err(Refusal::Image(i));
        }
    }
    Ok(())
}

// S1 of each slot, and the first that matches.
fn first_match(table: &Table, q: u32) -> Result<Option<Hop>, Refusal>
    ensures { shown result ≡ unless_fault (slot_fault 32 0 (cells_of table.now)) (value (first_match 32 (cells_of table.now) q)) }
{
    for i in 0..table.len() {
        let c = table.cell(Slot(i));
        if !c.is_valid() {
            return Err(Refusal::Image(i));
        }
        if c.hits(q) {
            rest_check(table, Slot(i + 1))?;
            return Ok(Some(c.hop()));
        }
    }
    Ok(None)
}

// Looks q up in a table: refusal 8 or 7, else the hop of the first used slot that matches.
pub fn lookup(addresses: &[u32], tags: &[u32], q: u32) -> Result<Option<Hop>, Refusal>
    ensures { shown result ≡ slot_lookup 32 addresses.now tags.now q }
{
    first_match(&Table::new(addresses, tags)?, q)
}
