// A table: two lent rows of one length, in which each slot has its place.
ghost use Rattle.std.specs.Prelude.{◌≡◌, ◌<◌, ◌≤◌, length, IfOk, IfErr};
ghost use Rattle.route.specs.Refusals.{fine, fault};
ghost use Rattle.route.specs.Shown.{number, place};
ghost use Rattle.tcam.specs.Slots.{max_slots, size_fault};
ghost use Rattle.tcam.specs.Shown.{cell_of};

use crate::slots::{Cell, size_check};
use route::{Refusal, Slot};

// The addresses and the tags of a table's slots. The public calls take the two rows, as C lends them.
#[derive(Clone, Copy)]
pub struct Table<'a> {
    pub addresses: &'a [u32],
    pub tags: &'a [u32],
    ghost equal: { length addresses.now ≡ length tags.now },
    ghost few: { length addresses.now ≤ max_slots },
}

impl<'a> Table<'a> {
    ghost use Rattle.tcam.specs.Held.{slot_at};

    // The table that two rows are, or refusal 8: unequal rows, none, or too many slots.
    pub fn new(addresses: &'a [u32], tags: &'a [u32]) -> Result<Table<'a>, Refusal>
        ensures ok { IfOk result (λ table. (fine ≡ size_fault addresses.now tags.now) × (table.addresses.now ≡ addresses.now) × (table.tags.now ≡ tags.now)) }
        ensures err { IfErr result (λ r. fault (number r) (place r) ≡ size_fault addresses.now tags.now) }
    {
        size_check(addresses.len(), tags.len())?;
        Ok(Table { addresses, tags })
    }

    // The number of slots.
    pub fn len(&self) -> usize
        ensures { result ≡ length self.now.addresses.now }
    {
        self.addresses.len()
    }

    // What slot i holds.
    pub fn cell(&self, i: Slot) -> Cell
        requires { i.0 < length self.now.addresses.now }
        ensures { cell_of result ≡ slot_at self.now i.0 }
    {
        let at = i.0;
        Cell {
            address: self.addresses[at],
            tag: self.tags[at],
        }
    }
}
