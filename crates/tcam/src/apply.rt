// Applying a plan: its first k writes, all of them or none.
//
// A plan is a row of numbers, three to a write: slot, address, tag. Every one of the k writes is
// tested before the first is made.
ghost use Rattle.std.specs.Prelude.{◌≡◌, ◌/◌, ◌<◌, ◌≤◌, length, take};
ghost use Rattle.route.specs.Refusals.{fine};
ghost use Rattle.route.specs.Shown.{verdict_of, counted};
ghost use Rattle.tcam.specs.Applies.{is_wrong, writes_in, write_fault, stored, IsApplied};
ghost use Rattle.tcam.specs.Shown.{write_of};
ghost use Rattle.tcam.specs.Loops.{write_at};

use crate::Applied;
use crate::slots::{Cell, size_check};
use route::{Refusal, Slot};

// One write: what a slot is to hold.
#[derive(Clone, Copy)]
pub struct Write {
    pub slot: Slot,
    pub cell: Cell,
}

impl Write {
    // Whether it cannot be made in a table of m slots: no such slot, or a cell that breaks S1.
    fn is_wrong(self, m: usize) -> bool
        ensures { result ≡ is_wrong 32 m (write_of self) }
    {
        (Slot(m) <= self.slot) | !self.cell.is_valid()
    }
}

// Write i of a plan.
fn write_at(plan: &[u32], i: usize) -> Write
    requires { i < length plan.now / 3 }
    ensures { write_of result ≡ write_at plan.now i }
{
    let at = 3 * i;
    let s = plan[at] as usize;
    Write {
        slot: Slot(s),
        cell: Cell {
            address: plan[at + 1],
            tag: plan[at + 2],
        },
    }
}

// Refusal 10 of the first k writes in a table of m slots.
fn writes_check(m: usize, plan: &[u32], k: usize) -> Result<(), Refusal>
    requires { k ≤ length plan.now / 3 }
    ensures { verdict_of result ≡ write_fault 32 m 0 (take k (writes_in plan.now)) }
{
    for i in 0..k {
        if write_at(plan, i).is_wrong(m) {
            return Err(Refusal::Plan(i));
        }
    }
    Ok(())
}

// The first k writes, made in order, in the rows that C lends.
fn make_writes(addresses: &mut [u32], tags: &mut [u32], plan: &[u32], k: usize)
    requires k_in_bounds { (k ≤ length plan.now / 3) × (length addresses.old ≡ length tags.old) }
    requires plan_value { write_fault 32 (length addresses.old) 0 (take k (writes_in plan.now)) ≡ fine }
    ensures addresses_after { addresses.new ≡ stored (λ c. c.address) addresses.old (take k (writes_in plan.now)) }
    ensures tags_after { tags.new ≡ stored (λ c. c.tag) tags.old (take k (writes_in plan.now)) }
{
    for i in 0..k {
        let Write { slot, cell } = write_at(plan, i);
        addresses[slot.0] = cell.address;
        tags[slot.0] = cell.tag;
    }
}

// Applies the first k writes of a plan: k, or refusal 8 or 10 with both rows as they were.
pub fn apply(addresses: &mut [u32], tags: &mut [u32], plan: &[u32], k: usize) -> Applied
    ensures { IsApplied 32 addresses.old tags.old plan.now k (counted result) addresses.new tags.new }
{
    let m = addresses.len();
    size_check(m, tags.len())?;
    let whole = plan.len() / 3;
    if whole < k {
        return Err(Refusal::Plan(whole));
    }
    writes_check(m, plan, k)?;
    make_writes(addresses, tags, plan, k);
    Ok(k)
}
