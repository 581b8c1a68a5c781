// The image test: the first slot that breaks one of S1 to S5.
//
// One pass in rising order keeps what S2 to S4 ask of the slots before: the nearest used one's
// length, whether one is free, whether one is below the pool. S2 to S4 also put the entries of one
// length next to each other. So S5 compares an entry only with the run of its own length just before
// it, and there by address alone; the pass keeps where that run begins. The filter comes first: where
// it says that a prefix was not noted, nothing is compared. Behind a free slot the free slots that
// follow are passed over block by block.
ghost use Rattle.std.specs.Prelude.{◌≡◌, ◌+◌, ◌-◌, ◌<◌, ◌≤◌, false, [], length, if◌then◌else◌, nat_eq, slice_index, ◌==◌};
ghost use Rattle.std.proofs.Props.{props};
ghost use Rattle.route.specs.Lists.{any};
ghost use Rattle.route.specs.Loops.{before, places_from};
ghost use Rattle.route.specs.Shown.{verdict_of, counted};
ghost use Rattle.tcam.specs.Slots.{max_slots, cells, breaks, image_fault, table_fault, used_in, slot_check};
ghost use Rattle.tcam.specs.Runs.{InOrder-prop};
ghost use Rattle.tcam.specs.Shown.{cell_of, cell_at};
ghost use Rattle.tcam.specs.Searches.{any_between};
ghost use Rattle.tcam.specs.Loops.{misplaced_by, SeenNone, SeenWith, SeenPast, TestedBefore, PlacedAt, repeats_at, FreeBetween, FreeEnd};
ghost use Rattle.tcam.specs.Held.{cells_of, slot_at};

use crate::MAX_SLOTS;
use crate::search::first_block;
use crate::slots::Cell;
use crate::table::Table;
use route::filter::Filter;
use route::{Length, Refusal, Slot};

// What stands before a slot, as far as S2 to S5 ask: the nearest entry's length, whether a slot is
// free, whether an entry is below the pool, and where the run of the nearest length that ends just
// before the slot begins; at the slot itself where there is none.
#[derive(Clone, Copy)]
pub struct Seen {
    pub nearest: Length,
    pub free: bool,
    pub lower: bool,
    pub run: Slot,
}

impl Seen {
    // Before slot 0: no length is over 32.
    pub(crate) fn none() -> Seen
        ensures { SeenNone 32 result }
    {
        Seen {
            nearest: Length(32),
            free: false,
            lower: false,
            run: Slot(0),
        }
    }

    // Where the run of length n begins that an entry in slot i is in: it goes on where n is the nearest
    // length, and else begins with the entry.
    fn run_with(self, n: Length, i: Slot) -> Slot
        ensures { result.0 ≡ (if nat_eq n.0 self.nearest.0 then self.run.0 else i.0) }
    {
        if n == self.nearest { self.run } else { i }
    }

    // With an entry more, in slot i.
    fn with(self, c: Cell, i: Slot) -> Seen
        ensures { SeenWith 32 (cell_of c) i.0 self result }
    {
        let n = c.length();
        Seen {
            nearest: n,
            free: self.free,
            lower: c.is_lower() | self.lower,
            run: self.run_with(n, i),
        }
    }

    // With free slots more, up to slot `to`.
    fn past(self, to: Slot) -> Seen
        ensures { SeenPast to.0 self result }
    {
        Seen {
            free: true,
            run: to,
            ..self
        }
    }

    // Whether a slot after these breaks one of S1 to S4.
    pub(crate) fn refuses(self, c: Cell) -> bool
        ensures { result ≡ misplaced_by 32 (cell_of c) self }
    {
        if c.is_free() {
            return self.lower;
        }
        !c.is_valid() | (self.nearest < c.length()) | (c.is_upper() & self.free)
    }
}

// Whether a slot from slot `from` up to slot `to` has the address. It is a function of its own in the
// compiled code, as `free_end` is: the pass hardly ever calls them, and keeps its values in registers.
#[inline(never)]
fn stands_between(addresses: &[u32], from: usize, to: usize, address: u32) -> bool
    requires { (from ≤ to) × (to ≤ length addresses.now) }
    ensures { result ≡ any_between (λ j. slice_index addresses.now j == address) from to }
{
    first_block(from, to, &|j| addresses[j] == address).is_some()
}

// The first used slot from slot `from` on, or the number of slots, slot by slot, by a loop as in `find` of plan.rt.
fn first_used(table: &Table, from: usize) -> Slot
    requires { from ≤ length table.now.addresses.now }
    ensures { FreeEnd table.now.addresses.now table.now.tags.now from result.0 }
{
    for j in from..table.len() {
        if !table.cell(Slot(j)).is_free() {
            return Slot(j);
        }
    }
    Slot(table.len())
}

// The same, block by block, and slot by slot in the first block that has a used slot.
#[inline(never)]
fn free_end(table: &Table, from: usize) -> Slot
    requires { from ≤ length table.now.addresses.now }
    ensures { FreeEnd table.now.addresses.now table.now.tags.now from result.0 }
{
    let end = table.len();
    match first_block(from, end, &|j| !table.cell(Slot(j)).is_free()) {
        Some(j) => first_used(table, j),
        None => Slot(end),
    }
}

// What was seen of the slots before a slot, and that slot.
#[derive(Clone, Copy)]
pub struct Passed {
    pub seen: Seen,
    pub next: Slot,
}

// A slot of a table that keeps S1 to S4, as the slots before it do: the cell that it holds, what was seen
// of them, and whether the cell's prefix was noted. Where it was not, no slot before holds that.
#[derive(Clone, Copy)]
pub struct Here<'a> {
    pub table: &'a Table<'a>,
    pub slot: Slot,
    pub cell: Cell,
    pub seen: Seen,
    pub noted: bool,
    ghost within: { slot.0 < length table.now.addresses.now },
    ghost holds: { cell_of cell ≡ slot_at table.now slot.0 },
    ghost tested: { TestedBefore 32 (slot_at table.now) seen slot.0 } by { Prim.hlevel (props, InOrder-prop) },
    ghost placed: { PlacedAt 32 (slot_at table.now) slot.0 },
    ghost not_noted: { noted ≡ false → repeats_at (slot_at table.now) slot.0 ≡ false },
}

impl<'a> Here<'a> {
    // Whether the slot repeats an earlier prefix. Where it has another length than the nearest entry, its run
    // is empty.
    pub(crate) fn repeats_earlier(&self) -> bool
        ensures { result ≡ repeats_at (slot_at self.now.table.now) self.now.slot.0 }
    {
        let c = self.cell;
        if c.is_free() | !self.noted {
            return false;
        }
        if c.length() != self.seen.nearest {
            return false;
        }
        stands_between(
            self.table.addresses,
            self.seen.run.0,
            self.slot.0,
            c.address,
        )
    }

    // Past the slot: an entry, or a free slot with those that follow it.
    pub(crate) fn past(&self) -> Passed
        ensures tested { TestedBefore 32 (slot_at self.now.table.now) result.seen result.next.0 }
        ensures free { FreeBetween self.now.table.now.addresses.now self.now.table.now.tags.now (self.now.slot.0 + 1) result.next.0 }
    {
        let i = self.slot.0;
        if self.cell.is_free() {
            let next = free_end(self.table, i + 1);
            return Passed {
                seen: self.seen.past(next),
                next,
            };
        }
        Passed {
            seen: self.seen.with(self.cell, self.slot),
            next: Slot(i + 1),
        }
    }
}

// Refusal 7 of an update, with a filter of so many words, which is cleared at every call. Each size is a
// function of its own in the compiled code, so that its filter is in no frame of a table of another size. A
// turn may pass several free slots, so the loop is no `for`.
#[inline(never)]
fn check_with<const WORDS: usize>(table: &Table) -> Result<(), Refusal>
    requires { (0 < WORDS) × (WORDS ≤ 4096) }
    ensures { verdict_of result ≡ image_fault 32 0 [] (cells_of table.now) }
{
    let mut filter = Filter::<WORDS>::of(0);
    let mut seen = Seen::none();
    let mut i = 0;
    while i < table.len() {
        let slot = Slot(i);
        let cell = table.cell(slot);
        let noted = filter.note(cell.prefix());
        if seen.refuses(cell) {
            return Err(Refusal::Image(i));
        }
        let here = Here {
            table: &*table,
            slot,
            cell,
            seen,
            noted,
        };
        if here.repeats_earlier() {
            return Err(Refusal::Image(i));
        }
        let passed = here.past();
        seen = passed.seen;
        i = passed.next.0;
    }
    Ok(())
}

// The same with a larger filter.
fn long_check(table: &Table) -> Result<(), Refusal>
    ensures { verdict_of result ≡ image_fault 32 0 [] (cells_of table.now) }
{
    if table.len() <= 1024 {
        return check_with::<512>(table);
    }
    check_with::<4096>(table)
}

// The same with a filter whose size goes with the table's.
pub(crate) fn slots_check(table: &Table) -> Result<(), Refusal>
    ensures { verdict_of result ≡ image_fault 32 0 [] (cells_of table.now) }
{
    if table.len() <= 64 {
        return check_with::<16>(table);
    }
    long_check(table)
}

// How many slots from slot `from` up to slot `to` are used. With a count of 32 bits several slots are
// counted at once. The rows may differ in length, as those of the call may, so they are no `Table`.
fn used_between(addresses: &[u32], tags: &[u32], from: usize, to: usize) -> u32
    requires { (to ≤ length addresses.now) × (to ≤ length tags.now) × (from ≤ to) × (to ≤ from + max_slots) }
    ensures { (result ≡ used_in (places_from (cell_at addresses.now tags.now) from (to - from))) × (result ≤ to - from) }
{
    let mut used: u32 = 0;
    for j in from..to {
        let c = Cell {
            address: addresses[j],
            tag: tags[j],
        };
        used += c.uses();
    }
    used
}

// How many slots are used, by parts as long as the longest table. The longer of two rows of unequal
// length has no slots past the shorter.
pub fn used_slots(addresses: &[u32], tags: &[u32]) -> usize
    ensures { result ≡ used_in (cells addresses.now tags.now) }
{
    let end = addresses.len().min(tags.len());
    let mut used = 0;
    for i in (0..end).step_by(MAX_SLOTS) {
        used += used_between(addresses, tags, i, end.min(i + MAX_SLOTS)) as usize;
    }
    used
}

// Refusal 8, then 7: what an update tests of a table.
pub fn table_check(addresses: &[u32], tags: &[u32]) -> Result<(), Refusal>
    ensures { verdict_of result ≡ table_fault 32 addresses.now tags.now }
{
    slots_check(&Table::new(addresses, tags)?)
}

// Tests a table as an update does: the number of used slots, or refusal 8 or 7.
pub fn check(addresses: &[u32], tags: &[u32]) -> Result<usize, Refusal>
    ensures { counted result ≡ slot_check 32 addresses.now tags.now }
{
    table_check(addresses, tags)?;
    Ok(used_slots(addresses, tags))
}
