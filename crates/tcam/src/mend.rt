// Mending a half-written table: the plan that takes the later copy of a doubled prefix out.
//
// An update that was cut short leaves the entry that it moved last in two slots, with one tag, and
// keeps S1 to S4. One pass tests each slot for S1 to S4, and ends at the first that breaks one. It also
// looks for a repeat of the slot in the run of its own length, and keeps the first slot that has another
// tag than its earlier copy, or that is the second to repeat any: such a slot is refused only where the
// pass comes to its end. Then the later copy is removed as any entry is.
ghost use Rattle.std.specs.Prelude.{◌≡◌, ◌-◌, ◌<◌, ◌≤◌, false, length, Ok, None};
ghost use Rattle.route.specs.Lists.{any};
ghost use Rattle.route.specs.Loops.{places_from};
ghost use Rattle.route.specs.Shown.{counted};
ghost use Rattle.tcam.specs.Plans.{IsPlanned};
ghost use Rattle.tcam.specs.Mend.{other_tag_in, plan_mend};
ghost use Rattle.tcam.specs.Shown.{cell_of};
ghost use Rattle.tcam.specs.Loops.{TestedBefore, PlacedAt, repeats_at, repeat_of, RepeatWith, MendFound};
ghost use Rattle.tcam.specs.Held.{cells_of, slot_at};

use crate::Planned;
use crate::image::{Here, Seen};
use crate::plan::erase;
use crate::search::first_block;
use crate::table::Table;
use route::filter::Filter;
use route::{Refusal, Slot};

// What the repeats of the slots before a slot come to: the first slot that repeats a prefix, and the first
// that is refused for it.
#[derive(Clone, Copy)]
pub struct Repeats {
    pub later: Option<Slot>,
    pub refused: Option<Slot>,
}

impl Repeats {
    // Before slot 0.
    fn none() -> Repeats
        ensures { repeat_of result ≡ Ok None }
    {
        Repeats {
            later: None,
            refused: None,
        }
    }

    // With a slot more.
    fn with(self, here: &Here) -> Repeats
        ensures { RepeatWith (slot_at here.now.table.now) (repeat_of self) here.now.slot.0 (repeat_of result) }
    {
        if !here.repeats_earlier() | self.refused.is_some() {
            return self;
        }
        let table = here.table;
        let c = here.cell;
        let other = first_block(
            here.seen.run.0,
            here.slot.0,
            &|j| table.cell(Slot(j)).has_other_tag(c),
        )
        .is_some();
        if self.later.is_some() | other {
            return Repeats {
                refused: Some(here.slot),
                ..self
            };
        }
        Repeats {
            later: Some(here.slot),
            refused: None,
        }
    }

    // Of all slots: the slot of the later copy, if there is one, or refusal 7.
    fn result(self) -> Result<Option<Slot>, Refusal>
        ensures { result ≡ repeat_of self }
    {
        match self.refused {
            Some(first) => Err(Refusal::Image(first.0)),
            None => Ok(self.later),
        }
    }
}

// The later copy, if there is one, or refusal 7. S1 to S4 of every slot come before the repeats, so that a
// slot that is refused for a repeat is kept to the end of the pass. The filter of so many words is cleared
// at every call, and a turn may pass several free slots.
//
// The loop is that of `check_with`, but one for both would be told what fails and what is kept, in a
// contract longer than the two.
fn mend_check<const WORDS: usize>(table: &Table) -> Result<Option<Slot>, Refusal>
    requires { (0 < WORDS) × (WORDS ≤ 4096) }
    ensures { MendFound 32 (cells_of table.now) result }
{
    let mut filter = Filter::<WORDS>::of(0);
    let mut seen = Seen::none();
    let mut repeats = Repeats::none();
    let mut i = 0;
    while i < table.len() {
        let slot = Slot(i);
        let cell = table.cell(slot);
        let noted = filter.note(cell.prefix());
        if seen.refuses(cell) {
            return Err(Refusal::Image(i));
        }
        let here = Here {
            table: &*table,
            slot,
            cell,
            seen,
            noted,
        };
        repeats = repeats.with(&here);
        let passed = here.past();
        seen = passed.seen;
        i = passed.next.0;
    }
    repeats.result()
}

// The same with a filter whose size goes with the table's. That is chosen here as for `check_with`, since no function takes one that has a
// const parameter.
fn later_copy(table: &Table) -> Result<Option<Slot>, Refusal>
    ensures { MendFound 32 (cells_of table.now) result }
{
    if table.len() <= 64 {
        return mend_check::<16>(table);
    }
    mend_check::<512>(table)
}

// Plans a mend: the writes, or refusal 8, 7 or 9, in this order. Where there is no later copy, there is
// nothing to write.
pub fn plan_mend(addresses: &[u32], tags: &[u32], plan: &mut [u32]) -> Planned
    ensures { IsPlanned (plan_mend 32 addresses.now tags.now (length plan.old)) plan.old (counted result) plan.new }
{
    let table = Table::new(addresses, tags)?;
    match later_copy(&table)? {
        None => Ok(0),
        Some(s) => erase(&table, table.cell(s).length(), s, plan),
    }
}
