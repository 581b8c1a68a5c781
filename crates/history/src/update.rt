// One update on the table: planned, applied whole, and its line printed.
ghost use Rattle.std.specs.Prelude.{◌≡◌, ◌≤◌, length};
ghost use Rattle.route.specs.Shown.{counted};
ghost use Rattle.records.specs.Shown.{update_of};
ghost use Rattle.tcam.specs.Plans.{IsPlanned};
ghost use Rattle.lines.specs.Lines.{IsWritten};
ghost use Rattle.history.specs.Reports.{rows, plan_of, accepted_text, reported_text};
ghost use Rattle.history.specs.Steps.{IsUpdated, IsReported};

use lines::line;
use records::Record;
use route::Refusal;
use tcam::MAX_WRITES;
use tcam::apply::apply;
use tcam::image::used_slots;
use tcam::plan::{plan_remove, plan_set};

// The cells of a plan's row: three for each write.
const PLAN_CELLS: usize = 3 * MAX_WRITES;

// The two rows go on to the calls of tcam as they are: C lends them so.
//
// Plans what a record asks for.
fn plan_of(
    asked: Record,
    addresses: &[u32],
    tags: &[u32],
    plan: &mut [u32],
) -> Result<usize, Refusal>
    ensures { IsPlanned (plan_of (rows addresses.now tags.now) (update_of asked) (length plan.old))
        plan.old (counted result) plan.new }
{
    match asked {
        Record::Set(r) => plan_set(addresses, tags, r, plan),
        Record::Remove(p) => plan_remove(addresses, tags, p, plan),
    }
}

// Plans what a record asks for and applies the whole plan: the number of writes, or the plan's refusal
// with the table as it was.
fn update_table(asked: Record, addresses: &mut [u32], tags: &mut [u32]) -> Result<usize, Refusal>
    ensures { IsUpdated (update_of asked) (rows addresses.old tags.old)
        (counted result) (rows addresses.new tags.new) }
{
    let mut plan = [0u32; PLAN_CELLS];
    let writes = plan_of(asked, addresses, tags, &mut plan)?;
    apply(addresses, tags, &plan, writes)
}

// The line of an accepted update.
fn accepted_line(
    nth: usize,
    asked: Record,
    writes: usize,
    used: usize,
    out: &mut [u8],
) -> Result<usize, Refusal>
    ensures { IsWritten (accepted_text nth (update_of asked) writes used) out.old (counted result) out.new }
{
    match asked {
        Record::Set(r) => line::set(nth, r, writes, used, out),
        Record::Remove(p) => line::remove(nth, p, writes, used, out),
    }
}

// Makes the update that a record asks for, and prints its line, which fits: the line's bytes.
pub(crate) fn report_update(
    nth: usize,
    asked: Record,
    addresses: &mut [u32],
    tags: &mut [u32],
    out: &mut [u8],
) -> usize
    requires { length (reported_text nth (rows addresses.old tags.old) (update_of asked)) ≤ length out.old }
    ensures { IsReported nth (update_of asked) (rows addresses.old tags.old) out.old
        result (rows addresses.new tags.new) out.new }
{
    match update_table(asked, addresses, tags) {
        Err(f) => line::refused(nth, f, out).unwrap_or(0),
        Ok(writes) => {
            let used = used_slots(addresses, tags);
            accepted_line(nth, asked, writes, used, out).unwrap_or(0)
        }
    }
}
