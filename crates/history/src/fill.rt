// A part of a report: as many lines as a lent buffer has room for.
ghost use Rattle.std.specs.Prelude.{◌≡◌, ◌≤◌, length};
ghost use Rattle.tcam.specs.Slots.{max_slots};
ghost use Rattle.history.specs.Reports.{rows};
ghost use Rattle.history.specs.Stages.{is_stage_of};
ghost use Rattle.history.specs.Fills.{fill_answer, room_fault, fill_with, fill_of, IsFill};

use crate::Stage;
use crate::step::Report;
use route::Refusal;
use tcam::slots::size_check;

// A part: its bytes, and the stage behind it.
#[derive(Clone, Copy)]
pub struct Part {
    pub size: usize,
    pub stage: Stage,
}

// Whether a report of so many bytes can have come so far.
fn is_stage_of(size: usize, stage: Stage) -> bool
    ensures { result ≡ is_stage_of size stage }
{
    match stage {
        Stage::Reading(n, at) => (n <= at) & (at <= size),
        Stage::TooLong | Stage::Header | Stage::Listing(_) | Stage::Done => true,
    }
}

impl<'a> Report<'a> {
    // As many lines as fit, or refusal 9 where the next one does not.
    fn fill(&mut self, out: &mut [u8]) -> Result<Part, Refusal>
        requires { length self.old.addresses.now ≤ max_slots }
        ensures fill { IsFill
            (fill_with
            (room_fault self.old.bytes.now self.old.stage (rows self.old.addresses.now self.old.tags.now) (length out.old))
            self.old.bytes.now self.old.stage (rows self.old.addresses.now self.old.tags.now) out.old)
            (fill_answer result) (rows self.new.addresses.now self.new.tags.now) out.new }
        ensures same_rows { (self.new.addresses.ghost_name ≡ self.old.addresses.ghost_name) × (self.new.tags.ghost_name ≡ self.old.tags.ghost_name) }
    {
        let mut at = 0;
        while self.goes_on(out.len() - at) {
            at += self.step(&mut out[at..]);
        }
        if (at == 0) & !self.stage.is_done() {
            return Err(Refusal::Room);
        }
        Ok(Part {
            size: at,
            stage: self.stage,
        })
    }
}

// Prints the next part of the report into the buffer: the part's bytes, which stand at its front, and
// the stage behind it. Refusal 8 for rows of unequal length or no table, or a stage of other bytes; then
// 9 for a buffer that the next line does not fit.
pub fn fill(
    bytes: &[u8],
    stage: Stage,
    addresses: &mut [u32],
    tags: &mut [u32],
    out: &mut [u8],
) -> Result<Part, Refusal>
    ensures { IsFill
        (fill_of bytes.now stage (rows addresses.old tags.old) out.old)
        (fill_answer result) (rows addresses.new tags.new) out.new }
{
    size_check(addresses.len(), tags.len())?;
    if !is_stage_of(bytes.len(), stage) {
        return Err(Refusal::Size);
    }
    let mut report = Report {
        bytes,
        stage,
        addresses,
        tags,
    };
    report.fill(out)
}
