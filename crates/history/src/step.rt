// One step of a report: a line, or nothing, and the stage behind it.
ghost use Rattle.std.specs.Prelude.{◌≡◌, ◌≤◌, length};
ghost use Rattle.tcam.specs.Shown.{cell_of};
ghost use Rattle.history.specs.Reports.{rows, slot_text};
ghost use Rattle.history.specs.Stages.{step_text};
ghost use Rattle.history.specs.Steps.{IsPrinted, stepped, IsStep, Ready};

use crate::Stage;
use crate::update::report_update;
use lines::line;
use records::reader::read;
use route::Slot;
use tcam::slots::Cell;

// The bytes that a step printed, and the stage behind it: of one step, where a `Part` is of as many as fit.
#[derive(Clone, Copy)]
pub struct Stepped {
    pub size: usize,
    pub stage: Stage,
}

// A report on its way: the bytes of its input, how far it has come, and its table.
#[derive(Drop)]
pub struct Report<'a> {
    pub bytes: &'a [u8],
    pub stage: Stage,
    pub addresses: &'a mut [u32],
    pub tags: &'a mut [u32],
    ghost ready: { Ready bytes.now stage (rows addresses.now tags.now) },
}

// A slot's line, nothing where it is free.
fn slot_line(slot: Slot, c: Cell, out: &mut [u8]) -> usize
    requires { length (slot_text slot.0 (cell_of c)) ≤ length out.old }
    ensures { IsPrinted (slot_text slot.0 (cell_of c)) out.old result out.new }
{
    if c.is_free() {
        return 0;
    }
    line::slot(slot, c.route(), out).unwrap_or(0)
}

impl<'a> Report<'a> {
    // The record at a place, behind n others: its update is made and its line printed. The report's own stage stays.
    fn record_step(&mut self, n: usize, at: usize, out: &mut [u8]) -> Stepped
        requires reading { self.old.stage ≡ Stage.Reading n at }
        requires fits { length (step_text self.old.bytes.now self.old.stage (rows self.old.addresses.now self.old.tags.now)) ≤ length out.old }
        ensures step { IsStep self.old.bytes.now self.old.stage (rows self.old.addresses.now self.old.tags.now) out.old
            result (rows self.new.addresses.now self.new.tags.now) out.new }
        ensures unchanged { (self.new.stage ≡ self.old.stage) × (self.new.bytes.now ≡ self.old.bytes.now) }
        ensures same_rows { (self.new.addresses.ghost_name ≡ self.old.addresses.ghost_name) × (self.new.tags.ghost_name ≡ self.old.tags.ghost_name) }
    {
        let nth = n + 1;
        match read(self.bytes, at) {
            Ok(Some((asked, next))) => Stepped {
                size: report_update(nth, asked, self.addresses, self.tags, out),
                stage: Stage::Reading(nth, next),
            },
            Ok(None) => Stepped {
                size: 0,
                stage: Stage::Listing(Slot(0)),
            },
            Err(f) => Stepped {
                size: line::refused(nth, f, out).unwrap_or(0),
                stage: Stage::Listing(Slot(0)),
            },
        }
    }

    // One step, whose line fits: the bytes that it printed.
    pub(crate) fn step(&mut self, out: &mut [u8]) -> usize
        requires { length (step_text self.old.bytes.now self.old.stage (rows self.old.addresses.now self.old.tags.now)) ≤ length out.old }
        ensures step { IsStep self.old.bytes.now self.old.stage (rows self.old.addresses.now self.old.tags.now) out.old
            (stepped result self.new.stage) (rows self.new.addresses.now self.new.tags.now) out.new }
        ensures bytes_unchanged { self.new.bytes.now ≡ self.old.bytes.now }
        ensures same_rows { (self.new.addresses.ghost_name ≡ self.old.addresses.ghost_name) × (self.new.tags.ghost_name ≡ self.old.tags.ghost_name) }
    {
        match self.stage {
            Stage::TooLong => {
                self.stage = Stage::Done;
                line::too_long(out).unwrap_or(0)
            }
            Stage::Header => {
                self.stage = Stage::Reading(0, 0);
                line::header(self.addresses.len(), out).unwrap_or(0)
            }
            Stage::Reading(n, at) => {
                let made = self.record_step(n, at, out);
                self.stage = made.stage;
                made.size
            }
            Stage::Listing(slot) => {
                let i = slot.0;
                if self.addresses.len() <= i {
                    self.stage = Stage::Done;
                    return line::end(out).unwrap_or(0);
                }
                let c = Cell {
                    address: self.addresses[i],
                    tag: self.tags[i],
                };
                self.stage = Stage::Listing(Slot(i + 1));
                slot_line(slot, c, out)
            }
            Stage::Done => 0,
        }
    }
}
