// The report of a stream of update records: a line for each update, then the table's used slots.
//
// A report is printed in parts, into a buffer that the caller lends again and again: `fill` gathers as
// many lines as fit and answers how far it came, a `Stage`, from which the next call goes on. All parts
// one after another are the report of specs/Reports, whatever the buffer's length (specs/Whole).
#![tactic(auto)]

pub mod fill;
pub mod step;
pub mod trial;
pub mod update;

ghost use Rattle.std.specs.Prelude.{◌≡◌};
ghost use Rattle.history.specs.Stages.{start_of, is_done};

use route::Slot;

// The most bytes of an input.
pub const MAX_INPUT: usize = 65536;

// How far a report has come: what is printed next.
#[derive(Clone, Copy)]
pub enum Stage {
    // That the input is too long.
    TooLong,
    // The header.
    Header,
    // The record at a place of the input, behind so many records.
    Reading(usize, usize),
    // A slot of the table, or the end behind the last one.
    Listing(Slot),
    // Nothing.
    Done,
}

impl Stage {
    // Where the report of an input of so many bytes starts.
    pub fn start(size: usize) -> Stage
        ensures { result ≡ start_of size }
    {
        if MAX_INPUT < size {
            return Stage::TooLong;
        }
        Stage::Header
    }

    // Whether all is printed.
    pub fn is_done(self) -> bool
        ensures { result ≡ is_done self }
    {
        matches!(self, Stage::Done)
    }
}
