// A step on trial: the size of its line, before it is made.
//
// A refusal leaves the rows as they were, so whether a line fits has to be known before its update is
// made. No line exceeds `MAX_LINE`; where less room is left, the step is made on copies of the rows.
ghost use Rattle.std.specs.Prelude.{◌≡◌, not, ◌||◌, ◌≤◌, ltb, length};
ghost use Rattle.tcam.specs.Slots.{max_slots};
ghost use Rattle.history.specs.Reports.{rows};
ghost use Rattle.history.specs.Stages.{is_done, step_text};

use crate::step::Report;
use lines::MAX_LINE;
use tcam::MAX_SLOTS;

impl<'a> Report<'a> {
    // The size of the next step's line.
    fn line_size(&self) -> usize
        requires { length self.now.addresses.now ≤ max_slots }
        ensures { result ≡ length (step_text self.now.bytes.now self.now.stage (rows self.now.addresses.now self.now.tags.now)) }
    {
        let n = self.addresses.len();
        let mut addresses = [0u32; MAX_SLOTS];
        let mut tags = [0u32; MAX_SLOTS];
        addresses[..n].copy_from_slice(self.addresses);
        tags[..n].copy_from_slice(self.tags);
        let mut trial = Report {
            bytes: self.bytes,
            stage: self.stage,
            addresses: &mut addresses[..n],
            tags: &mut tags[..n],
        };
        let mut line = [0u8; MAX_LINE];
        trial.step(&mut line)
    }

    // Whether there is a step whose line fits so many bytes.
    pub(crate) fn goes_on(&self, room: usize) -> bool
        requires { length self.now.addresses.now ≤ max_slots }
        ensures { result ≡ not (is_done self.now.stage
            || ltb room (length (step_text self.now.bytes.now self.now.stage (rows self.now.addresses.now self.now.tags.now)))) }
    {
        !self.stage.is_done() && (MAX_LINE <= room || self.line_size() <= room)
    }
}
