// The report's lines, written as bytes into a lent buffer.
//
// Each public call answers the number of bytes, which stand at the front of the buffer, or refusal 9
// where the buffer is shorter; then it is as it was. A line is put together in fixed memory of its own, and
// copied where it fits. The texts are those of specs/Texts and specs/Lines.
#![tactic(auto)]

pub mod line;
pub mod text;

// No line is longer, with its line end.
pub const MAX_LINE: usize = 256;
