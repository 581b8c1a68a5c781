// Merged ranges: built from a list, and looked up in lent rows.
#![tactic(auto)]

pub mod build;
pub mod lookup;
mod shuffle;
pub mod sweep;
pub mod words;

use route::Refusal;

// The most ranges of a table: two for each entry of a list, and one.
pub const MAX_RANGES: usize = 8193;

// What a build answers: how many ranges there are, or the refusal.
pub type Built = Result<usize, Refusal>;
