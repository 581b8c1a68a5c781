// Slots: a table of ordered slots, looked up, tested, and changed by planned writes.
//
// A table is two lent rows of equal length, addresses and tags; a free slot is 0 in both. The rules
// S1 to S5 and what each call answers are in specs/. A lookup asks for S1 alone, and so does a
// download, so they are right on every image between two writes of a plan; an update tests the whole
// image first, and refuses such an image until it is mended.
#![tactic(auto)]

pub mod apply;
pub mod download;
pub mod image;
pub mod lookup;
pub mod mend;
pub mod plan;
mod search;
pub mod slots;
pub mod table;

use route::Refusal;

// The most slots of a table.
pub const MAX_SLOTS: usize = 4096;

// The most writes of a plan: a removal moves an entry of its own length and one of each length
// between it and the pool, and clears a slot.
pub const MAX_WRITES: usize = 18;

// What a plan answers: how many writes it has, or the refusal.
pub type Planned = Result<usize, Refusal>;

// What an apply answers: how many writes were made, or the refusal.
pub type Applied = Result<usize, Refusal>;
