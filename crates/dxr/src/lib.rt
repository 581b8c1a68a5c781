// DXR with a 16-bit split: built from a list, and looked up in a lent main table and lent range words.
//
// The upper 16 bits of an address choose its chunk, one of 65,536, and the lower 16 are the key. The
// chunk's main word is its hop, or points to the chunk's part of the range words: its entries, the
// merged ranges inside it, of which the last that starts at or below the key has the answer.
#![tactic(auto)]

pub mod build;
pub mod chunk;
pub mod lookup;
mod main_word;
mod rows;

use route::Refusal;

// The words of a main table: one for each chunk.
pub const MAIN_WORDS: usize = 65536;

// What a build answers: how many range words there are, or the refusal.
pub type Built = Result<usize, Refusal>;
