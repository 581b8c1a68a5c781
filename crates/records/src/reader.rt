// A reader keeps the bytes it was given and its place in them.
//
// The work is done by `record_at`, over the bytes and a place; the functions here are thin over it.
// `read` makes a reader and reads once, so a caller that has the bytes and a place needs none.
ghost use Rattle.std.specs.Prelude.{◌≡◌};
ghost use Rattle.records.specs.Records.{record_at};
ghost use Rattle.records.specs.Shown.{reply};

use crate::{Record, record_at};
use route::Refusal;

// The bytes, and a place in them.
#[derive(Clone, Copy)]
pub struct Reader<'a> {
    pub src: &'a [u8],
    pub at: usize,
}

impl<'a> Reader<'a> {
    ghost use Rattle.records.specs.Readers.{IsNext};

    // A reader of the bytes, at a place.
    pub fn new(src: &'a [u8], at: usize) -> Reader<'a>
        ensures { (result.src ≡ src.entry) × (result.at ≡ at) }
    {
        Reader { src, at }
    }

    // Reads the next record and moves behind it. At the end, or at a refusal, the reader stays.
    pub fn next(&mut self) -> Result<Option<(Record, usize)>, Refusal>
        ensures { IsNext self.old result self.new }
    {
        let read = record_at(self.src, self.at)?;
        if let Some((_, next)) = read {
            self.at = next;
        }
        Ok(read)
    }
}

// What a reader of the bytes reads next from a place.
pub fn read(bytes: &[u8], at: usize) -> Result<Option<(Record, usize)>, Refusal>
    ensures { reply result ≡ record_at 32 bytes.now at }
{
    Reader::new(bytes, at).next()
}
