// The build: the DXR table of a list, written to a lent main table and to lent range words.
//
// The merged ranges of the list are built in rows of this call's own. A first pass over the chunks
// counts the range words and the room is tested; only then does a second pass write. Both go from one
// chunk in which a range starts to the next. A chunk's ranges begin with the last that starts at or
// before its first address.
ghost use Rattle.std.specs.Prelude.{◌≡◌, ◌+◌, ◌/◌, ◌*◌, ◌≤◌, ◌<◌, length, get_or};
ghost use Rattle.route.specs.Shown.{counted};
ghost use Rattle.ranges.specs.Ranges.{ranges};
ghost use Rattle.route.specs.Rows.{overwritten};
ghost use Rattle.dxr.specs.Dxr.{table_words, table_main};
ghost use Rattle.dxr.specs.Builds.{IsBuilt};
ghost use Rattle.dxr.specs.Loops.{LastAt, Splittable, IsSplit};
ghost use Rattle.dxr.specs.Shown.{NextIs};

use crate::chunk::Chunk;
use crate::rows::Rows;
use crate::{Built, MAIN_WORDS};
use ranges::MAX_RANGES;
use route::Refusal;

// A range table of which a DXR table can be made.
#[derive(Clone, Copy)]
struct Table<'a> {
    rows: Rows<'a>,
    ghost splittable: { Splittable 32 16 rows.starts.now rows.hops.now },
}

// The next chunk in which a range starts: its number, its ranges, and the place of the last of them.
#[derive(Clone, Copy)]
struct Next<'a> {
    number: u32,
    chunk: Chunk<'a>,
    last: usize,
}

// The last range, from range `from` on, that starts at or before address x.
fn last_at(starts: &[u32], from: usize, x: u32) -> usize
    requires { (from < length starts.now) × (get_or starts.now from 0 ≤ x) }
    ensures { LastAt x starts.now result × (from ≤ result) }
{
    for i in from + 1..starts.len() {
        if x < starts[i] {
            return i - 1;
        }
    }
    starts.len() - 1
}

impl<'a> Table<'a> {
    // The chunk in which the range behind range `from` starts. It is no iterator's `next`: who goes from chunk to
    // chunk needs the range before each, and the last one where no chunk is left.
    fn next_chunk(&self, from: usize) -> Option<Next<'a>>
        requires within { from < length self.now.rows.starts.now }
        requires start { let ss = self.now.rows.starts.now in from + 1 < length ss → get_or ss from 0 ≤ get_or ss (from + 1) 0 / 65536 * 65536 }
        ensures { NextIs 32 16 self.now.rows.starts.now self.now.rows.hops.now from result }
    {
        let rows = &self.rows;
        if rows.len() <= from + 1 {
            return None;
        }
        let number = rows.starts[from + 1] / 65536;
        let base = number * 65536;
        let first = last_at(rows.starts, from, base);
        let last = last_at(rows.starts, first, base + 65535);
        Some(Next {
            number,
            chunk: Chunk {
                rows: rows.part(first, last + 1),
                base,
            },
            last,
        })
    }

    // How many range words the DXR table has.
    fn count_words(&self) -> usize
        ensures { result ≡ length (table_words 32 16 (ranges self.now.rows.starts.now self.now.rows.hops.now)) }
    {
        let mut from = 0;
        let mut count = 0;
        while let Some(next) = self.next_chunk(from) {
            count += next.chunk.main_word(count).words();
            from = next.last;
        }
        count
    }

    // Writes the DXR table. Up to the next chunk in which a range starts, and behind the last one, a chunk
    // lies in one range and has its hop.
    fn write(&self, main: &mut [u32], words: &mut [u32])
        requires { (length main.old ≡ 65536) × (length (table_words 32 16 (ranges self.now.rows.starts.now self.now.rows.hops.now)) ≤ length words.old) }
        ensures main_after { main.new ≡ overwritten (table_main 32 16 (ranges self.now.rows.starts.now self.now.rows.hops.now)) main.old }
        ensures words_after { words.new ≡ overwritten (table_words 32 16 (ranges self.now.rows.starts.now self.now.rows.hops.now)) words.old }
    {
        let mut from = 0;
        let mut used = 0;
        let mut done = 0;
        while let Some(next) = self.next_chunk(from) {
            let place = next.number as usize;
            main[done..place].fill(self.rows.hops[from]);
            let stored = next.chunk.store(words, used);
            main[place] = stored.word;
            used = stored.used;
            from = next.last;
            done = place + 1;
        }
        main[done..].fill(self.rows.hops[from]);
    }

    // The DXR table in both rows: how many range words it has, or refusal 9.
    fn split(&self, main: &mut [u32], words: &mut [u32]) -> Result<usize, Refusal>
        requires { length main.old ≡ 65536 }
        ensures { IsSplit 32 16 (ranges self.now.rows.starts.now self.now.rows.hops.now) main.old words.old (counted result) main.new words.new }
    {
        let count = self.count_words();
        if words.len() < count {
            return Err(Refusal::Room);
        }
        self.write(main, words);
        Ok(count)
    }
}

// Builds the DXR table of a list in a main table of 65,536 words and in the front of a row of range
// words: how many of these there are, or refusals 8, for a main table of another size or as of
// `list::check`, 1 to 4 as of that, or 9 where the row is shorter than that. A refusal leaves both as
// they were.
pub fn build(
    addresses: &[u32],
    lengths: &[u32],
    hops: &[u32],
    main: &mut [u32],
    words: &mut [u32],
) -> Built
    ensures { IsBuilt 32 16 addresses.now lengths.now hops.now main.old words.old (counted result) main.new words.new }
{
    if main.len() != MAIN_WORDS {
        return Err(Refusal::Size);
    }
    let mut starts = [0; MAX_RANGES];
    let mut range_hops = [0; MAX_RANGES];
    let n = ranges::build::build(addresses, lengths, hops, &mut starts, &mut range_hops)?;
    let table = Table {
        rows: Rows {
            starts: &starts[..n],
            hops: &range_hops[..n],
        },
    };
    table.split(main, words)
}
