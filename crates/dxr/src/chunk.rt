// One chunk of a build: its entries, and the words that they make.
//
// A chunk's entries come from a part of the range table: the last range that starts at or before the
// chunk's first address, `base`, and those that start inside the chunk behind it.
ghost use Rattle.std.specs.Prelude.{◌≡◌, true, ◌-◌, ◌≤◌, ◌<◌, length, get_or};
ghost use Rattle.ranges.specs.Ranges.{range};
ghost use Rattle.ranges.specs.Shown.{range_of};
ghost use Rattle.dxr.specs.Dxr.{fits_short, all_short, short_entry, encoded, part_length};
ghost use Rattle.dxr.specs.Loops.{Encodable, HasRoom};
ghost use Rattle.dxr.specs.Shown.{is_short_form, IsMain, IsStored};

use crate::main_word::{Form, MainWord, Part};
use crate::rows::Rows;
use ranges::words::Range;
use route::Hop;

// A chunk as it is stored: its main word, which is the hop where there is one entry, and how many
// range words are used then.
#[derive(Clone, Copy)]
pub struct Stored {
    pub word: u32,
    pub used: usize,
}

// A chunk: its ranges, and its first address.
#[derive(Clone, Copy)]
pub(crate) struct Chunk<'a> {
    pub rows: Rows<'a>,
    pub base: u32,
}

// Whether an entry fits 16 bits.
fn fits_short(e: Range) -> bool
    ensures { result ≡ fits_short (range_of e) }
{
    (e.start % 256 == 0) & (Hop::number_of(e.hop) <= 255)
}

impl<'a> Chunk<'a> {
    ghost use Rattle.dxr.specs.Chunks.{entries_in};

    // How many entries it has.
    fn len(&self) -> usize
        ensures ranges { result ≡ length self.now.rows.starts.now }
        ensures entries { result ≡ length (entries_in self.now) }
    {
        self.rows.len()
    }

    // Entry i.
    fn entry(&self, i: usize) -> Range
        requires { i < length self.now.rows.starts.now }
        ensures { range_of result ≡ get_or (entries_in self.now) i (range 0 0) }
    {
        Range {
            start: self.rows.starts[i].saturating_sub(self.base),
            hop: Hop::new(self.rows.hops[i]),
        }
    }

    // The form of its entries: short where all of them fit 16 bits.
    fn form(&self) -> Form
        ensures { is_short_form result ≡ all_short (entries_in self.now) }
    {
        for i in 0..self.len() {
            if !fits_short(self.entry(i)) {
                return Form::Long;
            }
        }
        Form::Short
    }

    // Its main word, where its range words have this position.
    pub(crate) fn main_word(&self, position: usize) -> MainWord
        requires { (0 < length (entries_in self.now)) × (length (entries_in self.now) < 16384) × (position < 65536) }
        ensures { IsMain (entries_in self.now) position result }
    {
        let count = self.len();
        if count == 1 {
            return MainWord::Direct(Hop::new(self.rows.hops[0]));
        }
        MainWord::Pointer(Part {
            form: self.form(),
            count,
            position,
        })
    }

    // The 16 bits of short entry i, 0 behind the last.
    fn short_half(&self, i: usize) -> u32
        requires { Encodable true (entries_in self.now) }
        ensures { (result ≡ short_entry (get_or (entries_in self.now) i (range 0 0))) × (result < 65536) }
    {
        if i < self.len() {
            let e = self.entry(i);
            e.start / 256 * 256 + Hop::number_of(e.hop)
        } else {
            0
        }
    }

    // Range word k, in the one form or the other.
    fn word(&self, form: Form, k: usize) -> u32
        requires encodable { Encodable (is_short_form form) (entries_in self.now) }
        requires k_bound { k < part_length (is_short_form form) (length (entries_in self.now)) }
        ensures { result ≡ get_or (encoded (is_short_form form) (entries_in self.now)) k 0 }
    {
        match form {
            Form::Short => {
                let upper = self.short_half(2 * k);
                upper * 65536 + self.short_half(2 * k + 1)
            }
            Form::Long => {
                let e = self.entry(k);
                e.start * 65536 + Hop::number_of(e.hop)
            }
        }
    }

    // Writes the range words.
    fn put_words(&self, form: Form, part: &mut [u32])
        requires encodable { Encodable (is_short_form form) (entries_in self.now) }
        requires part_len { length part.old ≡ part_length (is_short_form form) (length (entries_in self.now)) }
        ensures { part.new ≡ encoded (is_short_form form) (entries_in self.now) }
    {
        for (k, word) in part.iter_mut().enumerate() {
            *word = self.word(form, k);
        }
    }

    // Stores the chunk: its range words go behind those that are used, in the row that C lends.
    pub(crate) fn store(&self, words: &mut [u32], used: usize) -> Stored
        requires { HasRoom (entries_in self.now) words.old used }
        ensures { IsStored (entries_in self.now) used words.old result words.new }
    {
        let main = self.main_word(used);
        let stored = Stored {
            word: main.word(),
            used: used + main.words(),
        };
        if let MainWord::Pointer(p) = main {
            self.put_words(p.form, &mut words[used..stored.used]);
        }
        stored
    }
}
