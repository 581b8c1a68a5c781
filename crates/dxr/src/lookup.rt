// The lookup: the chunk's main word is the answer, or points to the part of the range words that is
// looked through. One pass over the part, which it does not leave early, tests the rules and counts
// the starts at or below the key. Where starts rise, the entry with that number is the last of them.
// No other range word is read.
ghost use Rattle.std.specs.Prelude.{◌≡◌, true, false, cond, ◌+◌, ◌/◌, ◌%◌, ◌≤◌, ◌<◌, length, Ok};
ghost use Rattle.route.specs.Refusals.{value};
ghost use Rattle.route.specs.Shown.{shown};
ghost use Rattle.ranges.specs.Shown.{range_of};
ghost use Rattle.dxr.specs.Dxr.{short_range, long_range, decoded, part_length, dxr_lookup};
ghost use Rattle.dxr.specs.Loops.{half_at, entry_at, entries_answer, chunk_answer};
ghost use Rattle.dxr.specs.Shown.{is_short_form, pass_first, pass_next, IsPassed};

use crate::MAIN_WORDS;
use crate::main_word::{Form, MainWord};
use ranges::words::Range;
use route::{Hop, Refusal};

// The entries of a chunk: its part of the range words, their form, and how many they are.
#[derive(Clone, Copy)]
struct Entries<'a> {
    words: &'a [u32],
    form: Form,
    count: usize,
    ghost many: { 2 ≤ count },
    ghost few: { count < 16384 },
    ghost sized: { length words.now ≡ part_length (is_short_form form) count },
}

// The half of a word in which entry i stands: the earlier of two is the upper one.
fn half_at(word: u32, i: usize) -> u32
    ensures { (result ≡ half_at word i) × (result < 65536) }
{
    if i % 2 == 0 {
        word / 65536
    } else {
        word % 65536
    }
}

// The entry that half a word says.
fn short_range(half: u32) -> Range
    requires { half < 65536 }
    ensures range { range_of result ≡ short_range half }
    ensures start { result.start < 65536 }
    ensures hop { shown (Ok result.hop) ≡ value (range_of result).hop }
{
    Range {
        start: half / 256 * 256,
        hop: Hop::new(half % 256),
    }
}

// The entry that a word says.
fn long_range(word: u32) -> Range
    ensures range { range_of result ≡ long_range word }
    ensures start { result.start < 65536 }
    ensures hop { shown (Ok result.hop) ≡ value (range_of result).hop }
{
    Range {
        start: word / 65536,
        hop: Hop::new(word % 65536),
    }
}

// Entry i of a part.
fn entry_at(part: &[u32], form: Form, i: usize) -> Range
    requires { cond (is_short_form form) (i / 2) i < length part.now }
    ensures range { range_of result ≡ entry_at (is_short_form form) part.now i }
    ensures start { result.start < 65536 }
    ensures hop { shown (Ok result.hop) ≡ value (range_of result).hop }
{
    match form {
        Form::Short => short_range(half_at(part[i / 2], i)),
        Form::Long => long_range(part[i]),
    }
}

// What a pass over entries finds: whether they keep the rules, how many behind the first start at or
// below the key, and the start of the last.
// A flag and no Option, so that the loop has no exit: 1,682 long entries take 6,018 instructions, with an Option and `?` 23,584.
#[derive(Clone, Copy)]
struct Pass {
    fine: bool,
    below: u32,
    last: u32,
}

impl Pass {
    // The pass over the first entry.
    fn first(start: u32) -> Pass
        ensures { result ≡ pass_first start }
    {
        Pass {
            fine: start == 0,
            below: 0,
            last: start,
        }
    }

    // The pass over one entry more.
    fn next(self, start: u32, key: u32) -> Pass
        requires { self.below < 65536 }
        ensures { result ≡ pass_next self start key }
    {
        Pass {
            fine: self.fine & (self.last < start),
            below: self.below + (start <= key) as u32,
            last: start,
        }
    }
}

// The pass over a part of long entries.
fn pass_long(part: &[u32], key: u32) -> Pass
    requires { (1 ≤ length part.now) × (length part.now < 16384) }
    ensures { IsPassed 65536 key (decoded false (length part.now) part.now) result }
{
    let mut p = Pass::first(long_range(part[0]).start);
    for word in &part[1..] {
        p = p.next(long_range(*word).start, key);
    }
    p
}

// The pass over a part of short entries: those of the first word, of the other words that have two,
// and an odd last one. Where the number is even, the last entry is read again and not used.
// No one loop over entries for both forms: a lookup among 8.9 short entries takes 212 instructions by that, and 153 by words.
fn pass_short(part: &[u32], count: usize, key: u32) -> Pass
    requires { (2 ≤ count) × (count < 16384) × (length part.now ≡ part_length true count) }
    ensures { IsPassed 65536 key (decoded true count part.now) result }
{
    let mut p = Pass::first(short_range(part[0] / 65536).start);
    p = p.next(short_range(part[0] % 65536).start, key);
    for word in &part[1..count / 2] {
        p = p.next(short_range(*word / 65536).start, key);
        p = p.next(short_range(*word % 65536).start, key);
    }
    let odd = p.next(entry_at(part, Form::Short, count - 1).start, key);
    if count % 2 == 0 { p } else { odd }
}

impl<'a> Entries<'a> {
    // The pass over them, in the one form or the other.
    fn pass(&self, key: u32) -> Pass
        ensures { IsPassed 65536 key (decoded (is_short_form self.now.form) self.now.count self.now.words.now) result }
    {
        match self.form {
            Form::Short => pass_short(self.words, self.count, key),
            Form::Long => pass_long(self.words, key),
        }
    }

    // Refusal 7 at their chunk, or the hop for the key.
    fn look_through(&self, key: u32, chunk: usize) -> Result<Option<Hop>, Refusal>
        ensures { shown result ≡ entries_answer 65536 chunk (decoded (is_short_form self.now.form) self.now.count self.now.words.now) key }
    {
        let p = self.pass(key);
        if !p.fine {
            return Err(Refusal::Image(chunk));
        }
        Ok(entry_at(self.words, self.form, p.below as usize).hop)
    }
}

// A chunk with this main word: refusal 7 at the chunk, or the hop for the key.
fn look_in(word: u32, words: &[u32], key: u32, chunk: usize) -> Result<Option<Hop>, Refusal>
    ensures { shown result ≡ chunk_answer 65536 chunk word words.now key }
{
    match MainWord::read(word) {
        None => Err(Refusal::Image(chunk)),
        Some(MainWord::Direct(hop)) => Ok(hop),
        Some(MainWord::Pointer(p)) => {
            let end = p.position + p.form.words(p.count);
            if words.len() < end {
                return Err(Refusal::Image(chunk));
            }
            let entries = Entries {
                words: &words[p.position..end],
                form: p.form,
                count: p.count,
            };
            entries.look_through(key, chunk)
        }
    }
}

// Looks q up in a DXR table: refusal 8 for a main table that has not 65,536 words, 7 at the chunk of
// q where that breaks a rule, else the hop of the chunk's last start at or below the key.
pub fn lookup(main: &[u32], words: &[u32], q: u32) -> Result<Option<Hop>, Refusal>
    ensures { shown result ≡ dxr_lookup 32 16 main.now words.now q }
{
    if main.len() != MAIN_WORDS {
        return Err(Refusal::Size);
    }
    let chunk = (q / 65536) as usize;
    look_in(main[chunk], words, q % 65536, chunk)
}
