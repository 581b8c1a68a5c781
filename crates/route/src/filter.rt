// A filter before a search: where it says that a prefix was never noted, nothing need be searched.
//
// Each prefix has one word of a row, and two bits of it. To note a prefix is to set its bits; where
// they are not all set, it was not noted. The row may hold anything at first: a set bit costs a
// search, and never an answer.
ghost use Rattle.std.specs.Prelude.{◌≡◌, ◌<◌, ◌≤◌, length, replicate};
ghost use Rattle.route.specs.Filter.{hash_of, word_in, bits_of, Noting};

use crate::{Length, Prefix};

// A filter of so many words.
#[derive(Drop)]
pub struct Filter<const WORDS: usize> {
    pub words: [u64; WORDS],
    ghost some: { 0 < WORDS },
}

// A number for each prefix, of which its word and its bits are parts.
fn hash(p: Prefix) -> u64
    ensures { result ≡ hash_of p.address p.length.0 }
{
    (p.address as u64) * 2654435769 + (p.length.0 as u64) * 1540483477
}

// The word of a number in a row of so many words. A power of two is used evenly.
fn word_in(words: usize, h: u64) -> usize
    requires { 0 < words }
    ensures { (result ≡ word_in words h) × (result < words) }
{
    ((h >> 20) as usize) & (words - 1)
}

// The bits of a number.
fn bits_of(h: u64) -> u64
    ensures { result ≡ bits_of h }
{
    (1 << ((h >> 32) % 64)) | (1 << ((h >> 38) % 64))
}

// Notes a prefix in a row of one word or more; whether it may have been noted before.
pub fn note(filter: &mut [u64], address: u32, n: Length) -> bool
    requires { 0 < length filter.old }
    ensures { Noting filter.old address n.0 result filter.new }
{
    let h = hash(Prefix { address, length: n });
    let w = word_in(filter.len(), h);
    let before = filter[w];
    let after = before | bits_of(h);
    filter[w] = after;
    after == before
}

impl<const WORDS: usize> Filter<WORDS> {
    // A filter whose words are all the same: 0 where no prefix was noted, all ones where every prefix may
    // have been. That a size is in range stands at each function over one: no type says it of a const parameter.
    pub fn of(word: u64) -> Filter<WORDS>
        requires { (0 < WORDS) × (WORDS ≤ 4096) }
        ensures { result.words ≡ replicate WORDS word }
    {
        Filter {
            words: [word; WORDS],
        }
    }

    // Notes a prefix; whether it may have been noted before.
    pub fn note(&mut self, p: Prefix) -> bool
        ensures noting { Noting self.old.words p.address p.length.0 result self.new.words }
        ensures words_len_unchanged { length self.new.words ≡ length self.old.words }
    {
        note(&mut self.words, p.address, p.length)
    }
}
