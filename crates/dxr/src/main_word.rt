// A main word: a chunk's hop, or where the chunk's entries stand in the range words.
//
// A word of 65,535 or less is a hop, 0 being none. Any other has three parts: 2 bits for the kind, which
// is the form of the entries, 14 for their count, 16 for the position of their first range word.
ghost use Rattle.std.specs.Prelude.{◌≡◌, ◌≤◌, ◌<◌};
ghost use Rattle.dxr.specs.Dxr.{part_length};

use route::{Hop, MAX_HOP};

// The form of a chunk's entries: long ones have a word each, of short ones two stand in a word. Its
// number is the kind of a main word.
#[derive(Clone, Copy, PartialEq, Eq)]
pub enum Form {
    Long = 1,
    Short = 2,
}

// A chunk's part of the range words: the form of its entries, their count, and its position.
#[derive(Clone, Copy)]
pub struct Part {
    pub form: Form,
    pub count: usize,
    pub position: usize,
    ghost few: { count < 16384 },
    ghost low: { position < 65536 },
}

// What a main word says.
#[derive(Clone, Copy)]
pub enum MainWord {
    Direct(Option<Hop>),
    Pointer(Part),
}

impl Form {
    ghost use Rattle.dxr.specs.Shown.{is_short_form};

    // How many range words so many entries take.
    pub(crate) fn words(self, count: usize) -> usize
        requires { count < 65536 }
        ensures length { result ≡ part_length (is_short_form self) count }
        ensures bound { result ≤ count }
    {
        match self {
            Form::Short => (count + 1) / 2,
            Form::Long => count,
        }
    }
}

impl MainWord {
    ghost use Rattle.dxr.specs.Shown.{word_of, words_of, Says};

    // What a word says; none where it breaks a rule that it alone can break.
    pub(crate) fn read(word: u32) -> Option<MainWord>
        ensures { Says word result }
    {
        if word <= MAX_HOP {
            return Some(MainWord::Direct(Hop::new(word)));
        }
        let count = (word / 65536 % 16384) as usize;
        if count < 2 {
            return None;
        }
        let form = match word / 1073741824 {
            1 => Form::Long,
            2 => Form::Short,
            _ => return None,
        };
        let position = (word % 65536) as usize;
        Some(MainWord::Pointer(Part {
            form,
            count,
            position,
        }))
    }

    // The word that says it.
    pub(crate) fn word(self) -> u32
        ensures { result ≡ word_of self }
    {
        match self {
            MainWord::Direct(hop) => Hop::number_of(hop),
            MainWord::Pointer(p) => {
                (p.form as u32) * 1073741824 + (p.count as u32) * 65536 + (p.position as u32)
            }
        }
    }

    // How many range words it points to.
    pub(crate) fn words(self) -> usize
        ensures { result ≡ words_of self }
    {
        match self {
            MainWord::Direct(_) => 0,
            MainWord::Pointer(p) => p.form.words(p.count),
        }
    }
}
