// Routes: the types of the whole library, its refusals, and the plain answer over a list.
//
// A slot number, a next-hop number and a prefix length are small numbers of three sorts. Each is a
// struct of its own, so that no call takes one for another. A call answers a `Result`, with a
// `Refusal` as its error; the definitions of specs/Shown give the number and the place of each, and
// every contract goes through them.
//
// Where no prefix matches there is no next hop: a lookup finds an `Option`. A lent row, a range and a
// main word hold a number, which is 0 for none.
#![tactic(auto)]

pub mod filter;
pub mod list;
pub mod order;
pub mod rule;

ghost use Rattle.std.specs.Prelude.{◌≡◌, Ok};
ghost use Rattle.route.specs.Refusals.{value};
ghost use Rattle.route.specs.Shown.{hop_number, number, place, shown};

// The most entries of a list.
pub const MAX_ROUTES: usize = 4096;

// The largest next hop; the least is 1.
pub const MAX_HOP: u32 = 65535;

// The length of a prefix in bits.
#[repr(C)]
#[derive(Clone, Copy, PartialEq, Eq, PartialOrd, Ord)]
pub struct Length(pub u32);

// A next hop.
#[repr(C)]
#[derive(Clone, Copy, PartialEq, Eq, PartialOrd, Ord)]
pub struct Hop(pub u32);

// A slot's place in a table.
#[derive(Clone, Copy, PartialEq, Eq, PartialOrd, Ord)]
pub struct Slot(pub usize);

// A prefix: the addresses that have its first bits, as many as its length says.
#[repr(C)]
#[derive(Clone, Copy, PartialEq, Eq)]
pub struct Prefix {
    pub address: u32,
    pub length: Length,
}

// A prefix with its next hop.
#[repr(C)]
#[derive(Clone, Copy)]
pub struct Route {
    pub prefix: Prefix,
    pub hop: Hop,
}

// Why a call is refused: a case for each number of the table in docs/SPECIFICATION.md, with the
// place where the fault has one.
#[derive(Clone, Copy)]
pub enum Refusal {
    Length(usize),
    Address(usize),
    Hop(usize),
    Twice(usize),
    Full,
    Absent,
    Image(usize),
    Size,
    Room,
    Plan(usize),
    Number(usize),
    Cut(usize),
    Kind(usize),
}

impl Hop {
    // The hop that a number says; 0 is none.
    pub fn new(n: u32) -> Option<Hop>
        ensures number { hop_number result ≡ n }
        ensures shown { shown (Ok result) ≡ value n }
    {
        match n {
            0 => None,
            _ => Some(Hop(n)),
        }
    }

    // The number of a hop, 0 where there is none. No `From` can say it: neither of its types is of this crate.
    pub fn number_of(hop: Option<Hop>) -> u32
        ensures { result ≡ hop_number hop }
    {
        match hop {
            None => 0,
            Some(h) => h.0,
        }
    }
}

impl Refusal {
    // The refusal's number in the table, which the C interface and the report give.
    pub fn number(self) -> u32
        ensures { result ≡ number self }
    {
        match self {
            Refusal::Length(_) => 1,
            Refusal::Address(_) => 2,
            Refusal::Hop(_) => 3,
            Refusal::Twice(_) => 4,
            Refusal::Full => 5,
            Refusal::Absent => 6,
            Refusal::Image(_) => 7,
            Refusal::Size => 8,
            Refusal::Room => 9,
            Refusal::Plan(_) => 10,
            Refusal::Number(_) => 11,
            Refusal::Cut(_) => 12,
            Refusal::Kind(_) => 13,
        }
    }

    // The refusal's place, 0 where it has none.
    pub fn place(self) -> usize
        ensures { result ≡ place self }
    {
        match self {
            Refusal::Length(p)
            | Refusal::Address(p)
            | Refusal::Hop(p)
            | Refusal::Twice(p)
            | Refusal::Image(p)
            | Refusal::Plan(p)
            | Refusal::Number(p)
            | Refusal::Cut(p)
            | Refusal::Kind(p) => p,
            Refusal::Full | Refusal::Absent | Refusal::Size | Refusal::Room => 0,
        }
    }
}
