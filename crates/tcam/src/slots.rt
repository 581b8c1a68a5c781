// One slot, and the two rows in which slots are lent.
ghost use Rattle.std.specs.Prelude.{◌≡◌, ◌≤◌, if◌then◌else◌};
ghost use Rattle.route.specs.Shown;
ghost use Rattle.route.specs.Shown.{verdict_of};
ghost use Rattle.tcam.specs.Slots.{is_free, length_in, hop_in, keeps_s1, is_upper, is_lower, hits, slots_fault};
ghost use Rattle.tcam.specs.Tables.{route_of};
ghost use Rattle.tcam.specs.Plans.{of_prefix};
ghost use Rattle.tcam.specs.Mend.{other_tag_in};
ghost use Rattle.tcam.specs.Shown.{cell_of, group_of};

use crate::MAX_SLOTS;
use route::rule::{covers, span_of};
use route::{Hop, Length, Prefix, Refusal, Route};

// The slots of one group: the entries of one length, or the pool's free slots. A row of edge slots
// has a number for each group, the lengths 0 to 32 and then the pool; an enum would be made this number at each use.
#[derive(Clone, Copy)]
pub struct Group(pub usize);

impl Group {
    pub const POOL: Group = Group(33);
}

impl From<Length> for Group {
    ghost from_gives = { λ n g. g.0 ≡ n.0 };

    fn from(n: Length) -> Group {
        Group(n.0 as usize)
    }
}

// What a slot holds: an address, and a tag of a length and a hop.
#[derive(Clone, Copy)]
pub struct Cell {
    pub address: u32,
    pub tag: u32,
}

impl Cell {
    pub fn is_free(self) -> bool
        ensures { result ≡ is_free (cell_of self) }
    {
        (self.address == 0) & (self.tag == 0)
    }

    // How many slots it uses: 1, or 0 where it is free.
    pub fn uses(self) -> u32
        ensures { (result ≡ (if is_free (cell_of self) then 0 else 1)) × (result ≤ 1) }
    {
        !self.is_free() as u32
    }

    pub fn length(self) -> Length
        ensures { result.0 ≡ length_in (cell_of self) }
    {
        Length(self.tag / 65536)
    }

    pub fn hop(self) -> Hop
        ensures { result.0 ≡ hop_in (cell_of self) }
    {
        Hop(self.tag % 65536)
    }

    pub fn prefix(self) -> Prefix
        ensures address { result.address ≡ self.address }
        ensures length { result.length.0 ≡ length_in (cell_of self) }
    {
        Prefix {
            address: self.address,
            length: self.length(),
        }
    }

    // The prefix with its hop.
    pub fn route(self) -> Route
        ensures { Shown.route_of result ≡ route_of (cell_of self) }
    {
        Route {
            prefix: self.prefix(),
            hop: self.hop(),
        }
    }

    // S1: the slot is free or holds a valid prefix and hop.
    pub fn is_valid(self) -> bool
        ensures { result ≡ keeps_s1 32 (cell_of self) }
    {
        let n = self.length();
        if self.hop() == Hop(0) {
            return self.is_free();
        }
        (n <= Length(32)) && (self.address as u64) % span_of(n) == 0
    }

    // An entry above the pool: a length of 16 or more.
    pub fn is_upper(self) -> bool
        ensures { result ≡ is_upper 32 (cell_of self) }
    {
        !self.is_free() & (Length(16) <= self.length())
    }

    // An entry below the pool.
    pub fn is_lower(self) -> bool
        ensures { result ≡ is_lower 32 (cell_of self) }
    {
        !self.is_free() & (self.length() < Length(16))
    }

    // Whether the slot holds this prefix. Its parts are compared without a branch between them: by `==` of two prefixes a
    // removal that finds nothing in 4,096 free slots takes 85,090 instructions for 76,869.
    pub fn has_prefix(self, p: Prefix) -> bool
        ensures { result ≡ of_prefix p.address p.length.0 (cell_of self) }
    {
        !self.is_free() & (self.length() == p.length) & (self.address == p.address)
    }

    // Whether the slot holds the prefix of c with another tag.
    pub fn has_other_tag(self, c: Cell) -> bool
        ensures { result ≡ other_tag_in (cell_of c) (cell_of self) }
    {
        self.has_prefix(c.prefix()) & (self.tag != c.tag)
    }

    pub fn group(self) -> Group
        ensures { result.0 ≡ group_of 32 (cell_of self) }
    {
        if self.is_free() {
            return Group::POOL;
        }
        Group::from(self.length())
    }

    // Whether a lookup of q stops here: the slot is used and matches.
    pub fn hits(self, q: u32) -> bool
        ensures { result ≡ hits 32 q (cell_of self) }
    {
        !self.is_free() & covers(self.prefix(), q)
    }
}

// Refusal 8 of two rows, by their lengths: unequal, none, or too many.
pub fn size_check(m: usize, n: usize) -> Result<(), Refusal>
    ensures { verdict_of result ≡ slots_fault m n }
{
    if !((m == n) & (1 <= m) & (m <= MAX_SLOTS)) {
        return Err(Refusal::Size);
    }
    Ok(())
}
