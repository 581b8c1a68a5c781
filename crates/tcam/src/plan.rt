// Planned updates: the writes that set or remove a prefix, put into a lent row.
//
// The table is tested, the prefix is sought, and one pass over the slots finds every length's edge
// slot. Sets and removals, above the pool and below it, are then one chain of copies: for each length
// between the prefix's and the pool, in turn, its edge entry goes to the open slot, and its own slot is
// open next. The writes are counted first, so that a row without room for them is left as it was.
ghost use Rattle.std.specs.Prelude.{◌≡◌, ℕ, ◌+◌, ◌*◌, ◌<◌, ◌≤◌, [], ◌∷◌, length, replicate, if◌then◌else◌, nat_eq, slice_index, IfSome, None};
ghost use Rattle.std.proofs.Math.Option.{none};
ghost use Rattle.std.proofs.Math.ListN;
ghost use Rattle.std.proofs.lemmas.List.Edits.{sets};
ghost use Rattle.route.specs.Refusals.{fine};
ghost use Rattle.route.specs.Shown.{counted};
ghost use Rattle.tcam.specs.Slots.{max_slots, is_free, slot_fault};
ghost use Rattle.tcam.specs.Plans.{first_slot, of_prefix, remove_by, remove_present, set_at, with_room, write, numbers, plan_set, plan_remove, IsPlanned};
ghost use Rattle.tcam.specs.Shown.{cell_of, place_of};
ghost use Rattle.tcam.specs.Loops.{EdgesOf, visited, lengths_to, edge, edge_of};
ghost use Rattle.tcam.specs.Held.{cells_of};

use crate::Planned;
use crate::image::slots_check;
use crate::slots::{Cell, Group};
use crate::table::Table;
use route::rule::{entry_check, prefix_check};
use route::{Length, Prefix, Refusal, Route, Slot};

// The groups of slots: one for each length, and the pool.
const GROUPS: usize = 34;

// Lengths in turn: `count` of them from `from` on, rising, or else falling.
#[derive(Clone, Copy)]
pub struct Lengths {
    pub up: bool,
    pub count: u32,
    pub from: Length,
    ghost within: { from.0 + count ≤ 33 },
}

impl Lengths {
    ghost use Rattle.tcam.specs.InTurn.{lengths_of};

    // The lengths between length n and the pool.
    fn to(up: bool, n: Length) -> Lengths
        requires { n.0 ≤ 32 }
        ensures lengths { lengths_of result ≡ lengths_to 32 result.up n.0 }
        ensures up { result.up ≡ up }
    {
        if Length(16) <= n {
            return Lengths {
                up,
                count: n.0 - 16,
                from: Length(16),
            };
        }
        Lengths {
            up,
            count: 15 - n.0,
            from: Length(n.0 + 1),
        }
    }
}

impl Iterator for Lengths {
    ghost use Rattle.std.specs.Iterator.{YieldsFirstBy, at_most};
    ghost use Rattle.tcam.specs.InTurn.{lengths_of};

    type Item = Length;

    ghost next_gives = { YieldsFirstBy (λ n. n.0) lengths_of };

    ghost remaining = { λ s. at_most s.count };

    fn next(&mut self) -> Option<Length> {
        if self.count == 0 {
            return None;
        }
        let from = self.from;
        self.count -= 1;
        if self.up {
            self.from = Length(from.0 + 1);
            return Some(from);
        }
        Some(Length(from.0 + self.count))
    }
}

// The slot that holds a prefix. It is no `position`: by that one goal stays open.
fn find(table: &Table, p: Prefix) -> Option<Slot>
    ensures first { place_of result ≡ first_slot (of_prefix p.address p.length.0) 0 (cells_of table.now) }
    ensures inside { IfSome result (λ s. s.0 < length table.now.addresses.now) }
{
    for i in 0..table.len() {
        if table.cell(Slot(i)).has_prefix(p) {
            return Some(Slot(i));
        }
    }
    None
}

// The slot that a pass over m slots comes to after k others. A range and its reverse have two types, and
// one loop goes either way.
fn visit(up: bool, m: usize, k: usize) -> Slot
    requires { k < m }
    ensures { (result.0 ≡ visited up m k) × (result.0 < m) }
{
    if up { Slot(m - 1 - k) } else { Slot(k) }
}

// Every length's edge slot, and the pool's, in one pass: the first ones, or else the last ones. They go to a row of
// the caller's: an array that is answered, and then a part of a chain, would be copied by a call of `memcpy`.
fn find_edges(table: &Table, up: bool, edges: &mut [Option<Slot>; GROUPS])
    requires keeps { slot_fault 32 0 (cells_of table.now) ≡ fine }
    requires none { edges.old ≡ replicate 34 None }
    ensures { EdgesOf 32 up (cells_of table.now) edges.new }
{
    let m = table.len();
    for k in 0..m {
        let s = visit(up, m, k);
        edges[table.cell(s).group().0] = Some(s);
    }
}

// Write w of a plan, which is a row that C lends.
fn put_write(plan: &mut [u32], w: usize, s: Slot, c: Cell)
    requires { (3 * w + 3 ≤ length plan.old) × (s.0 < max_slots) }
    ensures { plan.new ≡ sets plan.old (3 * w) (s.0 ∷ c.address ∷ c.tag ∷ []) }
{
    let at = 3 * w;
    plan[at] = s.0 as u32;
    plan[at + 1] = c.address;
    plan[at + 2] = c.tag;
}

// The lengths between a prefix's and the pool, in turn, and the edge slots of the table.
#[derive(Clone, Copy)]
struct Chain<'a, 'e> {
    table: Table<'a>,
    lengths: Lengths,
    edges: &'e [Option<Slot>; GROUPS],
    ghost edges_of: { EdgesOf 32 lengths.up (cells_of table) edges.now },
}

// That the length is at most 32 and that the table keeps S1 stand at the functions that make a chain: both were tested
// by their callers, and a type for each would be made and taken apart in the next call.
impl<'a, 'e> Chain<'a, 'e> {
    ghost use Rattle.tcam.specs.InTurn.{lengths_of, chain_of};

    // The chain between length n and the pool, with a row for the edge slots.
    fn to(
        table: &Table<'a>,
        up: bool,
        n: Length,
        edges: &'e mut [Option<Slot>; GROUPS],
    ) -> Chain<'a, 'e>
        requires keeps { (slot_fault 32 0 (cells_of table.now) ≡ fine) × (n.0 ≤ 32) }
        requires none { edges.old ≡ replicate 34 None }
        ensures table { (result.table.addresses.now ≡ table.now.addresses.now) × (result.table.tags.now ≡ table.now.tags.now) }
        ensures lengths { lengths_of result.lengths ≡ lengths_to 32 result.lengths.up n.0 }
        ensures up { result.lengths.up ≡ up }
    {
        find_edges(table, up, edges);
        Chain {
            table: *table,
            lengths: Lengths::to(up, n),
            edges: &*edges,
        }
    }

    // The edge slot of length n.
    fn edge(&self, n: Length) -> Option<Slot>
        requires { n.0 ≤ 32 }
        ensures edge { place_of result ≡ edge_of self.now.lengths.up (cells_of self.now.table) n.0 }
        ensures inside { IfSome result (λ s. s.0 < length self.now.table.addresses.now) }
    {
        self.edges[Group::from(n).0]
    }

    // The pool's.
    fn pool(&self) -> Option<Slot>
        ensures edge { place_of result ≡ edge self.now.lengths.up is_free (cells_of self.now.table) }
        ensures inside { IfSome result (λ s. s.0 < length self.now.table.addresses.now) }
    {
        self.edges[Group::POOL.0]
    }

    // How many writes the chain has: one for each of the lengths that has an edge slot, and the last.
    fn writes(&self) -> usize
        ensures many { (at : ℕ) → (last : Cell) → result ≡ length (chain_of self.now.lengths (cells_of self.now.table) at (cell_of last)) }
        ensures few { result ≤ 34 }
    {
        let mut writes = 1;
        for n in self.lengths {
            writes += usize::from(self.edge(n).is_some());
        }
        writes
    }

    // The copies of the lengths' edge entries, from write `start` of a plan on, then the last cell.
    fn put(&self, pool: Slot, last: Cell, start: usize, plan: &mut [u32])
        requires pool_in_bounds { pool.0 < length self.now.table.addresses.now }
        requires last_in_bounds { 3 * (start + length (chain_of self.now.lengths (cells_of self.now.table) pool.0 (cell_of last))) ≤ length plan.old }
        ensures { plan.new ≡ sets plan.old (3 * start) (numbers (chain_of self.now.lengths (cells_of self.now.table) pool.0 (cell_of last))) }
    {
        let mut vacant = pool;
        let mut w = start;
        for n in self.lengths {
            if let Some(s) = self.edge(n) {
                let moved = self.table.cell(s);
                put_write(plan, w, vacant, moved);
                vacant = s;
                w += 1;
            }
        }
        put_write(plan, w, vacant, last);
    }

    // The writes of the chain, or refusal 9 where the plan has no room for them.
    fn plan(&self, pool: Slot, last: Cell, plan: &mut [u32]) -> Result<usize, Refusal>
        requires { pool.0 < length self.now.table.addresses.now }
        ensures { IsPlanned (with_room (length plan.old) fine (chain_of self.now.lengths (cells_of self.now.table) pool.0 (cell_of last))) plan.old (counted result) plan.new }
    {
        let writes = self.writes();
        if plan.len() < 3 * writes {
            return Err(Refusal::Room);
        }
        self.put(pool, last, 0, plan);
        Ok(writes)
    }

    // The writes that take the entry of slot s out: that of slot `edge` goes there first, unless it is
    // the same slot, and the chain from there ends with a free slot.
    fn plan_gap(&self, s: Slot, edge: Slot, plan: &mut [u32]) -> Result<usize, Refusal>
        requires { (s.0 < length self.now.table.addresses.now) × (edge.0 < length self.now.table.addresses.now) }
        ensures { IsPlanned (with_room (length plan.old) fine (remove_by (edge_of self.now.lengths.up (cells_of self.now.table)) (cells_of self.now.table) (lengths_of self.now.lengths) s.0 edge.0)) plan.old (counted result) plan.new }
    {
        let free = Cell { address: 0, tag: 0 };
        if s == edge {
            return self.plan(edge, free, plan);
        }
        let total = self.writes() + 1;
        if plan.len() < 3 * total {
            return Err(Refusal::Room);
        }
        put_write(plan, 0, s, self.table.cell(edge));
        self.put(edge, free, 1, plan);
        Ok(total)
    }
}

// The plan that sets the absent prefix of c, whose length is n: the lengths between n and the pool
// make room.
fn insert(table: &Table, n: Length, c: Cell, plan: &mut [u32]) -> Result<usize, Refusal>
    requires { (slot_fault 32 0 (cells_of table.now) ≡ fine) × (n.0 ≤ 32) }
    ensures { IsPlanned (set_at 32 (cells_of table.now) n.0 (cell_of c) (length plan.old) none) plan.old (counted result) plan.new }
{
    let mut edges = [None; GROUPS];
    let chain = Chain::to(table, Length(16) <= n, n, &mut edges);
    match chain.pool() {
        None => Err(Refusal::Full),
        Some(s) => chain.plan(s, c, plan),
    }
}

// The plan that replaces the entry of slot s, where its tag differs.
fn replace(table: &Table, s: Slot, c: Cell, plan: &mut [u32]) -> Result<usize, Refusal>
    requires { s.0 < length table.now.addresses.now }
    ensures { IsPlanned (with_room (length plan.old) fine (if nat_eq (slice_index table.now.tags.now s.0) c.tag then [] else write s.0 (cell_of c) ∷ [])) plan.old (counted result) plan.new }
{
    if table.tags[s.0] == c.tag {
        return Ok(0);
    }
    if plan.len() < 3 {
        return Err(Refusal::Room);
    }
    put_write(plan, 0, s, c);
    Ok(1)
}

// The plan that removes the entry of slot s, whose length is n: the gap goes to the pool.
pub(crate) fn erase(table: &Table, n: Length, s: Slot, plan: &mut [u32]) -> Result<usize, Refusal>
    requires { (slot_fault 32 0 (cells_of table.now) ≡ fine) × (n.0 ≤ 32) × (s.0 < length table.now.addresses.now) }
    ensures { IsPlanned (with_room (length plan.old) fine (remove_present 32 (cells_of table.now) n.0 s.0)) plan.old (counted result) plan.new }
{
    let mut edges = [None; GROUPS];
    let chain = Chain::to(table, n < Length(16), n, &mut edges);
    chain.plan_gap(s, chain.edge(n).unwrap_or(s), plan)
}

// Plans a set: the writes, or refusal 8, 7, 1, 2, 3, 5 or 9, in this order.
pub fn plan_set(addresses: &[u32], tags: &[u32], r: Route, plan: &mut [u32]) -> Planned
    ensures { IsPlanned (plan_set 32 addresses.now tags.now r.prefix.address r.prefix.length.0 r.hop.0 (ListN.length plan.old)) plan.old (counted result) plan.new }
{
    let table = Table::new(addresses, tags)?;
    slots_check(&table)?;
    entry_check(0, r)?;
    let p = r.prefix;
    let c = Cell {
        address: p.address,
        tag: p.length.0 * 65536 + r.hop.0,
    };
    match find(&table, p) {
        None => insert(&table, p.length, c, plan),
        Some(s) => replace(&table, s, c, plan),
    }
}

// Plans a removal: the writes, or refusal 8, 7, 1, 2, 6 or 9, in this order.
pub fn plan_remove(addresses: &[u32], tags: &[u32], p: Prefix, plan: &mut [u32]) -> Planned
    ensures { IsPlanned (plan_remove 32 addresses.now tags.now p.address p.length.0 (ListN.length plan.old)) plan.old (counted result) plan.new }
{
    let table = Table::new(addresses, tags)?;
    slots_check(&table)?;
    prefix_check(0, p)?;
    let s = find(&table, p).ok_or(Refusal::Absent)?;
    erase(&table, p.length, s, plan)
}
