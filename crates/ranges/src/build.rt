// The build: the merged ranges of a list, written to two lent rows.
//
// The list is tested, its prefixes are sorted, the sweep makes the ranges in scratch of this call's
// own, and the room is tested: only then is the first cell written. The scratch is larger for a
// longer list, so that a short one does not pay for clearing it; each size is in a frame of its own.
ghost use Rattle.std.specs.Prelude.{◌≡◌, ◌*◌, ◌<◌, ◌≤◌, map, length};
ghost use Rattle.route.specs.Entries.{routes_of};
ghost use Rattle.route.specs.Shown.{counted};
ghost use Rattle.route.specs.Rows.{overwritten};
ghost use Rattle.ranges.specs.Ranges.{max_ranges, starts_of, hops_of};
ghost use Rattle.ranges.specs.Shown.{range_of};
ghost use Rattle.ranges.specs.Builds.{IsBuilt};
ghost use Rattle.ranges.specs.Keys.{keys_of};
ghost use Rattle.ranges.specs.Loops.{Accepted};

use crate::Built;
use crate::shuffle::shuffle;
use crate::sweep::Sweep;
use crate::words::{Key, Range};
use route::list::List;
use route::{Hop, Refusal};

// The keys of a list's prefixes.
fn pack(list: &List, keys: &mut [Key])
    requires { length keys.old ≡ length list.now.addresses.now }
    ensures { keys.new ≡ keys_of (routes_of list.now) }
{
    for i in 0..list.len() {
        keys[i] = Key::from(list.entry(i));
    }
}

// Writes ranges to the front of two rows. The rows are a parameter each: if a struct kept them, each
// contract would have to name the references in it.
fn write_rows(ranges: &[Range], starts: &mut [u32], range_hops: &mut [u32])
    requires { (length ranges.now ≤ length starts.old) × (length ranges.now ≤ length range_hops.old) }
    ensures starts_after { starts.new ≡ overwritten (starts_of (map range_of ranges.now)) starts.old }
    ensures range_hops_after { range_hops.new ≡ overwritten (hops_of (map range_of ranges.now)) range_hops.old }
{
    for (i, r) in ranges.iter().enumerate() {
        starts[i] = r.start;
        range_hops[i] = Hop::number_of(r.hop);
    }
}

// The build of a list that has been tested, with scratch: a key for each entry, room for as many
// ranges as there can be.
fn build_in(
    list: &List,
    starts: &mut [u32],
    range_hops: &mut [u32],
    keys: &mut [Key],
    ranges: &mut [Range],
) -> Result<usize, Refusal>
    requires accepted { Accepted list.now }
    requires keys_len { (length keys.old ≡ length list.now.addresses.now) × (2 * length keys.old < length ranges.old) }
    ensures { IsBuilt 32 list.now.addresses.now list.now.lengths.now list.now.hops.now starts.old range_hops.old (counted result) starts.new range_hops.new }
{
    pack(list, keys);
    shuffle(keys);
    keys.sort_unstable();
    let made = Sweep::new(keys, ranges).run();
    if (starts.len() < made.len()) | (range_hops.len() < made.len()) {
        return Err(Refusal::Room);
    }
    write_rows(made, starts, range_hops);
    Ok(made.len())
}

// The same with scratch of so many keys and ranges.
#[inline(never)]
fn build_with<const KEYS: usize, const RANGES: usize>(
    list: &List,
    starts: &mut [u32],
    range_hops: &mut [u32],
) -> Result<usize, Refusal>
    requires accepted { Accepted list.now }
    requires scratch { (length list.now.addresses.now ≤ KEYS) × (2 * KEYS < RANGES) × (RANGES ≤ max_ranges) }
    ensures { IsBuilt 32 list.now.addresses.now list.now.lengths.now list.now.hops.now starts.old range_hops.old (counted result) starts.new range_hops.new }
{
    let mut keys = [Key(0); KEYS];
    let mut ranges = [Range {
        start: 0,
        hop: None,
    }; RANGES];
    build_in(
        list,
        starts,
        range_hops,
        &mut keys[..list.len()],
        &mut ranges,
    )
}

// Builds the merged ranges of a list in the front of two rows: how many there are, or refusals 8, 1
// to 4 as of `list::check`, or 9 where a row is shorter than that. A refusal leaves both rows as they
// were.
pub fn build(
    addresses: &[u32],
    lengths: &[u32],
    hops: &[u32],
    starts: &mut [u32],
    range_hops: &mut [u32],
) -> Built
    ensures { IsBuilt 32 addresses.now lengths.now hops.now starts.old range_hops.old (counted result) starts.new range_hops.new }
{
    let list = List::new(addresses, lengths, hops)?;
    list.check()?;
    match list.len() {
        0..=64 => build_with::<64, 129>(&list, starts, range_hops),
        65..=1024 => build_with::<1024, 2049>(&list, starts, range_hops),
        _ => build_with::<4096, 8193>(&list, starts, range_hops),
    }
}
