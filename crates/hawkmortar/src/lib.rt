// The C interface. Every call answers one `Outcome`: refusal 0 and the value, or the refusal's
// number and its place. A slice is a pointer, then a length in elements. Each export's contract is
// that of the call under it, through the definition `outcome`; include/hawkmortar.h declares them.
#![tactic(auto)]

ghost use Rattle.std.specs.Prelude.{◌≡◌};
ghost use Rattle.hawkmortar.specs.Outcomes.{outcome};
ghost use Rattle.route.specs.Refusals.{Answer};
ghost use Rattle.route.specs.Shown.{number, place, counted, shown};
ghost use Rattle.route.specs.Lists.{list_check, list_lookup};
ghost use Rattle.prefixes.specs.Prefixes.{prefixes_check, prefixes_lookup};
ghost use Rattle.tcam.specs.Slots.{slot_check, slot_lookup};
ghost use Rattle.tcam.specs.Plans.{plan_set, plan_remove, plan_answer, row_after};
ghost use Rattle.tcam.specs.Mend.{plan_mend};
ghost use Rattle.tcam.specs.Applies.{apply_answer, applied_addresses, applied_tags};
ghost use Rattle.tcam.specs.Download.{start, past, download};
ghost use Rattle.tcam.specs.Shown.{next_of};
ghost use Rattle.ranges.specs.Ranges.{range_lookup};
ghost use Rattle.ranges.specs.Builds.{ranges_answer, built_starts, built_hops};
ghost use Rattle.dxr.specs.Dxr.{dxr_lookup};
ghost use Rattle.dxr.specs.Builds.{dxr_answer, built_main, built_words};
ghost use Rattle.records.specs.Records.{record_at};
ghost use Rattle.records.specs.Shown.{update_of};
ghost use Rattle.hawkmortar.specs.Downloads.{given, entry_after};
ghost use Rattle.hawkmortar.specs.Records.{placed, cells, cells_after};
ghost use Rattle.std.proofs.Math.ListN;

use records::Record;
use route::{Hop, Length, Prefix, Refusal, Route};
use tcam::download::next_entry;
use tcam::slots::Cell;

#[repr(C)]
#[derive(Clone, Copy)]
pub struct Outcome {
    pub refusal: u64,
    pub value: u64,
}

// Tests a list; the value is the number of entries.
#[unsafe(no_mangle)]
pub extern "C" fn hawkmortar_list_check(addresses: &[u32], lengths: &[u32], hops: &[u32]) -> Outcome
    ensures { result ≡ outcome (list_check 32 addresses.now lengths.now hops.now) }
{
    Outcome::from(route::list::check(addresses, lengths, hops))
}

// Looks q up in a list; the value is the next hop, 0 for none.
#[unsafe(no_mangle)]
pub extern "C" fn hawkmortar_list_lookup(
    addresses: &[u32],
    lengths: &[u32],
    hops: &[u32],
    q: u32,
) -> Outcome
    ensures { result ≡ outcome (list_lookup 32 addresses.now lengths.now hops.now q) }
{
    Outcome::from(route::list::lookup(addresses, lengths, hops, q))
}

// Tests a list that is one slice of prefixes; the value is the number of entries.
#[unsafe(no_mangle)]
pub extern "C" fn hawkmortar_prefixes_check(list: &[Route]) -> Outcome
    ensures { result ≡ outcome (prefixes_check 32 list.now) }
{
    Outcome::from(prefixes::check(list))
}

// Looks q up in such a list; the value is the next hop, 0 for none.
#[unsafe(no_mangle)]
pub extern "C" fn hawkmortar_prefixes_lookup(list: &[Route], q: u32) -> Outcome
    ensures { result ≡ outcome (prefixes_lookup 32 list.now q) }
{
    Outcome::from(prefixes::lookup(list, q))
}

// Tests a table; the value is the number of used slots.
#[unsafe(no_mangle)]
pub extern "C" fn hawkmortar_slot_check(addresses: &[u32], tags: &[u32]) -> Outcome
    ensures { result ≡ outcome (slot_check 32 addresses.now tags.now) }
{
    Outcome::from(tcam::image::check(addresses, tags))
}

// Looks q up in a table; the value is the next hop, 0 for none.
#[unsafe(no_mangle)]
pub extern "C" fn hawkmortar_slot_lookup(addresses: &[u32], tags: &[u32], q: u32) -> Outcome
    ensures { result ≡ outcome (slot_lookup 32 addresses.now tags.now q) }
{
    Outcome::from(tcam::lookup::lookup(addresses, tags, q))
}

// Plans a set; the value is the number of writes, which the plan then holds.
#[unsafe(no_mangle)]
pub extern "C" fn hawkmortar_plan_set(
    addresses: &[u32],
    tags: &[u32],
    address: u32,
    length: u32,
    hop: u32,
    plan: &mut [u32],
) -> Outcome
    ensures value { result ≡ outcome (plan_answer (plan_set 32 addresses.now tags.now address length hop (ListN.length plan.old))) }
    ensures plan_after { plan.new ≡ row_after (plan_set 32 addresses.now tags.now address length hop (ListN.length plan.old)) plan.old }
{
    let route = Route {
        prefix: prefix_of(address, length),
        hop: Hop(hop),
    };
    Outcome::from(tcam::plan::plan_set(addresses, tags, route, plan))
}

// Plans a removal; the value is the number of writes, which the plan then holds.
#[unsafe(no_mangle)]
pub extern "C" fn hawkmortar_plan_remove(
    addresses: &[u32],
    tags: &[u32],
    address: u32,
    length: u32,
    plan: &mut [u32],
) -> Outcome
    ensures value { result ≡ outcome (plan_answer (plan_remove 32 addresses.now tags.now address length (ListN.length plan.old))) }
    ensures plan_after { plan.new ≡ row_after (plan_remove 32 addresses.now tags.now address length (ListN.length plan.old)) plan.old }
{
    Outcome::from(tcam::plan::plan_remove(addresses, tags, prefix_of(address, length), plan))
}

// Plans a mend; the value is the number of writes, which the plan then holds.
#[unsafe(no_mangle)]
pub extern "C" fn hawkmortar_plan_mend(addresses: &[u32], tags: &[u32], plan: &mut [u32]) -> Outcome
    ensures value { result ≡ outcome (plan_answer (plan_mend 32 addresses.now tags.now (ListN.length plan.old))) }
    ensures plan_after { plan.new ≡ row_after (plan_mend 32 addresses.now tags.now (ListN.length plan.old)) plan.old }
{
    Outcome::from(tcam::mend::plan_mend(addresses, tags, plan))
}

// Applies the first k writes of a plan; the value is k.
#[unsafe(no_mangle)]
pub extern "C" fn hawkmortar_apply(
    addresses: &mut [u32],
    tags: &mut [u32],
    plan: &[u32],
    k: usize,
) -> Outcome
    ensures value { result ≡ outcome (apply_answer 32 addresses.old tags.old plan.now k) }
    ensures addresses_after { addresses.new ≡ applied_addresses 32 addresses.old tags.old plan.now k }
    ensures tags_after { tags.new ≡ applied_tags 32 addresses.old tags.old plan.now k }
{
    Outcome::from(tcam::apply::apply(addresses, tags, plan, k))
}

// The first entry of a table in order of address, then length; its address, length and tag are put
// into three cells. The value is 1, or 0 where there is none.
#[unsafe(no_mangle)]
pub extern "C" fn hawkmortar_download_first(
    addresses: &[u32],
    tags: &[u32],
    entry: &mut [u32; 3],
) -> Outcome
    ensures value { result ≡ outcome (given (download 32 addresses.now tags.now start)) }
    ensures after { entry.new ≡ entry_after (download 32 addresses.now tags.now start) entry.old }
{
    put_next(next_entry(addresses, tags, None), entry)
}

// The next entry past a prefix, which need not be there; as of the first.
#[unsafe(no_mangle)]
pub extern "C" fn hawkmortar_download_next(
    addresses: &[u32],
    tags: &[u32],
    address: u32,
    length: u32,
    entry: &mut [u32; 3],
) -> Outcome
    ensures value { result ≡ outcome (given (download 32 addresses.now tags.now (past address length))) }
    ensures after { entry.new ≡ entry_after (download 32 addresses.now tags.now (past address length)) entry.old }
{
    let past = prefix_of(address, length);
    put_next(next_entry(addresses, tags, Some(past)), entry)
}

// The prefix that two numbers say.
fn prefix_of(address: u32, length: u32) -> Prefix
    ensures { (result.address ≡ address) × (result.length.0 ≡ length) }
{
    Prefix {
        address,
        length: Length(length),
    }
}

// What a download answered; an entry is put into three cells.
fn put_next(next: Result<Option<Cell>, Refusal>, entry: &mut [u32; 3]) -> Outcome
    ensures value { result ≡ outcome (given (next_of next)) }
    ensures after { entry.new ≡ entry_after (next_of next) entry.old }
{
    match next {
        Err(r) => Outcome::from(r),
        Ok(None) => accepted(0),
        Ok(Some(c)) => {
            *entry = [c.address, c.length().0, c.tag];
            accepted(1)
        }
    }
}

// Builds the merged ranges of a list in the front of two rows; the value is how many there are.
#[unsafe(no_mangle)]
pub extern "C" fn hawkmortar_ranges_build(
    addresses: &[u32],
    lengths: &[u32],
    hops: &[u32],
    starts: &mut [u32],
    range_hops: &mut [u32],
) -> Outcome
    ensures value { result ≡ outcome (ranges_answer 32 addresses.now lengths.now hops.now (ListN.length starts.old) (ListN.length range_hops.old)) }
    ensures starts_after { starts.new ≡ built_starts 32 addresses.now lengths.now hops.now starts.old range_hops.old }
    ensures range_hops_after { range_hops.new ≡ built_hops 32 addresses.now lengths.now hops.now starts.old range_hops.old }
{
    Outcome::from(ranges::build::build(addresses, lengths, hops, starts, range_hops))
}

// Looks q up in a range table; the value is the next hop, 0 for none.
#[unsafe(no_mangle)]
pub extern "C" fn hawkmortar_range_lookup(starts: &[u32], range_hops: &[u32], q: u32) -> Outcome
    ensures { result ≡ outcome (range_lookup starts.now range_hops.now q) }
{
    Outcome::from(ranges::lookup::lookup(starts, range_hops, q))
}

// Builds the DXR table of a list in a main table and in the front of a row of range words; the value
// is how many range words there are.
#[unsafe(no_mangle)]
pub extern "C" fn hawkmortar_dxr_build(
    addresses: &[u32],
    lengths: &[u32],
    hops: &[u32],
    main: &mut [u32],
    words: &mut [u32],
) -> Outcome
    ensures value { result ≡ outcome (dxr_answer 32 16 addresses.now lengths.now hops.now main.old words.old) }
    ensures main_after { main.new ≡ built_main 32 16 addresses.now lengths.now hops.now main.old words.old }
    ensures words_after { words.new ≡ built_words 32 16 addresses.now lengths.now hops.now main.old words.old }
{
    Outcome::from(dxr::build::build(addresses, lengths, hops, main, words))
}

// Looks q up in a DXR table; the value is the next hop, 0 for none.
#[unsafe(no_mangle)]
pub extern "C" fn hawkmortar_dxr_lookup(main: &[u32], words: &[u32], q: u32) -> Outcome
    ensures { result ≡ outcome (dxr_lookup 32 16 main.now words.now q) }
{
    Outcome::from(dxr::lookup::lookup(main, words, q))
}

// What stands at a place of some bytes: a record, whose kind, length, address and hop are put into
// four cells; the value is the next place, or the place itself at the end of the bytes.
#[unsafe(no_mangle)]
pub extern "C" fn hawkmortar_record_at(bytes: &[u8], at: usize, record: &mut [u32; 4]) -> Outcome
    ensures value { result ≡ outcome (placed at (record_at 32 bytes.now at)) }
    ensures record_after { «record».new ≡ cells_after (record_at 32 bytes.now at) «record».old }
{
    match records::reader::read(bytes, at) {
        Err(r) => Outcome::from(r),
        Ok(None) => accepted(at as u64),
        Ok(Some((r, next))) => {
            *record = cells_of(r);
            accepted(next as u64)
        }
    }
}

// A record in four cells.
fn cells_of(r: Record) -> [u32; 4]
    ensures { result ≡ cells (update_of r) }
{
    match r {
        Record::Remove(p) => [0, p.length.0, p.address, 0],
        Record::Set(r) => [1, r.prefix.length.0, r.prefix.address, r.hop.0],
    }
}

// An accepted call's value.
fn accepted(value: u64) -> Outcome
    ensures { result ≡ outcome (Answer.value value) }
{
    Outcome { refusal: 0, value }
}

impl From<Refusal> for Outcome {
    ghost from_gives = { λ r o. o ≡ outcome (Answer.refused (number r) (place r)) };

    // A refusal's number and place.
    fn from(r: Refusal) -> Outcome {
        let number = r.number() as u64;
        let place = r.place() as u64;
        Outcome {
            refusal: number,
            value: place,
        }
    }
}

impl From<Result<usize, Refusal>> for Outcome {
    ghost from_gives = { λ c o. o ≡ outcome (counted c) };

    // What a call that counts answered.
    fn from(c: Result<usize, Refusal>) -> Outcome {
        match c {
            Ok(n) => accepted(n as u64),
            Err(r) => Outcome::from(r),
        }
    }
}

impl From<Result<Option<Hop>, Refusal>> for Outcome {
    ghost from_gives = { λ f o. o ≡ outcome (shown f) };

    // What a lookup answered; none is 0.
    fn from(f: Result<Option<Hop>, Refusal>) -> Outcome {
        match f {
            Ok(hop) => accepted(Hop::number_of(hop) as u64),
            Err(r) => Outcome::from(r),
        }
    }
}
