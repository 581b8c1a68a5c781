// The plain answer over a list that is lent as one slice of prefixes.
//
// `copy_rows` walks the slice and writes its rows, addresses, lengths and hops, one behind the other
// into an array of the call's own; the calls over rows answer. An array is cleared at every call, so
// there are four sizes of it, and a short list does not pay for the longest.
#![tactic(auto)]

ghost use Rattle.std.specs.Prelude.{◌≡◌, ◌*◌, ◌≤◌, ◌<◌, length, Err};
ghost use Rattle.route.specs.Rows.{overwritten};
ghost use Rattle.route.specs.Shown.{counted, shown};
ghost use Rattle.prefixes.specs.Prefixes.{prefixes_check, prefixes_lookup};
ghost use Rattle.prefixes.specs.Queries.{three_rows, ReturnsAtRows};

use route::{Hop, MAX_ROUTES, Refusal, Route, list};

// Tests a list; refusals as of `route::list::check`.
pub fn check(list: &[Route]) -> Result<usize, Refusal>
    ensures { counted result ≡ prefixes_check 32 list.now }
{
    query(list, list::check)
}

// The next hop of the longest prefix that matches q; refusals as of `check`.
pub fn lookup(list: &[Route], q: u32) -> Result<Option<Hop>, Refusal>
    ensures { shown result ≡ prefixes_lookup 32 list.now q }
{
    query(list, |addresses: &[u32], lengths: &[u32], hops: &[u32]| {
        list::lookup(addresses, lengths, hops, q)
    })
}

// Queries the rows of a list of any length, or refusal 8 where it has too many entries.
fn query<T, F: FnOnce(&[u32], &[u32], &[u32]) -> Result<T, Refusal>>(
    list: &[Route],
    ask: F,
) -> Result<T, Refusal>
    requires { F.IsAlwaysCallable ask }
    ensures few { length list.now ≤ MAX_ROUTES → ReturnsAtRows F.FnOnce ask list.now result }
    ensures many { MAX_ROUTES < length list.now → result ≡ Err Refusal.Size }
{
    match list.len() {
        0..=64 => query_rows::<192, _, _>(list, ask),
        65..=256 => query_rows::<768, _, _>(list, ask),
        257..=1024 => query_rows::<3072, _, _>(list, ask),
        1025..=MAX_ROUTES => query_rows::<12288, _, _>(list, ask),
        _ => Err(Refusal::Size),
    }
}

// Queries the rows of a list, which an array of so many cells has room for. It is a function of its own
// in the compiled code, so that the array is in no frame of another size.
#[inline(never)]
fn query_rows<const CELLS: usize, T, F: FnOnce(&[u32], &[u32], &[u32]) -> Result<T, Refusal>>(
    list: &[Route],
    ask: F,
) -> Result<T, Refusal>
    requires room { 3 * length list.now ≤ CELLS }
    requires small { CELLS ≤ 12288 }
    requires callable { F.IsAlwaysCallable ask }
    ensures { ReturnsAtRows F.FnOnce ask list.now result }
{
    let n = list.len();
    let mut rows = [0u32; CELLS];
    copy_rows(list, &mut rows);
    let rows = &rows[..];
    ask(&rows[..n], &rows[n..2 * n], &rows[2 * n..3 * n])
}

// Writes the rows of a list, one behind the other, over the front of a row.
fn copy_rows(list: &[Route], rows: &mut [u32])
    requires { 3 * length list.now ≤ length rows.old }
    ensures { rows.new ≡ overwritten (three_rows list.now) rows.old }
{
    let n = list.len();
    for (i, r) in list.iter().enumerate() {
        rows[i] = r.prefix.address;
        rows[n + i] = r.prefix.length.0;
        rows[2 * n + i] = r.hop.0;
    }
}
