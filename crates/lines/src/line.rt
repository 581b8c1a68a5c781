// The lines, each with its line end.
ghost use Rattle.std.specs.Prelude.{◌≤◌, length};
ghost use Rattle.route.specs.Shown.{counted, number, route_of};
ghost use Rattle.lines.specs.Lines.{header_line, update_line, set_line, remove_line, refused_line, slot_line, end_line, too_long_line, IsWritten};

use crate::text::Line;
use route::{Hop, Prefix, Refusal, Route, Slot};

// The first line: the number of slots.
pub fn header(slots: usize, out: &mut [u8]) -> Result<usize, Refusal>
    ensures { IsWritten (header_line slots) out.old (counted result) out.new }
{
    let mut line = Line::new();
    line.push_str("routes");
    line.push_behind(' ', slots as u64);
    line.push_str("\n");
    text_line(line.as_str(), out)
}

// A set that was made: the record's number, the prefix with its hop, the writes, the used slots after.
pub fn set(
    nth: usize,
    r: Route,
    writes: usize,
    used: usize,
    out: &mut [u8],
) -> Result<usize, Refusal>
    ensures { IsWritten (set_line nth (route_of r) writes used) out.old (counted result) out.new }
{
    update(nth, " set ", r, writes, used, out)
}

// A removal that was made; its hop is 0.
pub fn remove(
    nth: usize,
    prefix: Prefix,
    writes: usize,
    used: usize,
    out: &mut [u8],
) -> Result<usize, Refusal>
    ensures { IsWritten (remove_line nth prefix.address prefix.length.0 writes used) out.old (counted result) out.new }
{
    let r = Route {
        prefix,
        hop: Hop(0),
    };
    update(nth, " remove ", r, writes, used, out)
}

// An update that was refused, or a record that cannot be read.
pub fn refused(nth: usize, f: Refusal, out: &mut [u8]) -> Result<usize, Refusal>
    ensures { IsWritten (refused_line nth (number f)) out.old (counted result) out.new }
{
    let mut line = Line::new();
    line.push_decimal(nth as u64);
    line.push_str(" refused");
    line.push_behind(' ', f.number() as u64);
    line.push_str("\n");
    text_line(line.as_str(), out)
}

// A used slot: its number, and the prefix with its hop.
pub fn slot(slot: Slot, r: Route, out: &mut [u8]) -> Result<usize, Refusal>
    ensures { IsWritten (slot_line slot.0 (route_of r)) out.old (counted result) out.new }
{
    let mut line = Line::new();
    line.push_str("slot");
    line.push_behind(' ', slot.0 as u64);
    line.push_str(" ");
    line.push_route(r);
    line.push_str("\n");
    text_line(line.as_str(), out)
}

// The last line.
pub fn end(out: &mut [u8]) -> Result<usize, Refusal>
    ensures { IsWritten end_line out.old (counted result) out.new }
{
    text_line("end\n", out)
}

// The only line where the input is too long.
pub fn too_long(out: &mut [u8]) -> Result<usize, Refusal>
    ensures { IsWritten too_long_line out.old (counted result) out.new }
{
    text_line("too long\n", out)
}

// A line's text, copied to the buffer's front where it fits.
fn text_line(text: &str, out: &mut [u8]) -> Result<usize, Refusal>
    ensures { IsWritten text.now out.old (counted result) out.new }
{
    let n = text.len();
    if out.len() < n {
        return Err(Refusal::Room);
    }
    out[..n].copy_from_slice(text.as_bytes());
    Ok(n)
}

// An update that was made, with its word.
//
// The numbers stay parameters: a struct of them would be built for one call and taken apart in it.
fn update(
    nth: usize,
    word: &str,
    r: Route,
    writes: usize,
    used: usize,
    out: &mut [u8],
) -> Result<usize, Refusal>
    requires { length word.now ≤ 8 }
    ensures { IsWritten (update_line nth word.now (route_of r) writes used) out.old (counted result) out.new }
{
    let mut line = Line::new();
    line.push_decimal(nth as u64);
    line.push_str(word);
    line.push_route(r);
    line.push_behind(' ', writes as u64);
    line.push_behind(' ', used as u64);
    line.push_str("\n");
    text_line(line.as_str(), out)
}
