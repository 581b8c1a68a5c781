// Numbers: groups of seven bits, low group first, the top bit set on all bytes but the last, in the
// shortest form and at most 2^32 - 1.
ghost use Rattle.std.specs.Prelude.{◌≡◌, ◌+◌, ◌<◌, ◌≤◌, length, drop, slice_index, IfOk, IfErr};
ghost use Rattle.route.specs.Refusals.{cut_refusal};
ghost use Rattle.route.specs.Shown.{number, place};
ghost use Rattle.records.specs.Records.{bad_byte, number_in, number_at};
ghost use Rattle.records.specs.Shown.{reading_of};

use route::Refusal;

// The most bytes of a number.
const MOST_BYTES: usize = 5;

// The byte at a place, or refusal 12 where the bytes end before it.
fn byte_at(bytes: &[u8], at: usize) -> Result<u32, Refusal>
    ensures ok { IfOk result (λ b. (at < length bytes.now) × (b ≡ slice_index bytes.now at) × (b < 256)) }
    ensures err { IfErr result (λ r. (length bytes.now ≤ at) × (number r ≡ cut_refusal) × (place r ≡ at)) }
{
    match bytes.get(at) {
        Some(b) => Ok(*b as u32),
        None => Err(Refusal::Cut(at)),
    }
}

// Whether byte k of a number, counted from 0, makes it too large or longer than needed.
fn is_bad(k: usize, b: u32) -> bool
    ensures { result ≡ bad_byte k b }
{
    ((k == 4) & (15 < b)) | ((0 < k) & (b == 0))
}

// The number at a place of the bytes, with the place behind it: refusal 11 at its first byte, or 12
// where the bytes end in it. The first byte is read apart: with it in the loop below, a record takes
// 156 instructions and not 141. Without these hints numbers are read by calls.
#[inline(always)]
pub(crate) fn number_at(bytes: &[u8], at: usize) -> Result<(u32, usize), Refusal>
    ensures { reading_of result ≡ number_at bytes.now at }
{
    let b = byte_at(bytes, at)?;
    if b < 128 {
        return Ok((b, at + 1));
    }
    further_bytes(bytes, at, b - 128)
}

// The number at a place whose first byte is not its last, and has these seven bits.
#[inline(always)]
fn further_bytes(bytes: &[u8], at: usize, first: u32) -> Result<(u32, usize), Refusal>
    requires { (at < length bytes.now) × (first < 128) }
    ensures { reading_of result ≡ number_in at 1 first (drop (at + 1) bytes.now) }
{
    let mut value = first;
    let mut weight = 128;
    for k in 1..MOST_BYTES {
        let b = byte_at(bytes, at + k)?;
        if is_bad(k, b) {
            break;
        }
        if b < 128 {
            return Ok((value + b * weight, at + k + 1));
        }
        value += (b - 128) * weight;
        weight *= 128;
    }
    Err(Refusal::Number(at))
}
