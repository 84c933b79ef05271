// No call of document 01: the parts of this crate's calls. Those that write require that the room is there, and serve the
// crates above, which have tested that; `bytes_of` and `part_of` require a part of the slice.
ghost use Rattle.std.specs.Prelude.{◌≡◌, ◌+◌, ◌%◌, ◌≤◌, length};
ghost use Rattle.words.specs.Areas.{behind};
ghost use Rattle.codec.specs.Leb128.{shortest};
ghost use Rattle.codec.specs.Reading.{part_of};
ghost use Rattle.codec.specs.Writing.{sized};
ghost use Rattle.codec.specs.Inside.EnvelopeParts.{room, sized_length, Stored, Within, part_in, part_place};

use crate::{Part, Read};
use error::Refusal;

// The low seven bits of a number: the last byte of its varint.
fn low7(v: u64) -> u8
    ensures { result ≡ v % 128 }
{
    (v & 0x7f) as u8
}

// The low seven bits of a number, and the sign that more follow.
fn more7(v: u64) -> u8
    ensures { result ≡ v % 128 + 128 }
{
    low7(v) | 0x80
}

// Writes the shortest varint of v at `at`, and gives the position past it. The loop goes by what is left of v, not by how
// many groups there are, so it is a `while`.
pub fn store_varint(out: &mut [u8], at: usize, v: u64) -> usize
    requires { at + length (shortest v) ≤ length out.old }
    ensures { Stored out.old at (shortest v) result out.new }
{
    let mut rest = v;
    let mut i = at;
    while rest >= 0x80 {
        out[i] = more7(rest);
        rest = rest >> 7;
        i += 1;
    }
    out[i] = low7(rest);
    i + 1
}

// Writes `bytes` at `at`, length first, and gives the position past them.
pub fn store_bytes(out: &mut [u8], at: usize, bytes: &[u8]) -> usize
    requires { at + length (sized bytes.now) ≤ length out.old }
    ensures { Stored out.old at (sized bytes.now) result out.new }
{
    let start = store_varint(out, at, bytes.len() as u64);
    words::raw::copy(out, start, bytes);
    start + bytes.len()
}

// The position past n bytes from `at` on, in an output of len bytes; refused where it is short.
pub fn past(len: usize, at: usize, n: usize) -> Result<usize, Refusal>
    ensures { result ≡ room len at n }
{
    if n > len {
        return Err(Refusal::ShortArea);
    }
    if at > len - n {
        return Err(Refusal::ShortArea);
    }
    Ok(at + n)
}

// The same for n bytes, length first.
pub fn past_sized(len: usize, at: usize, n: usize) -> Result<usize, Refusal>
    ensures { result ≡ room len at (sized_length n) }
{
    let start = past(len, at, crate::varint_len(n as u64))?;
    past(len, start, n)
}

// The bytes of a part of s.
pub fn bytes_of(s: &[u8], part: Part) -> &[u8]
    requires { part.start + part.len ≤ length s.now }
    ensures { (result.now ≡ part_of s.now part) × (result.ref_ptr ≡ behind s.entry.ref_ptr part.start) }
{
    let end = part.start + part.len;
    &s[part.start..end]
}

// The part of s that was read, the empty one at its start where it was refused.
pub fn part_of(s: &[u8], read: Read<Part>) -> &[u8]
    requires { Within (length s.now) read }
    ensures { (result.now ≡ part_in s.now read) × (result.ref_ptr ≡ part_place s.entry.ref_ptr read) }
{
    match read {
        Ok((part, _)) => bytes_of(s, part),
        Err(_) => &s[0..0],
    }
}
