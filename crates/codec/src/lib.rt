// From src/codec.rs and the Envelope of src/sync.rs: varints, and what a reader and a writer do at a position of a slice.
#![tactic(auto)]

pub mod raw;
pub mod reader; // a reader that refers to the bytes

ghost use Rattle.std.specs.Prelude.{◌≡◌, ◌+◌, ◌*◌, ◌%◌, ◌^◌, ◌≤◌, ◌<◌, [], ◌∷◌, ◌&&◌, length, ltb, eqb};
ghost use Rattle.codec.specs.Leb128.{shortest};
ghost use Rattle.codec.specs.Reading.{get_u8, get_varint, get_u32, get_count, get_bytes, finish};
ghost use Rattle.codec.specs.Writing.{write_call, sized};
ghost use Rattle.codec.specs.Envelopes.{envelope, read_envelope};
ghost use Rattle.codec.specs.Inside.EnvelopeParts.{room, envelope_length, Stored, read_parts};
ghost use Rattle.codec.specs.Inside.NumberParts.{get_within};
ghost use Rattle.error.specs.Answer.{ends};

use error::Refusal;
use stubs::ActorId;

// Largest accepted frame or body, in bytes.
pub const MAX_FRAME: u64 = 16777216;
// Largest accepted signature of an envelope, in bytes.
pub const MAX_SIGNATURE: u64 = 1024;

// What was read and the position past it, or the refusal.
pub type Read<T> = Result<(T, usize), Refusal>;

// A part of a slice: where it starts and how long it is.
#[derive(Clone, Copy, Debug, PartialEq, Eq)]
pub struct Part {
    pub start: usize,
    pub len: usize,
}

// The sender of an envelope, and where its body and its signature stand.
#[derive(Clone, Copy)]
pub struct Envelope {
    pub sender: ActorId,
    pub body: Part,
    pub sig: Part,
}

// How many bytes the shortest varint of v has: one for each seven bits, and one for zero.
pub fn varint_len(v: u64) -> usize
    ensures { result ≡ length (shortest v) }
{
    let bits = 64 - (v | 1).leading_zeros();
    ((bits + 6) / 7) as usize
}

// Writes the shortest varint of v at `at`, and gives the position past it.
pub fn put_varint(out: &mut [u8], at: usize, v: u64) -> Result<usize, Refusal>
    ensures { ends result out.new ≡ write_call out.old at (shortest v) }
{
    raw::past(out.len(), at, varint_len(v))?;
    Ok(raw::store_varint(out, at, v))
}

// Writes one byte at `at`, and gives the position past it.
pub fn put_u8(out: &mut [u8], at: usize, b: u8) -> Result<usize, Refusal>
    ensures { ends result out.new ≡ write_call out.old at (b ∷ []) }
{
    if at >= out.len() {
        return Err(Refusal::ShortArea);
    }
    out[at] = b;
    Ok(at + 1)
}

// Writes `bytes` at `at`, length first, and gives the position past them.
pub fn put_bytes(out: &mut [u8], at: usize, bytes: &[u8]) -> Result<usize, Refusal>
    ensures { ends result out.new ≡ write_call out.old at (sized bytes.now) }
{
    raw::past_sized(out.len(), at, bytes.len())?;
    Ok(raw::store_bytes(out, at, bytes))
}

// The low seven bits of a byte: the group that it carries.
fn group(byte: u8) -> u64
    ensures { result ≡ byte % 128 }
{
    u64::from(byte & 0x7f)
}

// Whether a byte's high bit is clear: no group follows.
fn is_last(byte: u8) -> bool
    ensures { result ≡ ltb byte 128 }
{
    byte & 0x80 == 0
}

// The value so far with one more group above it.
fn with_group(value: u64, part: u64, shift: u32) -> u64
    requires { (shift < 64) × (value < 2 ^ shift) × (part * 2 ^ shift < 2 ^ 64) }
    ensures { result ≡ value + part * 2 ^ shift }
{
    value | (part << shift)
}

// The byte at `at`.
pub fn get_u8(s: &[u8], at: usize) -> Read<u64>
    ensures { result ≡ get_u8 s.now at }
{
    if at >= s.len() {
        return Err(Refusal::Truncated);
    }
    Ok((u64::from(s[at]), at + 1))
}

// Whether a last byte adds nothing: it is zero, and there are bits before it.
fn is_padding(byte: u8, shift: u32) -> bool
    ensures { result ≡ (eqb byte 0 && ltb 0 shift) }
{
    byte == 0 && shift > 0
}

// The varint at `at`, of at most ten bytes and 64 bits, at most `most` and in its shortest form.
fn get_within(s: &[u8], at: usize, most: u64) -> Read<u64>
    ensures { result ≡ get_within most s.now at }
{
    let mut value: u64 = 0;
    let mut shift: u32 = 0;
    for i in at..s.len() {
        let byte = s[i];
        if shift >= 64 {
            return Err(Refusal::VarintOverflow);
        }
        let part = group(byte);
        if shift == 63 && part > 1 {
            return Err(Refusal::VarintOverflow);
        }
        value = with_group(value, part, shift);
        if is_last(byte) {
            if value > most {
                return Err(Refusal::VarintOverflow);
            }
            if is_padding(byte, shift) {
                return Err(Refusal::Overlong);
            }
            return Ok((value, i + 1));
        }
        shift += 7;
    }
    Err(Refusal::Truncated)
}

// The varint at `at`, in its shortest form.
pub fn get_varint(s: &[u8], at: usize) -> Read<u64>
    ensures { result ≡ get_varint s.now at }
{
    get_within(s, at, u64::MAX)
}

// The varint at `at`, of at most 32 bits, in its shortest form.
pub fn get_u32(s: &[u8], at: usize) -> Read<u64>
    ensures { result ≡ get_u32 s.now at }
{
    get_within(s, at, u32::MAX as u64)
}

// The count at `at`: at most `max`, and at most the bytes that remain.
pub fn get_count(s: &[u8], at: usize, max: u64) -> Read<u64>
    ensures { result ≡ get_count s.now at max }
{
    let (count, next) = get_varint(s, at)?;
    if count > max {
        return Err(Refusal::TooLarge);
    }
    if count > (s.len() - next) as u64 {
        return Err(Refusal::TooLarge);
    }
    Ok((count, next))
}

// The bytes at `at`, length first: at most `max`.
pub fn get_bytes(s: &[u8], at: usize, max: u64) -> Read<Part>
    ensures { result ≡ get_bytes s.now at max }
{
    let (count, start) = get_count(s, at, max)?;
    let len = count as usize;
    Ok((Part { start, len }, start + len))
}

// Whether all was read.
pub fn finish(s: &[u8], at: usize) -> Result<(), Refusal>
    ensures { result ≡ finish s.now at }
{
    if at < s.len() {
        return Err(Refusal::TrailingBytes);
    }
    Ok(())
}

// The position past an envelope whose body and signature have so many bytes, in an output of len bytes.
fn past_envelope(
    len: usize,
    sender: ActorId,
    body_len: usize,
    sig_len: usize,
) -> Result<usize, Refusal>
    ensures { result ≡ room len 0 (envelope_length sender.0 body_len sig_len) }
{
    let body_at = raw::past(len, 0, varint_len(sender.0))?;
    let sig_at = raw::past_sized(len, body_at, body_len)?;
    raw::past_sized(len, sig_at, sig_len)
}

// Writes an envelope at the start of `out`, and gives the position past it.
fn store_envelope(out: &mut [u8], sender: ActorId, body: &[u8], sig: &[u8]) -> usize
    requires { length (envelope sender.0 body.now sig.now) ≤ length out.old }
    ensures { Stored out.old 0 (envelope sender.0 body.now sig.now) result out.new }
{
    let body_at = raw::store_varint(out, 0, sender.0);
    let sig_at = raw::store_bytes(out, body_at, body);
    raw::store_bytes(out, sig_at, sig)
}

// Writes an envelope at the start of `out`, and gives the position past it.
pub fn encode_envelope(
    out: &mut [u8],
    sender: ActorId,
    body: &[u8],
    sig: &[u8],
) -> Result<usize, Refusal>
    ensures { ends result out.new ≡ write_call out.old 0 (envelope sender.0 body.now sig.now) }
{
    past_envelope(out.len(), sender, body.len(), sig.len())?;
    Ok(store_envelope(out, sender, body, sig))
}

// Reads body and signature of an envelope from `at` on; nothing may remain.
fn decode_parts(s: &[u8], sender: ActorId, at: usize) -> Result<Envelope, Refusal>
    ensures { result ≡ read_parts s.now sender.0 at }
{
    let (body, sig_from) = get_bytes(s, at, MAX_FRAME)?;
    let (sig, next) = get_bytes(s, sig_from, MAX_SIGNATURE)?;
    finish(s, next)?;
    Ok(Envelope { sender, body, sig })
}

// Reads the envelope that fills all of s.
pub fn decode_envelope(s: &[u8]) -> Result<Envelope, Refusal>
    ensures { result ≡ read_envelope s.now }
{
    let (sender, next) = get_varint(s, 0)?;
    decode_parts(s, ActorId(sender), next)
}
