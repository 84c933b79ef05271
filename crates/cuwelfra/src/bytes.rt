// Byte primitives: crate codec.
ghost use Rattle.std.specs.Prelude.{◌≡◌, [], ◌∷◌, ◌-◌, length};
ghost use Rattle.error.specs.Answer.{accepted, told_by};
ghost use Rattle.codec.specs.Leb128.{shortest};
ghost use Rattle.codec.specs.Reading.{get_u8, get_varint, get_u32, get_count, get_bytes, finish};
ghost use Rattle.codec.specs.Writing.{sized, write_call};
ghost use Rattle.codec.specs.Envelopes.{envelope, read_envelope};
ghost use Rattle.cuwelfra.specs.Bytes.{number_told, part_told, written_told, envelope_told};
ghost use Rattle.cuwelfra.specs.Exports.{exported};

use codec::{Envelope, Part, Read};
use error::{Refusal, Told};
use stubs::ActorId;

#[repr(C)]
#[derive(Clone, Copy)]
pub struct NumberTold {
    pub told: Told,
    pub value: u64,
    pub next: u64,
}

#[repr(C)]
#[derive(Clone, Copy)]
pub struct PartTold {
    pub told: Told,
    pub start: u64,
    pub len: u64,
    pub next: u64,
}

#[repr(C)]
#[derive(Clone, Copy)]
pub struct WrittenTold {
    pub told: Told,
    pub next: u64,
}

#[repr(C)]
#[derive(Clone, Copy)]
pub struct EnvelopeTold {
    pub told: Told,
    pub sender: u64,
    pub body_at: u64,
    pub body_len: u64,
    pub sig_at: u64,
    pub sig_len: u64,
}

// Nothing is refused.
pub(crate) fn accept() -> Told
    ensures { result ≡ accepted }
{
    Told {
        number: 0,
        first: 0,
        second: 0,
    }
}

fn number(r: Read<u64>) -> NumberTold
    ensures { result ≡ number_told r }
{
    match r {
        Ok((value, next)) => NumberTold {
            told: accept(),
            value,
            next: next as u64,
        },
        Err(refusal) => NumberTold {
            told: error::tell(refusal),
            value: 0,
            next: 0,
        },
    }
}

fn part(r: Read<Part>) -> PartTold
    ensures { result ≡ part_told r }
{
    match r {
        Ok((part, next)) => PartTold {
            told: accept(),
            start: part.start as u64,
            len: part.len as u64,
            next: next as u64,
        },
        Err(refusal) => PartTold {
            told: error::tell(refusal),
            start: 0,
            len: 0,
            next: 0,
        },
    }
}

pub(crate) fn written(r: Result<usize, Refusal>) -> WrittenTold
    ensures { result ≡ written_told r }
{
    match r {
        Ok(next) => WrittenTold {
            told: accept(),
            next: next as u64,
        },
        Err(refusal) => WrittenTold {
            told: error::tell(refusal),
            next: 0,
        },
    }
}

// How many bytes the shortest varint of v has.
#[unsafe(no_mangle)]
pub extern "C" fn cuwelfra_varint_len(v: u64) -> usize
    ensures { result ≡ length (shortest v) }
{
    codec::varint_len(v)
}

#[unsafe(no_mangle)]
pub extern "C" fn cuwelfra_put_varint(out: &mut [u8], at: usize, v: u64) -> WrittenTold
    ensures { (result, out.new) ≡ exported written_told (write_call out.old at (shortest v)) }
{
    written(codec::put_varint(out, at, v))
}

#[unsafe(no_mangle)]
pub extern "C" fn cuwelfra_put_u8(out: &mut [u8], at: usize, b: u8) -> WrittenTold
    ensures { (result, out.new) ≡ exported written_told (write_call out.old at (b ∷ [])) }
{
    written(codec::put_u8(out, at, b))
}

#[unsafe(no_mangle)]
pub extern "C" fn cuwelfra_put_bytes(out: &mut [u8], at: usize, bytes: &[u8]) -> WrittenTold
    ensures { (result, out.new) ≡ exported written_told (write_call out.old at (sized bytes.now)) }
{
    written(codec::put_bytes(out, at, bytes))
}

#[unsafe(no_mangle)]
pub extern "C" fn cuwelfra_get_u8(s: &[u8], at: usize) -> NumberTold
    ensures { result ≡ number_told (get_u8 s.now at) }
{
    number(codec::reader::get_u8(s, at))
}

#[unsafe(no_mangle)]
pub extern "C" fn cuwelfra_get_varint(s: &[u8], at: usize) -> NumberTold
    ensures { result ≡ number_told (get_varint s.now at) }
{
    number(codec::reader::get_varint(s, at))
}

#[unsafe(no_mangle)]
pub extern "C" fn cuwelfra_get_u32(s: &[u8], at: usize) -> NumberTold
    ensures { result ≡ number_told (get_u32 s.now at) }
{
    number(codec::get_u32(s, at))
}

#[unsafe(no_mangle)]
pub extern "C" fn cuwelfra_get_count(s: &[u8], at: usize, max: u64) -> NumberTold
    ensures { result ≡ number_told (get_count s.now at max) }
{
    number(codec::reader::get_count(s, at, max))
}

#[unsafe(no_mangle)]
pub extern "C" fn cuwelfra_get_bytes(s: &[u8], at: usize, max: u64) -> PartTold
    ensures { result ≡ part_told (get_bytes s.now at max) }
{
    part(codec::reader::get_bytes(s, at, max))
}

#[unsafe(no_mangle)]
pub extern "C" fn cuwelfra_finish(s: &[u8], at: usize) -> Told
    ensures { result ≡ told_by (finish s.now at) }
{
    crate::store::told_by(codec::reader::finish(s, at))
}

// How many bytes remain.
#[unsafe(no_mangle)]
pub extern "C" fn cuwelfra_remaining(s: &[u8], at: usize) -> u64
    ensures { result ≡ length s.now - at }
{
    codec::reader::remaining(s, at) as u64
}

#[unsafe(no_mangle)]
pub extern "C" fn cuwelfra_encode_envelope(
    out: &mut [u8],
    sender: u64,
    body: &[u8],
    sig: &[u8],
) -> WrittenTold
    ensures { (result, out.new) ≡ exported written_told (write_call out.old 0 (envelope sender body.now sig.now)) }
{
    written(codec::encode_envelope(out, ActorId(sender), body, sig))
}

fn envelope_told(r: Result<Envelope, Refusal>) -> EnvelopeTold
    ensures { result ≡ envelope_told r }
{
    match r {
        Ok(envelope) => EnvelopeTold {
            told: accept(),
            sender: envelope.sender.0,
            body_at: envelope.body.start as u64,
            body_len: envelope.body.len as u64,
            sig_at: envelope.sig.start as u64,
            sig_len: envelope.sig.len as u64,
        },
        Err(refusal) => EnvelopeTold {
            told: error::tell(refusal),
            sender: 0,
            body_at: 0,
            body_len: 0,
            sig_at: 0,
            sig_len: 0,
        },
    }
}

#[unsafe(no_mangle)]
pub extern "C" fn cuwelfra_decode_envelope(s: &[u8]) -> EnvelopeTold
    ensures { result ≡ envelope_told (read_envelope s.now) }
{
    envelope_told(codec::decode_envelope(s))
}

// The same, read by one reader over the slice.
#[unsafe(no_mangle)]
pub extern "C" fn cuwelfra_read_envelope(s: &[u8]) -> EnvelopeTold
    ensures { result ≡ envelope_told (read_envelope s.now) }
{
    envelope_told(codec::reader::read_envelope(s))
}
