// From src/codec.rs: the reader that refers to the bytes. Each method takes it apart and leaves the work to a function on the slice and the
// position. A refused read leaves the position.
ghost use Rattle.std.specs.Prelude.{◌≡◌, ◌-◌, length};
ghost use Rattle.error.specs.Answer.{ends};
ghost use Rattle.codec.specs.Reading.{get_u8, get_varint, get_count, get_bytes, finish};
ghost use Rattle.codec.specs.Envelopes.{read_envelope};
ghost use Rattle.codec.specs.Readers.{read_call, ReadsBytes};

use crate::{Envelope, MAX_FRAME, MAX_SIGNATURE, Part, Read, raw};
use error::Refusal;
use stubs::ActorId;

// The bytes, and the position of the next one.
#[derive(Clone, Copy)]
pub struct Reader<'a> {
    pub buf: &'a [u8],
    pub pos: usize,
}

impl<'a> Reader<'a> {
    // A reader at the start.
    pub fn new(buf: &'a [u8]) -> Reader<'a>
        ensures { (result.buf ≡ buf.entry) × (result.pos ≡ 0) }
    {
        Reader { buf, pos: 0 }
    }

    // A byte.
    pub fn u8(&mut self) -> Result<u64, Refusal>
        ensures { ends result self.new ≡ read_call get_u8 self.old }
    {
        let (byte, next) = crate::get_u8(self.buf, self.pos)?;
        self.pos = next;
        Ok(byte)
    }

    // A varint.
    pub fn varint(&mut self) -> Result<u64, Refusal>
        ensures { ends result self.new ≡ read_call get_varint self.old }
    {
        let (value, next) = crate::get_varint(self.buf, self.pos)?;
        self.pos = next;
        Ok(value)
    }

    // A count of at most `max`, and of at most the bytes that remain.
    pub fn count(&mut self, max: u64) -> Result<u64, Refusal>
        ensures { ends result self.new ≡ read_call (λ s at. get_count s at max) self.old }
    {
        let (count, next) = crate::get_count(self.buf, self.pos, max)?;
        self.pos = next;
        Ok(count)
    }

    // A length of at most `max`, and where as many bytes lie.
    fn part(&mut self, max: u64) -> Result<Part, Refusal>
        ensures { ends result self.new ≡ read_call (λ s at. get_bytes s at max) self.old }
    {
        let (part, next) = crate::get_bytes(self.buf, self.pos, max)?;
        self.pos = next;
        Ok(part)
    }

    // The same, and the bytes as a part of the slice.
    pub fn bytes(&mut self, max: u64) -> Result<&'a [u8], Refusal>
        ensures { ReadsBytes max self.old result self.new }
    {
        let (part, next) = crate::get_bytes(self.buf, self.pos, max)?;
        self.pos = next;
        Ok(raw::bytes_of(self.buf, part))
    }

    // How many bytes remain.
    pub fn remaining(&self) -> usize
        ensures { result ≡ length self.now.buf.now - self.now.pos }
    {
        self.buf.len().saturating_sub(self.pos)
    }

    // Whether all was read.
    pub fn finish(&self) -> Result<(), Refusal>
        ensures { result ≡ finish self.now.buf.now self.now.pos }
    {
        crate::finish(self.buf, self.pos)
    }
}

// The reads on a slice and a position, each by a reader: whoever calls these holds none.
pub fn get_u8(s: &[u8], at: usize) -> Read<u64>
    ensures { result ≡ get_u8 s.now at }
{
    let mut r = Reader { buf: s, pos: at };
    let byte = r.u8()?;
    Ok((byte, r.pos))
}

pub fn get_varint(s: &[u8], at: usize) -> Read<u64>
    ensures { result ≡ get_varint s.now at }
{
    let mut r = Reader { buf: s, pos: at };
    let value = r.varint()?;
    Ok((value, r.pos))
}

pub fn get_count(s: &[u8], at: usize, max: u64) -> Read<u64>
    ensures { result ≡ get_count s.now at max }
{
    let mut r = Reader { buf: s, pos: at };
    let count = r.count(max)?;
    Ok((count, r.pos))
}

pub fn get_bytes(s: &[u8], at: usize, max: u64) -> Read<Part>
    ensures { result ≡ get_bytes s.now at max }
{
    let mut r = Reader { buf: s, pos: at };
    let part = r.part(max)?;
    Ok((part, r.pos))
}

pub fn remaining(s: &[u8], at: usize) -> usize
    ensures { result ≡ length s.now - at }
{
    let r = Reader { buf: s, pos: at };
    r.remaining()
}

pub fn finish(s: &[u8], at: usize) -> Result<(), Refusal>
    ensures { result ≡ finish s.now at }
{
    let r = Reader { buf: s, pos: at };
    r.finish()
}

// The envelope that fills all of s, by one reader.
pub fn read_envelope(s: &[u8]) -> Result<Envelope, Refusal>
    ensures { result ≡ read_envelope s.now }
{
    let mut r = Reader::new(s);
    let sender = ActorId(r.varint()?);
    let body = r.part(MAX_FRAME)?;
    let sig = r.part(MAX_SIGNATURE)?;
    r.finish()?;
    Ok(Envelope { sender, body, sig })
}
