// Messages to bytes. Room is tested before anything is written.
ghost use Rattle.std.specs.Prelude.{◌≡◌, true, [], ◌∷◌, ◌+◌, ◌*◌, ◌≤◌, length};
ghost use Rattle.error.specs.Answer.{ends};
ghost use Rattle.codec.specs.Leb128.{shortest};
ghost use Rattle.codec.specs.Writing.{write_call};
ghost use Rattle.codec.specs.Inside.EnvelopeParts.{Stored};
ghost use Rattle.clock.specs.Vector.{entries, sound};
ghost use Rattle.row.specs.Wire.{deps_bytes};
ghost use Rattle.replicated_log.specs.Inside.StoreChanges.{Parts, rows_in};
ghost use Rattle.message.specs.Messages.{delta, rows_bytes, message_bytes};
ghost use Rattle.message.specs.Calls.{encode_hello, encode_ack, encode_ping, encode_pong, encode_delta};
ghost use Rattle.message.specs.Inside.WriterParts.{encode_clock};

use clock::raw::load_clock;
use clock::vector::VectorClock;
use codec::raw::{past, store_varint};
use codec::varint_len;
use error::Refusal;
use replicated_log::raw::parts_ok;
use row::raw::{clock_len, read_slot, signed_len, store_clock, store_signed_op};

const TAG_HELLO: u8 = 0;

const TAG_DELTA: u8 = 1;

const TAG_ACK: u8 = 2;

const TAG_PING: u8 = 3;

const TAG_PONG: u8 = 4;

// Writes a tag at the start of `out`, and gives the position past it.
fn store_tag(out: &mut [u8], tag: u8) -> usize
    requires { 1 ≤ length out.old }
    ensures { Stored out.old 0 (tag ∷ []) result out.new }
{
    out[0] = tag;
    1
}

// ---- Hello and Ack: a tag and a clock.

// The length of a clock's bytes.
fn entries_len(c: &VectorClock) -> usize
    requires { sound c.now ≡ true }
    ensures { (result ≡ length (deps_bytes (entries c.now))) × (result ≤ 650) }
{
    clock_len(&c.authors, &c.numbers, c.count)
}

// Writes a clock at `at`, and gives the position past it.
fn store_entries(out: &mut [u8], at: usize, c: &VectorClock) -> usize
    requires { (sound c.now ≡ true) × (at + length (deps_bytes (entries c.now)) ≤ length out.old) }
    ensures { Stored out.old at (deps_bytes (entries c.now)) result out.new }
{
    store_clock(out, at, &c.authors, &c.numbers, c.count)
}

// Writes a tag and a clock at the start of `out`: all of it, or nothing.
fn put_clock(out: &mut [u8], tag: u8, c: &VectorClock) -> Result<usize, Refusal>
    requires { sound c.now ≡ true }
    ensures { ends result out.new ≡ write_call out.old 0 (tag ∷ deps_bytes (entries c.now)) }
{
    past(out.len(), 0, 1 + entries_len(c))?;
    let at = store_tag(out, tag);
    Ok(store_entries(out, at, c))
}

// The same for the clock of a clock area.
fn encode_clock(out: &mut [u8], tag: u8, clock: &[u8]) -> Result<usize, Refusal>
    ensures { ends result out.new ≡ encode_clock out.old tag clock.now }
{
    if clock.len() < 520 {
        return Err(Refusal::ShortArea);
    }
    let c = load_clock(clock, 0);
    if !c.is_sound() {
        return Err(Refusal::UnsoundStore);
    }
    put_clock(out, tag, &c)
}

// Writes a Hello with the clock of a clock area at the start of `out`, and gives the position past it.
pub fn encode_hello(out: &mut [u8], clock: &[u8]) -> Result<usize, Refusal>
    ensures { ends result out.new ≡ encode_hello out.old clock.now }
{
    encode_clock(out, TAG_HELLO, clock)
}

// The same for an Ack.
pub fn encode_ack(out: &mut [u8], clock: &[u8]) -> Result<usize, Refusal>
    ensures { ends result out.new ≡ encode_ack out.old clock.now }
{
    encode_clock(out, TAG_ACK, clock)
}

// ---- Ping and Pong: a tag and a number.

// Writes a tag and a number at the start of `out`: all of it, or nothing.
fn encode_nonce(out: &mut [u8], tag: u8, nonce: u64) -> Result<usize, Refusal>
    ensures { ends result out.new ≡ write_call out.old 0 (tag ∷ shortest nonce) }
{
    past(out.len(), 0, 1 + varint_len(nonce))?;
    let at = store_tag(out, tag);
    Ok(store_varint(out, at, nonce))
}

// Writes a Ping at the start of `out`, and gives the position past it.
pub fn encode_ping(out: &mut [u8], nonce: u64) -> Result<usize, Refusal>
    ensures { ends result out.new ≡ encode_ping out.old nonce }
{
    encode_nonce(out, TAG_PING, nonce)
}

// The same for a Pong.
pub fn encode_pong(out: &mut [u8], nonce: u64) -> Result<usize, Refusal>
    ensures { ends result out.new ≡ encode_pong out.old nonce }
{
    encode_nonce(out, TAG_PONG, nonce)
}

// ---- Delta: a tag, the number of rows, and the rows.

// The length of the signed bytes of the rows in the first n slots.
fn rows_len(rows: &[u8], n: usize) -> usize
    requires { Parts rows.now n × (n ≤ 64) }
    ensures { (result ≡ length (rows_bytes (rows_in rows.now n))) × (result ≤ 912 * n) }
{
    let mut len = 0;
    for i in 0..n {
        let held = read_slot(rows, 704 * i);
        len += signed_len(held.op);
    }
    len
}

// Writes the signed bytes of those rows at `at`, and gives the position past them.
fn store_rows(out: &mut [u8], at: usize, rows: &[u8], n: usize) -> usize
    requires { Parts rows.now n × (at + length (rows_bytes (rows_in rows.now n)) ≤ length out.old) }
    ensures { Stored out.old at (rows_bytes (rows_in rows.now n)) result out.new }
{
    let mut next = at;
    for i in 0..n {
        let held = read_slot(rows, 704 * i);
        next = store_signed_op(out, next, held.op, rows);
    }
    next
}

// Writes the tag, the number of those rows and the rows at the start of `out`, and gives the position past them.
fn store_delta(out: &mut [u8], rows: &[u8], n: usize) -> usize
    requires { Parts rows.now n × (length (message_bytes (delta (rows_in rows.now n))) ≤ length out.old) }
    ensures { Stored out.old 0 (message_bytes (delta (rows_in rows.now n))) result out.new }
{
    let count_at = store_tag(out, TAG_DELTA);
    let rows_at = store_varint(out, count_at, n as u64);
    store_rows(out, rows_at, rows, n)
}

// The same where there is room: all of it, or nothing.
fn put_delta(out: &mut [u8], rows: &[u8], n: usize) -> Result<usize, Refusal>
    requires { Parts rows.now n × (n ≤ 64) }
    ensures { ends result out.new ≡ write_call out.old 0 (message_bytes (delta (rows_in rows.now n))) }
{
    past(out.len(), 0, 1 + varint_len(n as u64) + rows_len(rows, n))?;
    Ok(store_delta(out, rows, n))
}

// Writes a Delta with the rows of `count` slots at the start of `out`, and gives the position past it.
pub fn encode_delta(out: &mut [u8], rows: &[u8], count: usize) -> Result<usize, Refusal>
    ensures { ends result out.new ≡ encode_delta out.old rows.now count }
{
    if rows.len() / 704 < count {
        return Err(Refusal::ShortArea);
    }
    if !parts_ok(rows, count) {
        return Err(Refusal::UnsoundStore);
    }
    if 64 < count {
        return Err(Refusal::OverCapacity);
    }
    put_delta(out, rows, count)
}
