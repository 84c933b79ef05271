// Handshake and delta messages: crate message.
ghost use Rattle.std.specs.Prelude.{◌≡◌};
ghost use Rattle.message.specs.Calls.{encode_hello, encode_ack, encode_ping, encode_pong, encode_delta};
ghost use Rattle.cuwelfra.specs.Bytes.{written_told};
ghost use Rattle.cuwelfra.specs.Exports.{exported};
ghost use Rattle.cuwelfra.specs.Messages.{message_ends, frame_ends};
ghost use Rattle.cuwelfra.specs.Inside.MessageParts.{kind_tag, kind_number, read_told, frame_read_told};

use crate::bytes::{WrittenTold, accept, written};
use error::{Refusal, Told};
use message::{FrameRead, Kind};

// Which message was read: its tag, and the rows of a Delta or the nonce of Ping and Pong.
#[repr(C)]
#[derive(Clone, Copy)]
pub struct MessageTold {
    pub told: Told,
    pub tag: u64,
    pub number: u64,
}

// The same with the sender of the frame, and where its body and its signature stand.
#[repr(C)]
#[derive(Clone, Copy)]
pub struct FrameTold {
    pub told: Told,
    pub sender: u64,
    pub body_at: u64,
    pub body_len: u64,
    pub sig_at: u64,
    pub sig_len: u64,
    pub tag: u64,
    pub number: u64,
}

fn tag_of(kind: Kind) -> u64
    ensures { result ≡ kind_tag kind }
{
    match kind {
        Kind::Hello => 0,
        Kind::Delta(_) => 1,
        Kind::Ack => 2,
        Kind::Ping(_) => 3,
        Kind::Pong(_) => 4,
    }
}

fn number_of(kind: Kind) -> u64
    ensures { result ≡ kind_number kind }
{
    match kind {
        Kind::Hello => 0,
        Kind::Delta(n) => n as u64,
        Kind::Ack => 0,
        Kind::Ping(n) => n,
        Kind::Pong(n) => n,
    }
}

fn message_told(r: Result<Kind, Refusal>) -> MessageTold
    ensures { result ≡ read_told r }
{
    match r {
        Ok(kind) => MessageTold {
            told: accept(),
            tag: tag_of(kind),
            number: number_of(kind),
        },
        Err(refusal) => MessageTold {
            told: error::tell(refusal),
            tag: 0,
            number: 0,
        },
    }
}

fn frame_told(r: Result<FrameRead, Refusal>) -> FrameTold
    ensures { result ≡ frame_read_told r }
{
    match r {
        Ok(frame) => {
            let envelope = frame.envelope;
            FrameTold {
                told: accept(),
                sender: envelope.sender.0,
                body_at: envelope.body.start as u64,
                body_len: envelope.body.len as u64,
                sig_at: envelope.sig.start as u64,
                sig_len: envelope.sig.len as u64,
                tag: tag_of(frame.kind),
                number: number_of(frame.kind),
            }
        }
        Err(refusal) => FrameTold {
            told: error::tell(refusal),
            sender: 0,
            body_at: 0,
            body_len: 0,
            sig_at: 0,
            sig_len: 0,
            tag: 0,
            number: 0,
        },
    }
}

// Writes a Hello with the clock of a clock area to the start of `out`.
#[unsafe(no_mangle)]
pub extern "C" fn cuwelfra_encode_hello(out: &mut [u8], clock: &[u8]) -> WrittenTold
    ensures { (result, out.new) ≡ exported written_told (encode_hello out.old clock.now) }
{
    written(message::writer::encode_hello(out, clock))
}

#[unsafe(no_mangle)]
pub extern "C" fn cuwelfra_encode_ack(out: &mut [u8], clock: &[u8]) -> WrittenTold
    ensures { (result, out.new) ≡ exported written_told (encode_ack out.old clock.now) }
{
    written(message::writer::encode_ack(out, clock))
}

#[unsafe(no_mangle)]
pub extern "C" fn cuwelfra_encode_ping(out: &mut [u8], nonce: u64) -> WrittenTold
    ensures { (result, out.new) ≡ exported written_told (encode_ping out.old nonce) }
{
    written(message::writer::encode_ping(out, nonce))
}

#[unsafe(no_mangle)]
pub extern "C" fn cuwelfra_encode_pong(out: &mut [u8], nonce: u64) -> WrittenTold
    ensures { (result, out.new) ≡ exported written_told (encode_pong out.old nonce) }
{
    written(message::writer::encode_pong(out, nonce))
}

// Writes a Delta with the rows of `count` slots of logged rows.
#[unsafe(no_mangle)]
pub extern "C" fn cuwelfra_encode_delta(out: &mut [u8], rows: &[u8], count: usize) -> WrittenTold
    ensures { (result, out.new) ≡ exported written_told (encode_delta out.old rows.now count) }
{
    written(message::writer::encode_delta(out, rows, count))
}

// Reads the message that fills all of `body`: a clock into the clock area, rows into the slots of `rows`.
#[unsafe(no_mangle)]
pub extern "C" fn cuwelfra_decode_message(
    body: &[u8],
    clock: &mut [u8],
    rows: &mut [u8],
) -> MessageTold
    ensures { (result, clock.new, rows.new) ≡ message_ends body.now clock.old rows.old }
{
    message_told(message::reader::decode_message(body, clock, rows))
}

// The same of a message inside an envelope that fills all of `frame`.
#[unsafe(no_mangle)]
pub extern "C" fn cuwelfra_decode_frame(
    frame: &[u8],
    clock: &mut [u8],
    rows: &mut [u8],
) -> FrameTold
    ensures { (result, clock.new, rows.new) ≡ frame_ends frame.now clock.old rows.old }
{
    frame_told(message::reader::decode_frame(frame, clock, rows))
}
