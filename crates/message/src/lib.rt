// From src/codec.rs and src/sync.rs: the handshake and delta messages as BinaryCodec writes and reads them.
#![tactic(auto)]

pub mod reader; // messages from bytes
pub mod writer; // messages to bytes

use codec::Envelope;

// Which message was read. A clock or rows stand in the lent areas: of a Delta here is their number, of Ping and Pong the nonce.
#[derive(Clone, Copy, Debug, PartialEq, Eq)]
pub enum Kind {
    Hello,
    Delta(usize),
    Ack,
    Ping(u64),
    Pong(u64),
}

// The envelope of a frame, and its message.
#[derive(Clone, Copy)]
pub struct FrameRead {
    pub envelope: Envelope,
    pub kind: Kind,
}
