// From src/error.rs: every refusal of documents 01 and 02, with the values that it carries.
#![tactic(auto)]

ghost use Rattle.std.specs.Prelude.{◌≡◌};
ghost use Rattle.error.specs.Numbers.{told_of};

use stubs::ActorId;

// One variant for each numbered refusal. The comment gives number and word.
#[derive(Clone, Copy, Debug, PartialEq, Eq)]
pub enum Refusal {
    // 1 unsound store
    UnsoundStore,
    // 2 short area
    ShortArea,
    // 3 unreadable
    Unreadable,
    // 4 over capacity
    OverCapacity,
    // 5 zero sequence
    ZeroSequence { actor: ActorId, seq: u64 },
    // 6 foreign stamp
    ForeignStamp { actor: ActorId, seq: u64 },
    // 7 spent counter
    SpentCounter { actor: ActorId, seq: u64 },
    // 8 payload too large
    PayloadTooLarge { actor: ActorId, seq: u64 },
    // 9 too many causes
    TooManyCauses { actor: ActorId, seq: u64 },
    // 10 own future
    OwnFuture { actor: ActorId, seq: u64 },
    // 11 ahead of time
    AheadOfTime { actor: ActorId, seq: u64 },
    // 12 bad signature
    BadSignature { actor: ActorId, seq: u64 },
    // 13 conflict
    Conflict { actor: ActorId, seq: u64 },
    // 14 held overflow
    HeldOverflow { limit: u64 },
    // 15 held bytes
    HeldBytes { limit: u64 },
    // 16 author overflow
    AuthorOverflow { limit: u64, actor: ActorId },
    // 17 log full
    LogFull,
    // 18 authors full
    AuthorsFull,
    // 19 counter overflow
    CounterOverflow,
    // 20 remote ahead
    RemoteAhead { remote_wall: u64, local_wall: u64 },
    // 21 unasked pong
    UnaskedPong,
    // 22 truncated
    Truncated,
    // 23 overflow
    VarintOverflow,
    // 24 too large
    TooLarge,
    // 25 trailing
    TrailingBytes,
    // 26 operation too large
    OperationTooLarge,
    // 27 sequence exhausted
    SequenceExhausted,
    // 28 other causes
    OtherCauses,
    // 29 invalid tag
    InvalidTag { tag: u64 },
    // 30 overlong
    Overlong,
}

// The documents' number of a refusal.
pub fn number(r: Refusal) -> u64
    ensures { result ≡ (told_of r).number }
{
    match r {
        Refusal::UnsoundStore => 1,
        Refusal::ShortArea => 2,
        Refusal::Unreadable => 3,
        Refusal::OverCapacity => 4,
        Refusal::ZeroSequence { actor: _, seq: _ } => 5,
        Refusal::ForeignStamp { actor: _, seq: _ } => 6,
        Refusal::SpentCounter { actor: _, seq: _ } => 7,
        Refusal::PayloadTooLarge { actor: _, seq: _ } => 8,
        Refusal::TooManyCauses { actor: _, seq: _ } => 9,
        Refusal::OwnFuture { actor: _, seq: _ } => 10,
        Refusal::AheadOfTime { actor: _, seq: _ } => 11,
        Refusal::BadSignature { actor: _, seq: _ } => 12,
        Refusal::Conflict { actor: _, seq: _ } => 13,
        Refusal::HeldOverflow { limit: _ } => 14,
        Refusal::HeldBytes { limit: _ } => 15,
        Refusal::AuthorOverflow { limit: _, actor: _ } => 16,
        Refusal::LogFull => 17,
        Refusal::AuthorsFull => 18,
        Refusal::CounterOverflow => 19,
        Refusal::RemoteAhead {
            remote_wall: _,
            local_wall: _,
        } => 20,
        Refusal::UnaskedPong => 21,
        Refusal::Truncated => 22,
        Refusal::VarintOverflow => 23,
        Refusal::TooLarge => 24,
        Refusal::TrailingBytes => 25,
        Refusal::OperationTooLarge => 26,
        Refusal::SequenceExhausted => 27,
        Refusal::OtherCauses => 28,
        Refusal::InvalidTag { tag: _ } => 29,
        Refusal::Overlong => 30,
    }
}

// The first value that a refusal carries, 0 where it carries none.
pub fn first(r: Refusal) -> u64
    ensures { result ≡ (told_of r).first }
{
    match r {
        Refusal::UnsoundStore => 0,
        Refusal::ShortArea => 0,
        Refusal::Unreadable => 0,
        Refusal::OverCapacity => 0,
        Refusal::ZeroSequence { actor, seq: _ } => actor.0,
        Refusal::ForeignStamp { actor, seq: _ } => actor.0,
        Refusal::SpentCounter { actor, seq: _ } => actor.0,
        Refusal::PayloadTooLarge { actor, seq: _ } => actor.0,
        Refusal::TooManyCauses { actor, seq: _ } => actor.0,
        Refusal::OwnFuture { actor, seq: _ } => actor.0,
        Refusal::AheadOfTime { actor, seq: _ } => actor.0,
        Refusal::BadSignature { actor, seq: _ } => actor.0,
        Refusal::Conflict { actor, seq: _ } => actor.0,
        Refusal::HeldOverflow { limit } => limit,
        Refusal::HeldBytes { limit } => limit,
        Refusal::AuthorOverflow { limit, actor: _ } => limit,
        Refusal::LogFull => 0,
        Refusal::AuthorsFull => 0,
        Refusal::CounterOverflow => 0,
        Refusal::RemoteAhead {
            remote_wall,
            local_wall: _,
        } => remote_wall,
        Refusal::UnaskedPong => 0,
        Refusal::Truncated => 0,
        Refusal::VarintOverflow => 0,
        Refusal::TooLarge => 0,
        Refusal::TrailingBytes => 0,
        Refusal::OperationTooLarge => 0,
        Refusal::SequenceExhausted => 0,
        Refusal::OtherCauses => 0,
        Refusal::InvalidTag { tag } => tag,
        Refusal::Overlong => 0,
    }
}

// The second value that a refusal carries, 0 where it carries fewer.
pub fn second(r: Refusal) -> u64
    ensures { result ≡ (told_of r).second }
{
    match r {
        Refusal::UnsoundStore => 0,
        Refusal::ShortArea => 0,
        Refusal::Unreadable => 0,
        Refusal::OverCapacity => 0,
        Refusal::ZeroSequence { actor: _, seq } => seq,
        Refusal::ForeignStamp { actor: _, seq } => seq,
        Refusal::SpentCounter { actor: _, seq } => seq,
        Refusal::PayloadTooLarge { actor: _, seq } => seq,
        Refusal::TooManyCauses { actor: _, seq } => seq,
        Refusal::OwnFuture { actor: _, seq } => seq,
        Refusal::AheadOfTime { actor: _, seq } => seq,
        Refusal::BadSignature { actor: _, seq } => seq,
        Refusal::Conflict { actor: _, seq } => seq,
        Refusal::HeldOverflow { limit: _ } => 0,
        Refusal::HeldBytes { limit: _ } => 0,
        Refusal::AuthorOverflow { limit: _, actor } => actor.0,
        Refusal::LogFull => 0,
        Refusal::AuthorsFull => 0,
        Refusal::CounterOverflow => 0,
        Refusal::RemoteAhead {
            remote_wall: _,
            local_wall,
        } => local_wall,
        Refusal::UnaskedPong => 0,
        Refusal::Truncated => 0,
        Refusal::VarintOverflow => 0,
        Refusal::TooLarge => 0,
        Refusal::TrailingBytes => 0,
        Refusal::OperationTooLarge => 0,
        Refusal::SequenceExhausted => 0,
        Refusal::OtherCauses => 0,
        Refusal::InvalidTag { tag: _ } => 0,
        Refusal::Overlong => 0,
    }
}

// A refusal as numbers, for an exported call.
#[repr(C)]
#[derive(Clone, Copy, Debug, PartialEq, Eq)]
pub struct Told {
    pub number: u64,
    pub first: u64,
    pub second: u64,
}

pub fn tell(r: Refusal) -> Told
    ensures { result ≡ told_of r }
{
    Told {
        number: number(r),
        first: first(r),
        second: second(r),
    }
}

// How a call ends: its answer, and what it leaves of what it was given by value.
#[derive(Clone, Copy, Debug, PartialEq, Eq)]
pub struct Ends<T, L> {
    pub answer: Result<T, Refusal>,
    pub left: L,
}
