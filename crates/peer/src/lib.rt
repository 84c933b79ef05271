// From src/peer.rs: what is known of one peer.
#![tactic(auto)]

pub mod inplace; // pings and pongs in a record that is lent
mod nonces; // lists of nonces
mod pending; // rows that a peer lacks
pub mod raw; // a peer in a lent area

ghost use Rattle.std.specs.Prelude.{◌≡◌, ◌≤◌, ◌<◌};
ghost use Rattle.replicated_log.specs.Areas.{areas};
ghost use Rattle.peer.specs.Peers.{nonces, push, with_pings, with_times, rebased, take_pong, new_peer, peer_sound, started_call, lost_call, absorb_call, replace_call, record_ping_call, take_pong_call, rebase_call, pending_ops_call};
ghost use Rattle.peer.specs.Inside.NoncePlaces.{without, having_pings};
ghost use Rattle.error.specs.Answer.{done, refused, nothing, ends};

use clock::vector::VectorClock;
use error::{Ends, Refusal};
use replicated_log::check::check_store;
use stubs::ActorId;

// Connection status of a peer. The order is that of the numbers in the layout: 0 to 3.
#[derive(Clone, Copy)]
pub enum PeerState {
    Connecting,
    Syncing,
    UpToDate,
    Disconnected,
}

// Nonces of pings, of which `count` are used, the oldest first.
#[derive(Clone, Copy)]
pub struct Pings {
    pub nonces: [u64; 8],
    pub count: usize,
}

// The record of a peer.
#[derive(Clone, Copy)]
pub struct Peer {
    pub id: ActorId,
    pub state: PeerState,
    pub remote_clock: VectorClock,
    pub last_seen_ms: u64,
    pub last_ping_ms: u64,
    pub outstanding: Pings,
    pub answered: Pings,
    pub last_hello_ms: u64,
}

// The record afterwards, as it was where the call is refused.
pub type PeerAnswer = Ends<(), Peer>;

// The record as it was, with a refusal.
fn refuse(p: Peer, r: Refusal) -> PeerAnswer
    ensures { result ≡ ends (refused r) p }
{
    Ends {
        answer: Err(r),
        left: p,
    }
}

// The record afterwards.
fn done(p: Peer) -> PeerAnswer
    ensures { result ≡ ends (done nothing) p }
{
    Ends {
        answer: Ok(()),
        left: p,
    }
}

// The record with another state and other times.
fn with_times(p: Peer, state: PeerState, seen: u64, ping: u64, hello: u64) -> Peer
    ensures { result ≡ with_times p state seen ping hello }
{
    Peer {
        state,
        last_seen_ms: seen,
        last_ping_ms: ping,
        last_hello_ms: hello,
        ..p
    }
}

// A timer, pulled back where it stands in the future.
fn rebased(now: u64, timer: u64) -> u64
    ensures { result ≡ rebased now timer }
{
    timer.min(now)
}

// The record with other lists of nonces.
fn with_pings(p: Peer, ping: u64, outstanding: Pings, answered: Pings) -> Peer
    ensures { result ≡ having_pings p ping outstanding answered }
{
    Peer {
        last_ping_ms: ping,
        outstanding,
        answered,
        ..p
    }
}

// The record with one more ping outstanding.
fn with_ping(p: Peer, now: u64) -> Peer
    requires { (p.outstanding.count ≤ 8) × (p.answered.count ≤ 8) }
    ensures { result ≡ with_pings p now (push (nonces p.outstanding) now) (nonces p.answered) }
{
    let outstanding = nonces::push_nonce(p.outstanding, now);
    let answered = nonces::tidy(p.answered);
    with_pings(p, now, outstanding, answered)
}

// The record with the outstanding ping at i answered.
fn moved(p: Peer, i: usize, nonce: u64) -> Peer
    requires { (p.answered.count ≤ 8) × (p.outstanding.count ≤ 8) × (i < p.outstanding.count) }
    ensures { result ≡ with_pings p p.last_ping_ms (without i (nonces p.outstanding)) (push (nonces p.answered) nonce) }
{
    let outstanding = nonces::remove_nonce(p.outstanding, i);
    let answered = nonces::push_nonce(p.answered, nonce);
    with_pings(p, p.last_ping_ms, outstanding, answered)
}

// What a pong does to a sound record.
fn taken(p: Peer, nonce: u64) -> PeerAnswer
    requires { (p.outstanding.count ≤ 8) × (p.answered.count ≤ 8) }
    ensures { result ≡ take_pong p nonce }
{
    if let Some(i) = nonces::find_nonce(p.outstanding, nonce) {
        return done(moved(p, i, nonce));
    }
    if nonces::find_nonce(p.answered, nonce).is_some() {
        return done(p);
    }
    refuse(p, Refusal::UnaskedPong)
}

impl Peer {
    // A peer that is connecting, of which nothing is known yet.
    pub fn new(id: ActorId) -> Peer
        ensures { result ≡ new_peer id.0 }
    {
        Peer {
            id,
            state: PeerState::Connecting,
            remote_clock: VectorClock::new(),
            last_seen_ms: 0,
            last_ping_ms: 0,
            outstanding: Pings {
                nonces: [0; 8],
                count: 0,
            },
            answered: Pings {
                nonces: [0; 8],
                count: 0,
            },
            last_hello_ms: 0,
        }
    }

    // Whether the record keeps its rules.
    pub fn is_sound(&self) -> bool
        ensures { result ≡ peer_sound self.now }
    {
        if 8 < self.outstanding.count {
            return false;
        }
        if 8 < self.answered.count {
            return false;
        }
        self.remote_clock.is_sound()
    }

    // Marks the start of a handshake at `now`.
    pub fn connection_started(self, now: u64) -> PeerAnswer
        ensures { result ≡ started_call self now }
    {
        if !self.is_sound() {
            return refuse(self, Refusal::UnsoundStore);
        }
        done(with_times(self, PeerState::Syncing, now, now, now))
    }

    // Marks the link as lost.
    pub fn connection_lost(self) -> PeerAnswer
        ensures { result ≡ lost_call self }
    {
        if !self.is_sound() {
            return refuse(self, Refusal::UnsoundStore);
        }
        done(with_times(
            self,
            PeerState::Disconnected,
            self.last_seen_ms,
            self.last_ping_ms,
            self.last_hello_ms,
        ))
    }

    // Folds in a clock that the peer reported in an Ack. Acks can arrive late, so this only raises the remote clock.
    pub fn absorb_clock(self, clock: &VectorClock) -> PeerAnswer
        ensures { result ≡ absorb_call self clock.now }
    {
        if !self.is_sound() {
            return refuse(self, Refusal::UnsoundStore);
        }
        let mut left = self;
        let answer = left.remote_clock.merge(clock);
        Ends { answer, left }
    }

    // Puts the clock that the peer reported in a Hello in the place of the remote clock: a peer that lost data has a lower one.
    pub fn replace_clock(self, clock: &VectorClock) -> PeerAnswer
        ensures { result ≡ replace_call self clock.now }
    {
        if !self.is_sound() {
            return refuse(self, Refusal::UnsoundStore);
        }
        if !clock.is_sound() {
            return refuse(self, Refusal::UnsoundStore);
        }
        done(Peer {
            remote_clock: *clock,
            ..self
        })
    }

    // The record once a ping is sent at `now`, its nonce. Only the most recent few are kept.
    pub fn pinged(self, now: u64) -> PeerAnswer
        ensures { result ≡ record_ping_call self now }
    {
        if !self.is_sound() {
            return refuse(self, Refusal::UnsoundStore);
        }
        done(with_ping(self, now))
    }

    // The record once the pong with this nonce is taken. A repeat of a recent answer is a duplicated frame and changes
    // nothing; any other nonce that is not outstanding is refused.
    pub fn ponged(self, nonce: u64) -> PeerAnswer
        ensures { result ≡ take_pong_call self nonce }
    {
        if !self.is_sound() {
            return refuse(self, Refusal::UnsoundStore);
        }
        taken(self, nonce)
    }

    // Pulls every timer back to `now` where the physical clock moved backwards, so that each can expire.
    pub fn rebase_timers(self, now: u64) -> PeerAnswer
        ensures { result ≡ rebase_call self now }
    {
        if !self.is_sound() {
            return refuse(self, Refusal::UnsoundStore);
        }
        let seen = rebased(now, self.last_seen_ms);
        let ping = rebased(now, self.last_ping_ms);
        let hello = rebased(now, self.last_hello_ms);
        done(with_times(self, self.state, seen, ping, hello))
    }

    // How many rows of a store's log this peer has not acknowledged: the depth of the offline queue.
    pub fn pending_ops(self, log: &[u8], held: &[u8], head: &[u8]) -> Result<u64, Refusal>
        ensures { result ≡ pending_ops_call self (areas log.now held.now head.now) }
    {
        check_store(log, held, head)?;
        if !self.is_sound() {
            return Err(Refusal::UnsoundStore);
        }
        let n = words::raw::get_word(head, 0) as usize;
        Ok(pending::count_beyond(log, n, &self.remote_clock))
    }
}
