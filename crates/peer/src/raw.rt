// No call of document 01: these require that an area has room, and serve the crates above, which have tested that.
ghost use Rattle.std.specs.Prelude.{◌≡◌, ◌+◌, ◌≤◌, length};
ghost use Rattle.words.specs.Areas.{put_at};
ghost use Rattle.peer.specs.Area.{state_number, state_of, pings_at, peer_at, pings_bytes, peer_bytes};

use crate::{Peer, PeerState, Pings};
use stubs::ActorId;

// The number of a state: states are numbered in the order in which they are declared.
fn state_number(s: PeerState) -> u64
    ensures { result ≡ state_number s }
{
    s as u64
}

// The state that a number stands for; the last where it stands for none.
fn state_of(n: u64) -> PeerState
    ensures { result ≡ state_of n }
{
    match n {
        0 => PeerState::Connecting,
        1 => PeerState::Syncing,
        2 => PeerState::UpToDate,
        _ => PeerState::Disconnected,
    }
}

// The list of nonces that stands at `at`, whether or not it keeps the rules.
fn load_pings(s: &[u8], at: usize) -> Pings
    requires { at + 72 ≤ length s.now }
    ensures { result ≡ pings_at s.now at }
{
    let mut nonces = [0; 8];
    for (i, n) in nonces.iter_mut().enumerate() {
        *n = words::raw::get_word(s, at + 8 + 8 * i);
    }
    let count = words::raw::get_word(s, at);
    Pings {
        nonces,
        count: count as usize,
    }
}

// Writes a list of nonces at `at`.
fn store_pings(s: &mut [u8], at: usize, p: Pings)
    requires { at + 72 ≤ length s.old }
    ensures { s.new ≡ put_at s.old at (pings_bytes p) }
{
    let nonces = p.nonces;
    words::raw::put_word(s, at, p.count as u64);
    words::raw::put_words(s, at + 8, &nonces);
}

// The peer that stands in an area, whether or not it keeps the rules.
pub fn load_peer(s: &[u8]) -> Peer
    requires { 704 ≤ length s.now }
    ensures { result ≡ peer_at s.now }
{
    let id = words::raw::get_word(s, 0);
    let number = words::raw::get_word(s, 8);
    let state = state_of(number);
    let remote_clock = clock::raw::load_clock(s, 16);
    let seen = words::raw::get_word(s, 536);
    let ping = words::raw::get_word(s, 544);
    let outstanding = load_pings(s, 552);
    let answered = load_pings(s, 624);
    let hello = words::raw::get_word(s, 696);
    Peer {
        id: ActorId(id),
        state,
        remote_clock,
        last_seen_ms: seen,
        last_ping_ms: ping,
        outstanding,
        answered,
        last_hello_ms: hello,
    }
}

// Writes a peer into an area.
pub fn store_peer(s: &mut [u8], p: Peer)
    requires { 704 ≤ length s.old }
    ensures { s.new ≡ put_at s.old 0 (peer_bytes p) }
{
    let first = [p.id.0, state_number(p.state)];
    words::raw::put_words(s, 0, &first);
    clock::raw::store_clock(s, 16, &p.remote_clock);
    let times = [p.last_seen_ms, p.last_ping_ms];
    words::raw::put_words(s, 536, &times);
    store_pings(s, 552, p.outstanding);
    store_pings(s, 624, p.answered);
    words::raw::put_word(s, 696, p.last_hello_ms);
}
