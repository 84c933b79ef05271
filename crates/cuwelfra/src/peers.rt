// The record of a peer in an area of 704 bytes: crate peer.
ghost use Rattle.std.specs.Prelude.{◌≡◌, ◌≤◌, length};
ghost use Rattle.error.specs.Answer.{told_by};
ghost use Rattle.peer.specs.Area.{peer_bytes, state_ok};
ghost use Rattle.replicated_log.specs.Areas.{areas};
ghost use Rattle.cuwelfra.specs.Vectors.{count_told};
ghost use Rattle.cuwelfra.specs.Exports.{exported, written_back};
ghost use Rattle.cuwelfra.specs.Peers.{new_peer_area, started_area, lost_area, absorb_area, replace_area, record_ping_area, take_pong_area, rebase_area, pending_ops_area};
ghost use Rattle.cuwelfra.specs.Inside.LentRecords.{record_in};

use crate::store::told_by;
use crate::vector::{ClockTold, clock_told};
use error::{Refusal, Told};
use peer::{Peer, PeerAnswer};
use stubs::ActorId;

// Whether the state's number is one of the four.
fn is_state(area: &[u8]) -> bool
    requires { 704 ≤ length area.now }
    ensures { result ≡ state_ok area.now }
{
    words::raw::get_word(area, 8) <= 3
}

// The record in an area: 2 for a short one, 1 for a state that is none.
fn record(area: &[u8]) -> Result<Peer, Refusal>
    ensures { result ≡ record_in area.now }
{
    if area.len() < 704 {
        return Err(Refusal::ShortArea);
    }
    if !is_state(area) {
        return Err(Refusal::UnsoundStore);
    }
    Ok(peer::raw::load_peer(area))
}

// Writes the changed record back; a refused one is left.
fn keep_peer(area: &mut [u8], r: PeerAnswer) -> Told
    requires { 704 ≤ length area.old }
    ensures { (result, area.new) ≡ exported told_by (written_back peer_bytes area.old r) }
{
    if r.answer.is_ok() {
        peer::raw::store_peer(area, r.left);
    }
    told_by(r.answer)
}

// Makes the area the record of a new peer.
#[unsafe(no_mangle)]
pub extern "C" fn cuwelfra_peer_new(area: &mut [u8], id: u64) -> Told
    ensures { (result, area.new) ≡ exported told_by (new_peer_area area.old id) }
{
    if area.len() < 704 {
        return error::tell(Refusal::ShortArea);
    }
    peer::raw::store_peer(area, Peer::new(ActorId(id)));
    crate::bytes::accept()
}

#[unsafe(no_mangle)]
pub extern "C" fn cuwelfra_peer_connection_started(area: &mut [u8], ms: u64) -> Told
    ensures { (result, area.new) ≡ exported told_by (started_area area.old ms) }
{
    match record(area) {
        Ok(own) => keep_peer(area, own.connection_started(ms)),
        Err(refusal) => error::tell(refusal),
    }
}

#[unsafe(no_mangle)]
pub extern "C" fn cuwelfra_peer_connection_lost(area: &mut [u8]) -> Told
    ensures { (result, area.new) ≡ exported told_by (lost_area area.old) }
{
    match record(area) {
        Ok(own) => keep_peer(area, own.connection_lost()),
        Err(refusal) => error::tell(refusal),
    }
}

#[unsafe(no_mangle)]
pub extern "C" fn cuwelfra_peer_absorb_clock(area: &mut [u8], clock: &[u8]) -> Told
    ensures { (result, area.new) ≡ exported told_by (absorb_area area.old clock.now) }
{
    if clock.len() < 520 {
        return error::tell(Refusal::ShortArea);
    }
    match record(area) {
        Ok(own) => keep_peer(area, own.absorb_clock(&clock::raw::load_clock(clock, 0))),
        Err(refusal) => error::tell(refusal),
    }
}

#[unsafe(no_mangle)]
pub extern "C" fn cuwelfra_peer_replace_clock(area: &mut [u8], clock: &[u8]) -> Told
    ensures { (result, area.new) ≡ exported told_by (replace_area area.old clock.now) }
{
    if clock.len() < 520 {
        return error::tell(Refusal::ShortArea);
    }
    match record(area) {
        Ok(own) => keep_peer(area, own.replace_clock(&clock::raw::load_clock(clock, 0))),
        Err(refusal) => error::tell(refusal),
    }
}

#[unsafe(no_mangle)]
pub extern "C" fn cuwelfra_peer_record_ping(area: &mut [u8], ms: u64) -> Told
    ensures { (result, area.new) ≡ exported told_by (record_ping_area area.old ms) }
{
    match record(area) {
        Ok(own) => keep_peer(area, peer::inplace::record_ping(own, ms)),
        Err(refusal) => error::tell(refusal),
    }
}

#[unsafe(no_mangle)]
pub extern "C" fn cuwelfra_peer_take_pong(area: &mut [u8], nonce: u64) -> Told
    ensures { (result, area.new) ≡ exported told_by (take_pong_area area.old nonce) }
{
    match record(area) {
        Ok(own) => keep_peer(area, peer::inplace::take_pong(own, nonce)),
        Err(refusal) => error::tell(refusal),
    }
}

#[unsafe(no_mangle)]
pub extern "C" fn cuwelfra_peer_rebase_timers(area: &mut [u8], ms: u64) -> Told
    ensures { (result, area.new) ≡ exported told_by (rebase_area area.old ms) }
{
    match record(area) {
        Ok(own) => keep_peer(area, own.rebase_timers(ms)),
        Err(refusal) => error::tell(refusal),
    }
}

// How many logged rows the peer has not acknowledged.
#[unsafe(no_mangle)]
pub extern "C" fn cuwelfra_peer_pending_ops(
    area: &[u8],
    log: &[u8],
    held: &[u8],
    head: &[u8],
) -> ClockTold
    ensures { result ≡ count_told (pending_ops_area area.now (areas log.now held.now head.now)) }
{
    if area.len() < 704 {
        return clock_told(Err(Refusal::ShortArea));
    }
    let answer = peer::raw::load_peer(area).pending_ops(log, held, head);
    if is_state(area) {
        return clock_told(answer);
    }
    clock_told(answer.and(Err(Refusal::UnsoundStore)))
}
