// Questions to a store, and lookup: crate replicated_log. A store goes as its three areas.
ghost use Rattle.std.specs.Prelude.{◌≡◌, ◌≤◌, length};
ghost use Rattle.words.specs.Names.{Clock};
ghost use Rattle.error.specs.Answer.{Answer, accepted, told_by};
ghost use Rattle.replicated_log.specs.Areas.{areas};
ghost use Rattle.replicated_log.specs.Calls.{log_len_call, pending_len_call, floor_call, watermark_call, clock_call, compacted_call, derive_call, can_serve_call, find_call, check_call};
ghost use Rattle.replicated_log.specs.Answers.{clock_answer};
ghost use Rattle.cuwelfra.specs.Exports.{exported};
ghost use Rattle.cuwelfra.specs.Vectors.{count_told, cover_told};
ghost use Rattle.cuwelfra.specs.Stores.{stamp_told, lookup_told, clock_out};

use crate::vector::ClockTold;
use clock::stamp::Timestamp;
use clock::vector::VectorClock;
use error::{Refusal, Told};
use replicated_log::Place;
use stubs::ActorId;

#[repr(C)]
#[derive(Clone, Copy)]
pub struct StampTold {
    pub told: Told,
    pub present: u64,
    pub wall_time: u64,
    pub logical_counter: u64,
    pub actor_id: u64,
}

pub(crate) fn told_by(r: Result<(), Refusal>) -> Told
    ensures { result ≡ told_by r }
{
    match r {
        Ok(()) => crate::bytes::accept(),
        Err(refusal) => error::tell(refusal),
    }
}

fn no_stamp(told: Told) -> StampTold
    ensures { result ≡ record { told = told; present = 0; wall_time = 0; logical_counter = 0; actor_id = 0 } }
{
    StampTold {
        told,
        present: 0,
        wall_time: 0,
        logical_counter: 0,
        actor_id: 0,
    }
}

pub(crate) fn stamp_told(r: Result<Option<Timestamp>, Refusal>) -> StampTold
    ensures { result ≡ stamp_told r }
{
    match r {
        Ok(Some(stamp)) => StampTold {
            told: crate::bytes::accept(),
            present: 1,
            wall_time: stamp.wall_time,
            logical_counter: u64::from(stamp.logical_counter),
            actor_id: stamp.actor_id.0,
        },
        Ok(None) => no_stamp(crate::bytes::accept()),
        Err(refusal) => no_stamp(error::tell(refusal)),
    }
}

// Whether the areas hold a store that keeps every rule.
#[unsafe(no_mangle)]
pub extern "C" fn cuwelfra_store_check(log: &[u8], held: &[u8], head: &[u8]) -> Told
    ensures { result ≡ told_by (check_call (areas log.now held.now head.now)) }
{
    told_by(replicated_log::check::check_store(log, held, head))
}

#[unsafe(no_mangle)]
pub extern "C" fn cuwelfra_log_len(log: &[u8], held: &[u8], head: &[u8]) -> ClockTold
    ensures { result ≡ count_told (log_len_call (areas log.now held.now head.now)) }
{
    crate::vector::clock_told(replicated_log::query::len(log, held, head))
}

#[unsafe(no_mangle)]
pub extern "C" fn cuwelfra_pending_len(log: &[u8], held: &[u8], head: &[u8]) -> ClockTold
    ensures { result ≡ count_told (pending_len_call (areas log.now held.now head.now)) }
{
    crate::vector::clock_told(replicated_log::query::pending_len(log, held, head))
}

#[unsafe(no_mangle)]
pub extern "C" fn cuwelfra_floor(log: &[u8], held: &[u8], head: &[u8]) -> StampTold
    ensures { result ≡ stamp_told (floor_call (areas log.now held.now head.now)) }
{
    stamp_told(replicated_log::query::floor(log, held, head))
}

#[unsafe(no_mangle)]
pub extern "C" fn cuwelfra_watermark(log: &[u8], held: &[u8], head: &[u8], actor: u64) -> StampTold
    ensures { result ≡ stamp_told (watermark_call (areas log.now held.now head.now) actor) }
{
    stamp_told(replicated_log::query::watermark(log, held, head, ActorId(actor)))
}

// Whether a peer with the clock in `peer` can be brought up to date: 1 or 0.
#[unsafe(no_mangle)]
pub extern "C" fn cuwelfra_can_serve(log: &[u8], held: &[u8], head: &[u8], peer: &[u8]) -> ClockTold
    ensures { result ≡ cover_told (can_serve_call (areas log.now held.now head.now) peer.now) }
{
    crate::vector::cover_told(replicated_log::query::can_serve(log, held, head, peer))
}

// Writes an answered clock to a clock area; a refused one leaves it.
fn put_clock(area: &mut [u8], r: Result<VectorClock, Refusal>) -> Told
    requires { 520 ≤ length area.old }
    ensures { (answer : Answer Clock) → r ≡ clock_answer answer → (result, area.new) ≡ exported told_by (clock_out area.old answer) }
{
    match r {
        Ok(clock) => {
            clock::raw::store_clock(area, 0, &clock);
            crate::bytes::accept()
        }
        Err(refusal) => error::tell(refusal),
    }
}

// The log's clock, into a clock area.
#[unsafe(no_mangle)]
pub extern "C" fn cuwelfra_log_clock(log: &[u8], held: &[u8], head: &[u8], clock: &mut [u8]) -> Told
    ensures { (result, clock.new) ≡ exported told_by (clock_out clock.old (clock_call (areas log.now held.now head.now))) }
{
    if clock.len() < 520 {
        return error::tell(Refusal::ShortArea);
    }
    put_clock(clock, replicated_log::query::clock(log, held, head))
}

// The compacted clock, into a clock area.
#[unsafe(no_mangle)]
pub extern "C" fn cuwelfra_log_compacted(
    log: &[u8],
    held: &[u8],
    head: &[u8],
    clock: &mut [u8],
) -> Told
    ensures { (result, clock.new) ≡ exported told_by (clock_out clock.old (compacted_call (areas log.now held.now head.now))) }
{
    if clock.len() < 520 {
        return error::tell(Refusal::ShortArea);
    }
    put_clock(clock, replicated_log::query::compacted(log, held, head))
}

// The clock derived from the logged rows, into a clock area.
#[unsafe(no_mangle)]
pub extern "C" fn cuwelfra_derive_clock(
    log: &[u8],
    held: &[u8],
    head: &[u8],
    clock: &mut [u8],
) -> Told
    ensures { (result, clock.new) ≡ exported told_by (clock_out clock.old (derive_call (areas log.now held.now head.now))) }
{
    if clock.len() < 520 {
        return error::tell(Refusal::ShortArea);
    }
    put_clock(clock, replicated_log::query::derive_clock(log, held, head))
}

#[repr(C)]
#[derive(Clone, Copy)]
pub struct LookupTold {
    pub told: Told,
    pub place: u64,
    pub slot: u64,
    pub len: u64,
}

fn found(place: u64, slot: usize, len: usize) -> LookupTold
    ensures { result ≡ record { told = accepted; place = place; slot = slot; len = len } }
{
    LookupTold {
        told: crate::bytes::accept(),
        place,
        slot: slot as u64,
        len: len as u64,
    }
}

// Where a row stands: 0 absent, 1 logged, 2 held, with its slot and the length of its payload, which stands at 384 in the slot.
#[unsafe(no_mangle)]
pub extern "C" fn cuwelfra_lookup(
    log: &[u8],
    held: &[u8],
    head: &[u8],
    actor: u64,
    seq: u64,
) -> LookupTold
    ensures { result ≡ lookup_told (areas log.now held.now head.now) (find_call (areas log.now held.now head.now) actor seq) }
{
    match replicated_log::lookup::find(log, held, head, ActorId(actor), seq) {
        Ok(Some(Place::Logged(i))) => found(1, i, replicated_log::raw::payload(log, i).len()),
        Ok(Some(Place::Held(i))) => found(2, i, replicated_log::raw::payload(held, i).len()),
        Ok(None) => found(0, 0, 0),
        Err(refusal) => LookupTold {
            told: error::tell(refusal),
            place: 0,
            slot: 0,
            len: 0,
        },
    }
}
