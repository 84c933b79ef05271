// Stamps and hybrid clocks: crate clock.
ghost use Rattle.std.specs.Prelude.{◌≡◌};
ghost use Rattle.clock.specs.Order.{stamp_order};
ghost use Rattle.clock.specs.Hybrid.{new_clock, now_call, update_call};
ghost use Rattle.cuwelfra.specs.Hybrids.{clock_by, stamp_by, order_number, hybrid_told, issued_told, updated_told};

use clock::hybrid::{HybridClock, Issued, Updated};
use clock::stamp::Timestamp;
use error::Told;
use std::cmp::Ordering;
use stubs::ActorId;

#[repr(C)]
#[derive(Clone, Copy)]
pub struct HybridTold {
    pub actor: u64,
    pub last_wall: u64,
    pub last_counter: u64,
    pub max_drift_ms: u64,
}

#[repr(C)]
#[derive(Clone, Copy)]
pub struct IssuedTold {
    pub told: Told,
    pub wall_time: u64,
    pub logical_counter: u64,
    pub actor_id: u64,
    pub last_wall: u64,
    pub last_counter: u64,
}

#[repr(C)]
#[derive(Clone, Copy)]
pub struct UpdatedTold {
    pub told: Told,
    pub last_wall: u64,
    pub last_counter: u64,
}

pub(crate) fn clock_by(
    actor: u64,
    last_wall: u64,
    last_counter: u32,
    max_drift_ms: u64,
) -> HybridClock
    ensures { result ≡ clock_by actor last_wall last_counter max_drift_ms }
{
    HybridClock {
        actor: ActorId(actor),
        last_wall,
        last_counter,
        max_drift_ms,
    }
}

pub(crate) fn stamp_by(wall: u64, counter: u32, actor: u64) -> Timestamp
    ensures { result ≡ stamp_by wall counter actor }
{
    Timestamp {
        wall_time: wall,
        logical_counter: counter,
        actor_id: ActorId(actor),
    }
}

fn hybrid_told(c: HybridClock) -> HybridTold
    ensures { result ≡ hybrid_told c }
{
    HybridTold {
        actor: c.actor.0,
        last_wall: c.last_wall,
        last_counter: u64::from(c.last_counter),
        max_drift_ms: c.max_drift_ms,
    }
}

fn issued_told(r: Issued) -> IssuedTold
    ensures { result ≡ issued_told r }
{
    let clock = r.left;
    match r.answer {
        Ok(stamp) => IssuedTold {
            told: crate::bytes::accept(),
            wall_time: stamp.wall_time,
            logical_counter: u64::from(stamp.logical_counter),
            actor_id: stamp.actor_id.0,
            last_wall: clock.last_wall,
            last_counter: u64::from(clock.last_counter),
        },
        Err(refusal) => IssuedTold {
            told: error::tell(refusal),
            wall_time: 0,
            logical_counter: 0,
            actor_id: 0,
            last_wall: clock.last_wall,
            last_counter: u64::from(clock.last_counter),
        },
    }
}

fn updated_told(r: Updated) -> UpdatedTold
    ensures { result ≡ updated_told r }
{
    UpdatedTold {
        told: crate::store::told_by(r.answer),
        last_wall: r.left.last_wall,
        last_counter: u64::from(r.left.last_counter),
    }
}

// How stamp a stands to stamp b: 0 less, 1 equal, 2 greater.
#[unsafe(no_mangle)]
pub extern "C" fn cuwelfra_timestamp_cmp(
    wall_a: u64,
    counter_a: u32,
    actor_a: u64,
    wall_b: u64,
    counter_b: u32,
    actor_b: u64,
) -> u64
    ensures { result ≡ order_number (stamp_order (stamp_by wall_a counter_a actor_a) (stamp_by wall_b counter_b actor_b)) }
{
    let a = stamp_by(wall_a, counter_a, actor_a);
    let b = stamp_by(wall_b, counter_b, actor_b);
    match a.cmp(&b) {
        Ordering::Less => 0,
        Ordering::Equal => 1,
        Ordering::Greater => 2,
    }
}

#[unsafe(no_mangle)]
pub extern "C" fn cuwelfra_hybrid_new(actor: u64) -> HybridTold
    ensures { result ≡ hybrid_told (new_clock (record { 0 = actor })) }
{
    hybrid_told(HybridClock::new(ActorId(actor)))
}

#[unsafe(no_mangle)]
pub extern "C" fn cuwelfra_hybrid_set_max_drift(
    actor: u64,
    last_wall: u64,
    last_counter: u32,
    max_drift_ms: u64,
    new_max_drift_ms: u64,
) -> HybridTold
    ensures { result ≡ hybrid_told (clock_by actor last_wall last_counter new_max_drift_ms) }
{
    hybrid_told(clock_by(actor, last_wall, last_counter, max_drift_ms).set_max_drift(
        new_max_drift_ms,
    ))
}

#[unsafe(no_mangle)]
pub extern "C" fn cuwelfra_hybrid_now(
    actor: u64,
    last_wall: u64,
    last_counter: u32,
    max_drift_ms: u64,
    physical: u64,
) -> IssuedTold
    ensures { result ≡ issued_told (now_call (clock_by actor last_wall last_counter max_drift_ms) physical) }
{
    issued_told(clock_by(actor, last_wall, last_counter, max_drift_ms).now(physical))
}

#[unsafe(no_mangle)]
pub extern "C" fn cuwelfra_hybrid_update(
    actor: u64,
    last_wall: u64,
    last_counter: u32,
    max_drift_ms: u64,
    remote_wall: u64,
    remote_counter: u32,
    remote_actor: u64,
    physical: u64,
) -> UpdatedTold
    ensures { result ≡ updated_told (update_call (clock_by actor last_wall last_counter max_drift_ms) (stamp_by remote_wall remote_counter remote_actor) physical) }
{
    updated_told(clock_by(actor, last_wall, last_counter, max_drift_ms).update(
        stamp_by(remote_wall, remote_counter, remote_actor),
        physical,
    ))
}
