// Vector clocks in areas of 520 bytes: crate clock.
ghost use Rattle.std.specs.Prelude.{◌≡◌, ◌≤◌, length};
ghost use Rattle.error.specs.Answer.{done, told_by};
ghost use Rattle.words.specs.Areas.{put_at};
ghost use Rattle.cuwelfra.specs.Vectors.{new_area, observe_area, increment_area, merge_area, get_area, dominates_area, compare_area, count_told, cover_told, order_told};
ghost use Rattle.cuwelfra.specs.Exports.{exported, if_done};
ghost use Rattle.clock.specs.Area.{clock_bytes};

use crate::store::told_by;
use clock::vector::{CausalOrder, VectorClock};
use error::{Refusal, Told};
use stubs::ActorId;

#[repr(C)]
#[derive(Clone, Copy)]
pub struct ClockTold {
    pub told: Told,
    pub number: u64,
}

pub(crate) fn clock_told(r: Result<u64, Refusal>) -> ClockTold
    ensures { result ≡ count_told r }
{
    match r {
        Ok(number) => ClockTold {
            told: crate::bytes::accept(),
            number,
        },
        Err(refusal) => ClockTold {
            told: error::tell(refusal),
            number: 0,
        },
    }
}

pub(crate) fn cover_told(r: Result<bool, Refusal>) -> ClockTold
    ensures { result ≡ cover_told r }
{
    match r {
        Ok(covers) => clock_told(Ok(u64::from(covers))),
        Err(refusal) => clock_told(Err(refusal)),
    }
}

fn order_number(o: CausalOrder) -> u64
    ensures { order_told (done o) ≡ count_told (done result) }
{
    match o {
        CausalOrder::Before => 0,
        CausalOrder::After => 1,
        CausalOrder::Equal => 2,
        CausalOrder::Concurrent => 3,
    }
}

fn order_told(r: Result<CausalOrder, Refusal>) -> ClockTold
    ensures { result ≡ order_told r }
{
    match r {
        Ok(order) => clock_told(Ok(order_number(order))),
        Err(refusal) => clock_told(Err(refusal)),
    }
}

// Writes a clock back where the call on it was carried out.
fn keep<T: Copy>(area: &mut [u8], answer: Result<T, Refusal>, clock: &VectorClock)
    requires { 520 ≤ length area.old }
    ensures { area.new ≡ if_done answer (put_at area.old 0 (clock_bytes clock.now)) area.old }
{
    if answer.is_ok() {
        clock::raw::store_clock(area, 0, clock);
    }
}

// Makes the area the clock with no entry.
#[unsafe(no_mangle)]
pub extern "C" fn cuwelfra_clock_new(clock: &mut [u8]) -> Told
    ensures { (result, clock.new) ≡ exported told_by (new_area clock.old) }
{
    if clock.len() < 520 {
        return error::tell(Refusal::ShortArea);
    }
    clock::raw::store_clock(clock, 0, &VectorClock::new());
    crate::bytes::accept()
}

#[unsafe(no_mangle)]
pub extern "C" fn cuwelfra_clock_get(clock: &[u8], actor: u64) -> ClockTold
    ensures { result ≡ count_told (get_area clock.now actor) }
{
    if clock.len() < 520 {
        return clock_told(Err(Refusal::ShortArea));
    }
    clock_told(clock::raw::load_clock(clock, 0).get(ActorId(actor)))
}

#[unsafe(no_mangle)]
pub extern "C" fn cuwelfra_clock_observe(clock: &mut [u8], actor: u64, seq: u64) -> Told
    ensures { (result, clock.new) ≡ exported told_by (observe_area clock.old actor seq) }
{
    if clock.len() < 520 {
        return error::tell(Refusal::ShortArea);
    }
    let mut own = clock::raw::load_clock(clock, 0);
    let answer = own.observe(ActorId(actor), seq);
    keep(clock, answer, &own);
    told_by(answer)
}

#[unsafe(no_mangle)]
pub extern "C" fn cuwelfra_clock_increment(clock: &mut [u8], actor: u64) -> ClockTold
    ensures { (result, clock.new) ≡ exported count_told (increment_area clock.old actor) }
{
    if clock.len() < 520 {
        return clock_told(Err(Refusal::ShortArea));
    }
    let mut own = clock::raw::load_clock(clock, 0);
    let answer = own.increment(ActorId(actor));
    keep(clock, answer, &own);
    clock_told(answer)
}

#[unsafe(no_mangle)]
pub extern "C" fn cuwelfra_clock_merge(clock: &mut [u8], other: &[u8]) -> Told
    ensures { (result, clock.new) ≡ exported told_by (merge_area clock.old other.now) }
{
    if clock.len() < 520 {
        return error::tell(Refusal::ShortArea);
    }
    if other.len() < 520 {
        return error::tell(Refusal::ShortArea);
    }
    let theirs = clock::raw::load_clock(other, 0);
    let mut own = clock::raw::load_clock(clock, 0);
    let answer = own.merge(&theirs);
    keep(clock, answer, &own);
    told_by(answer)
}

#[unsafe(no_mangle)]
pub extern "C" fn cuwelfra_clock_dominates(clock: &[u8], other: &[u8]) -> ClockTold
    ensures { result ≡ cover_told (dominates_area clock.now other.now) }
{
    if clock.len() < 520 {
        return cover_told(Err(Refusal::ShortArea));
    }
    if other.len() < 520 {
        return cover_told(Err(Refusal::ShortArea));
    }
    let theirs = clock::raw::load_clock(other, 0);
    cover_told(clock::raw::load_clock(clock, 0).dominates(&theirs))
}

#[unsafe(no_mangle)]
pub extern "C" fn cuwelfra_clock_compare(clock: &[u8], other: &[u8]) -> ClockTold
    ensures { result ≡ order_told (compare_area clock.now other.now) }
{
    if clock.len() < 520 {
        return order_told(Err(Refusal::ShortArea));
    }
    if other.len() < 520 {
        return order_told(Err(Refusal::ShortArea));
    }
    let theirs = clock::raw::load_clock(other, 0);
    order_told(clock::raw::load_clock(clock, 0).compare(&theirs))
}
