// Calls that change the log: crate replicated_log.
ghost use Rattle.std.specs.Prelude.{◌≡◌};
ghost use Rattle.error.specs.Answer.{told_by};
ghost use Rattle.replicated_log.specs.Areas.{areas};
ghost use Rattle.replicated_log.specs.Calls.{insert_call, from_parts_call, compact_call};
ghost use Rattle.cuwelfra.specs.Hybrids.{stamp_by};
ghost use Rattle.cuwelfra.specs.Exports.{exported};
ghost use Rattle.cuwelfra.specs.Vectors.{count_told};

use crate::vector::ClockTold;
use error::Told;

// Logs the row of a slot.
#[unsafe(no_mangle)]
pub extern "C" fn cuwelfra_insert(log: &mut [u8], held: &[u8], head: &mut [u8], slot: &[u8]) -> Told
    ensures { (result, areas log.new held.now head.new) ≡ exported told_by (insert_call (areas log.old held.now head.old) slot.now) }
{
    crate::store::told_by(replicated_log::change::insert(log, held, head, slot))
}

// Makes the store anew from the rows of `count` slots and a compacted clock.
#[unsafe(no_mangle)]
pub extern "C" fn cuwelfra_from_parts(
    log: &mut [u8],
    held: &mut [u8],
    head: &mut [u8],
    parts: &[u8],
    count: usize,
    compacted: &[u8],
) -> Told
    ensures { (result, areas log.new held.new head.new) ≡ exported told_by (from_parts_call (areas log.old held.old head.old) parts.now count compacted.now) }
{
    crate::store::told_by(replicated_log::change::from_parts(
        log, held, head, parts, count, compacted,
    ))
}

// Removes every row at or below the cutoff, and answers how many.
#[unsafe(no_mangle)]
pub extern "C" fn cuwelfra_compact(
    log: &mut [u8],
    held: &[u8],
    head: &mut [u8],
    wall_time: u64,
    logical_counter: u32,
    actor_id: u64,
) -> ClockTold
    ensures { (result, areas log.new held.now head.new) ≡ exported count_told (compact_call (areas log.old held.now head.old) (stamp_by wall_time logical_counter actor_id)) }
{
    let cutoff = crate::hybrid::stamp_by(wall_time, logical_counter, actor_id);
    crate::vector::clock_told(replicated_log::change::compact(log, held, head, cutoff))
}
