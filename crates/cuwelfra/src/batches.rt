// The batch call and the floor: crate merge.
ghost use Rattle.std.specs.Prelude.{◌≡◌};
ghost use Rattle.error.specs.Answer.{told_by};
ghost use Rattle.replicated_log.specs.Areas.{areas};
ghost use Rattle.merging.specs.Calls.{Lent, set_floor_call};
ghost use Rattle.merging.specs.Delta.{delta_call};
ghost use Rattle.merge.specs.Reports.{joined_of};
ghost use Rattle.cuwelfra.specs.Hybrids.{clock_by, stamp_by};
ghost use Rattle.cuwelfra.specs.Exports.{exported};
ghost use Rattle.cuwelfra.specs.Batches.{limits_by, delta_told};

use batch::MergeLimits;
use error::Told;
use merge::Joined;

// The counts of an accepted batch, or the refusal; and the hybrid clock.
#[repr(C)]
#[derive(Clone, Copy)]
pub struct DeltaTold {
    pub told: Told,
    pub applied: u64,
    pub stale: u64,
    pub rejected: u64,
    pub duplicates: u64,
    pub held: u64,
    pub expired: u64,
    pub dropped: u64,
    pub failed_folds: u64,
    pub last_wall: u64,
    pub last_counter: u64,
}

fn delta_told(r: Joined) -> DeltaTold
    ensures { (lent : Lent) → (result, lent) ≡ delta_told (joined_of r lent) }
{
    let clock = r.left;
    match r.answer {
        Ok(merged) => {
            let report = merged.report;
            DeltaTold {
                told: crate::bytes::accept(),
                applied: report.applied,
                stale: report.stale,
                rejected: report.rejected,
                duplicates: report.duplicates,
                held: report.held,
                expired: report.expired,
                dropped: report.dropped,
                failed_folds: merged.failed,
                last_wall: clock.last_wall,
                last_counter: u64::from(clock.last_counter),
            }
        }
        Err(refusal) => DeltaTold {
            told: error::tell(refusal),
            applied: 0,
            stale: 0,
            rejected: 0,
            duplicates: 0,
            held: 0,
            expired: 0,
            dropped: 0,
            failed_folds: 0,
            last_wall: clock.last_wall,
            last_counter: u64::from(clock.last_counter),
        },
    }
}

// Applies a batch of remote rows to the store, and folds their stamps into the hybrid clock.
#[unsafe(no_mangle)]
pub extern "C" fn cuwelfra_apply_delta(
    max_pending: u64,
    max_pending_per_actor: u64,
    max_pending_bytes: u64,
    max_pending_age_ms: u64,
    max_drift_ms: u64,
    max_deps: u64,
    max_payload: u64,
    time_ms: u64,
    actor: u64,
    last_wall: u64,
    last_counter: u32,
    clock_max_drift_ms: u64,
    log: &mut [u8],
    held: &mut [u8],
    head: &mut [u8],
    batch: &[u8],
    scratch: &mut [u8],
    output: &mut [u8],
) -> DeltaTold
    ensures { (result, record { areas = areas log.new held.new head.new; scratch = scratch.new; output = output.new }) ≡ delta_told (delta_call (areas log.old held.old head.old) (clock_by actor last_wall last_counter clock_max_drift_ms) (record { limits = limits_by max_pending max_pending_per_actor max_pending_bytes max_pending_age_ms max_drift_ms max_deps max_payload; time = time_ms; batch = batch.now; scratch = scratch.old; output = output.old })) }
{
    let limits = MergeLimits {
        max_pending,
        max_pending_per_actor,
        max_pending_bytes,
        max_pending_age_ms,
        max_drift_ms,
        max_deps,
        max_payload,
    };
    let hybrid = crate::hybrid::clock_by(actor, last_wall, last_counter, clock_max_drift_ms);
    delta_told(merge::delta::apply_delta(
        limits, time_ms, hybrid, log, held, head, batch, scratch, output,
    ))
}

// Raises the floor to a stamp; it never lowers it.
#[unsafe(no_mangle)]
pub extern "C" fn cuwelfra_set_floor(
    log: &[u8],
    held: &[u8],
    head: &mut [u8],
    wall_time: u64,
    logical_counter: u32,
    actor_id: u64,
) -> Told
    ensures { (result, areas log.now held.now head.new) ≡ exported told_by (set_floor_call (areas log.now held.now head.old) (stamp_by wall_time logical_counter actor_id)) }
{
    let stamp = crate::hybrid::stamp_by(wall_time, logical_counter, actor_id);
    crate::store::told_by(merge::floor::set_floor(log, held, head, stamp))
}
