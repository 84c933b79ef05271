// The validation of one row: "5 to 12 row by row in that order".
ghost use Rattle.std.specs.Prelude.{◌≡◌, ◌≤◌};
ghost use Rattle.row.specs.Values.{deps_of};
ghost use Rattle.merging.specs.Batch.{own_future};
ghost use Rattle.batch.specs.Settings.{limits_of};
ghost use Rattle.batch.specs.Inside.BatchReads.{Validates, GoesOn};

use crate::MergeLimits;
use clock::hybrid::saturating_add;
use error::Refusal;
use row::{Deps, StampedOperation};
use stubs::ActorId;

// Whether a dependency on the row's own author is not below its sequence.
fn own_future(d: Deps, actor: ActorId, seq: u64) -> bool
    requires { d.count ≤ 16 }
    ensures { result ≡ own_future actor.0 seq (deps_of d) }
{
    let n = d.count;
    d.authors[..n]
        .iter()
        .zip(&d.numbers[..n])
        .any(|(author, number)| *author == actor.0 && seq <= *number)
}

// The tests 5 to 12 of a row that was read, with its verdict.
fn validate(
    limits: MergeLimits,
    time: u64,
    op: StampedOperation,
    verdict: u8,
) -> Result<(), Refusal>
    requires { op.deps.count ≤ 16 }
    ensures { Validates (limits_of limits) time op verdict result }
{
    let actor = op.actor;
    let seq = op.seq;
    let stamp = op.timestamp;
    let deps = op.deps;
    if seq == 0 {
        return Err(Refusal::ZeroSequence { actor, seq });
    }
    if stamp.actor_id.0 != actor.0 {
        return Err(Refusal::ForeignStamp { actor, seq });
    }
    if stamp.logical_counter == u32::MAX {
        return Err(Refusal::SpentCounter { actor, seq });
    }
    if op.payload.len as u64 > limits.max_payload {
        return Err(Refusal::PayloadTooLarge { actor, seq });
    }
    if deps.count as u64 > limits.max_deps {
        return Err(Refusal::TooManyCauses { actor, seq });
    }
    if own_future(deps, actor, seq) {
        return Err(Refusal::OwnFuture { actor, seq });
    }
    if stamp.wall_time > saturating_add(time, limits.max_drift_ms) {
        return Err(Refusal::AheadOfTime { actor, seq });
    }
    if verdict != 1 {
        return Err(Refusal::BadSignature { actor, seq });
    }
    Ok(())
}

// The first fault: the one found before, or this row's.
pub(crate) fn validated(
    before: Result<(), Refusal>,
    limits: MergeLimits,
    time: u64,
    op: StampedOperation,
    verdict: u8,
) -> Result<(), Refusal>
    requires { op.deps.count ≤ 16 }
    ensures { GoesOn before (limits_of limits) time op verdict result }
{
    before?;
    validate(limits, time, op, verdict)
}
