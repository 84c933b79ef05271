// A batch merged, no stamp folded: the first part of the batch call, which no crate above can call.
ghost use Rattle.std.specs.Prelude.{◌≡◌, ◌≤◌, length, replicate};
ghost use Rattle.error.specs.Answer.{refused, ends};
ghost use Rattle.replicated_log.specs.Areas.{areas};
ghost use Rattle.merging.specs.Calls.{batch_call};
ghost use Rattle.batch.specs.Settings.{limits_of};
ghost use Rattle.merge.specs.Inside.Decision.{CommitNeeds, Commits, StartsKnown};
ghost use Rattle.merge.specs.Inside.Applying.{applied_of};

use crate::MergeReport;
use crate::deciding::decide;
use batch::MergeLimits;
use commit::Fates;
use commit::raw::{hold_rows, log_rows};
use error::Refusal;
use words::raw::put_word;

// Writes what was decided: lines and log, the held rows, their count.
fn commit(
    log: &mut [u8],
    held: &mut [u8],
    head: &mut [u8],
    batch: &[u8],
    scratch: &[u8],
    output: &mut [u8],
    waiting: usize,
    logged: usize,
    time: u64,
) -> Fates
    requires { CommitNeeds log.old held.old head.old batch.now scratch.now output.old waiting logged }
    ensures { Commits log.old held.old head.old batch.now scratch.now output.old waiting logged time log.new held.new head.new output.new result }
{
    let fates = log_rows(log, head, held, batch, scratch, logged, output);
    hold_rows(held, batch, scratch, waiting, time);
    put_word(head, 8, waiting as u64);
    fates
}

// A refused call writes one area, the scratch, and clears it.
fn refuse(area: &mut [u8], refusal: Refusal) -> Result<MergeReport, Refusal>
    ensures is { result ≡ refused refusal }
    ensures clear { area.new ≡ replicate (length area.old) 0 }
{
    words::zero(area);
    Err(refusal)
}

// Applies a batch of remote rows: the report, or the refusal. A refused call leaves all but scratch; scratch is zero
// after every call. `starts` then has where each row of an accepted batch starts.
pub(crate) fn apply_remote_ops(
    limits: MergeLimits,
    time: u64,
    log: &mut [u8],
    held: &mut [u8],
    head: &mut [u8],
    batch: &[u8],
    scratch: &mut [u8],
    output: &mut [u8],
    starts: &mut [u64],
) -> Result<MergeReport, Refusal>
    requires { 64 ≤ length starts.old }
    ensures leaves { ends (applied_of result) (record { areas = areas log.new held.new head.new; scratch = scratch.new; output = output.new }) ≡ batch_call (areas log.old held.old head.old) (record { limits = limits_of limits; time = time; batch = batch.now; scratch = scratch.old; output = output.old }) }
    ensures begin { StartsKnown result batch.now starts.new }
{
    let decision = match decide(
        limits, time, log, held, head, batch, scratch, output, starts,
    ) {
        Ok(decision) => decision,
        Err(r) => return refuse(scratch, r),
    };
    let waiting = decision.waiting;
    let logged = decision.logged;
    let fates = commit(
        log, held, head, batch, scratch, output, waiting, logged, time,
    );
    words::zero(scratch);
    Ok(MergeReport {
        applied: fates.applied as u64,
        stale: fates.stale as u64,
        rejected: fates.rejected as u64,
        duplicates: decision.duplicates as u64,
        held: waiting as u64,
        expired: decision.expired as u64,
        dropped: decision.dropped as u64,
    })
}
