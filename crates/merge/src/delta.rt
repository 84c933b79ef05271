// The batch call: a batch is merged, and then its stamps are folded into the hybrid clock.
ghost use Rattle.std.specs.Prelude.{◌≡◌};
ghost use Rattle.replicated_log.specs.Areas.{areas};
ghost use Rattle.merging.specs.Delta.{delta_call};
ghost use Rattle.batch.specs.Settings.{limits_of};
ghost use Rattle.merge.specs.Reports.{joined_of};

use crate::call::apply_remote_ops;
use crate::folding::fold_stamps;
use crate::{Joined, Merged};
use batch::MergeLimits;
use clock::hybrid::HybridClock;
use error::Ends;

// Applies a batch of remote rows; where it is accepted, folds the stamp of each of its rows into the hybrid clock, in
// batch order, at the same time. A fold that fails is counted, and the next goes on. A refused call leaves all but
// scratch, the clock too; scratch is zero after every call.
pub fn apply_delta(
    limits: MergeLimits,
    time: u64,
    hybrid: HybridClock,
    log: &mut [u8],
    held: &mut [u8],
    head: &mut [u8],
    batch: &[u8],
    scratch: &mut [u8],
    output: &mut [u8],
) -> Joined
    ensures { joined_of result (record { areas = areas log.new held.new head.new; scratch = scratch.new; output = output.new }) ≡ delta_call (areas log.old held.old head.old) hybrid (record { limits = limits_of limits; time = time; batch = batch.now; scratch = scratch.old; output = output.old }) }
{
    let mut starts = [0; 64];
    let report = match apply_remote_ops(
        limits,
        time,
        log,
        held,
        head,
        batch,
        scratch,
        output,
        &mut starts,
    ) {
        Ok(report) => report,
        Err(r) => {
            return Ends {
                answer: Err(r),
                left: hybrid,
            };
        }
    };
    let folded = fold_stamps(batch, &starts, time, hybrid);
    let merged = Merged {
        report,
        failed: folded.failed,
    };
    Ends {
        answer: Ok(merged),
        left: folded.clock,
    }
}
