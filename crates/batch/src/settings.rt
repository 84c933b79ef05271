// The settings of a batch call.
ghost use Rattle.std.specs.Prelude.{◌≡◌};
ghost use Rattle.merging.specs.Batch.{limits_ok};
ghost use Rattle.batch.specs.Settings.{limits_of};

use crate::MergeLimits;

// Whether the settings are within the closing list.
#[tactic(auto, unfolding(merging::specs::Batch::limits_ok, crate::specs::Settings::limits_of))]
pub fn are_within(limits: MergeLimits) -> bool
    ensures { result ≡ limits_ok (limits_of limits) }
{
    limits.max_pending <= 64 && limits.max_deps <= 16 && limits.max_payload <= 256
}
