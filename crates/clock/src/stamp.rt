// Stamps, ordered by wall time, counter and actor.
ghost use Rattle.std.specs.Prelude.{◌≡◌};
ghost use Rattle.clock.specs.Order.{stamp_less};

use stubs::ActorId;

// A stamp of a hybrid clock. The order of its fields is the order of stamps.
#[derive(Clone, Copy, Debug, PartialEq, Eq, PartialOrd, Ord)]
pub struct Timestamp {
    // Physical time in milliseconds.
    pub wall_time: u64,
    // Orders events that share a wall time.
    pub logical_counter: u32,
    // The actor that issued the stamp. Breaks every remaining tie.
    pub actor_id: ActorId,
}

impl Timestamp {
    // Whether self comes before other.
    #[tactic(auto, using(crate::proofs::DerivedOrder::derived_less, crate::proofs::DerivedOrder::derived_not_above))]
    pub fn less(self, other: Timestamp) -> bool
        ensures { result ≡ stamp_less self other }
    {
        self < other
    }
}
