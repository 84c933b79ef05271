// From src/merge.rs and src/engine.rs: the batch call, which folds the stamps into the hybrid clock too, and the floor.
#![tactic(auto)]

mod deciding; // what a batch comes to; no area but scratch is written
mod call; // a batch merged
mod folding; // its stamps folded into the hybrid clock
pub mod delta; // the batch call: both in one
pub mod floor; // setting the floor

use clock::hybrid::HybridClock;
use error::Ends;

// Counts from one accepted batch.
#[derive(Clone, Copy)]
pub struct MergeReport {
    // Rows logged whose outcome was 0.
    pub applied: u64,
    // Rows logged with a stamp at or below the floor.
    pub stale: u64,
    // Rows logged with another outcome.
    pub rejected: u64,
    // Rows that were there already.
    pub duplicates: u64,
    // Rows that wait after this batch.
    pub held: u64,
    // Held rows that waited too long.
    pub expired: u64,
    // Ready rows that were not their author's next.
    pub dropped: u64,
}

// The report of an accepted batch, and how many of its stamps could not be folded.
#[derive(Clone, Copy)]
pub struct Merged {
    pub report: MergeReport,
    pub failed: u64,
}

// What a batch call answers, and the clock moved on, as it was where the batch is refused.
pub type Joined = Ends<Merged, HybridClock>;
