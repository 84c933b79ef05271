// A batch: its bytes read and its rows validated in one pass. From src/merge.rs.
#![tactic(auto)]

mod limits; // the tests 5 to 12 of one row
pub mod raw; // the rows of a batch
pub mod settings; // the closing list

use error::Refusal;

// Settings of a batch call.
#[derive(Clone, Copy)]
pub struct MergeLimits {
    // Largest number of rows held.
    pub max_pending: u64,
    // Largest number of rows held of one author.
    pub max_pending_per_actor: u64,
    // Largest total of payload bytes held.
    pub max_pending_bytes: u64,
    // How long a held row may wait, in milliseconds.
    pub max_pending_age_ms: u64,
    // How far ahead of the time a stamp may be, in milliseconds.
    pub max_drift_ms: u64,
    // Largest number of dependencies of a row.
    pub max_deps: u64,
    // Largest payload of a row, in bytes.
    pub max_payload: u64,
}

// A batch that was read: how many rows it has, and what 5 to 12 come to.
#[derive(Clone, Copy)]
pub struct BatchRead {
    pub rows: usize,
    pub valid: Result<(), Refusal>,
}
