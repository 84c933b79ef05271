// What an accepted batch writes: the lines of the output, the log, and the held rows.
#![tactic(auto)]

mod holding; // the held rows in place
mod logging; // one row into output and log
pub mod raw; // the two parts

// How many logged rows were applied, stale and rejected.
#[derive(Clone, Copy)]
pub struct Fates {
    pub applied: usize,
    pub stale: usize,
    pub rejected: usize,
}
