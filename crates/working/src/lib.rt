// The merger's working rows, as references in the scratch area: expiry, admission, draining.
#![tactic(auto)]

mod contents; // whether two rows agree
mod entering; // one row of the batch into the working rows
mod keys; // the keys of the working rows
mod looks; // looks at the row of a reference
mod scratch; // the words of the scratch area
mod ticking; // the clock that rows are drained by
pub mod raw; // the three steps

// How admission ended: how many working rows there are, and how many rows were duplicates.
#[derive(Clone, Copy)]
pub struct Admitting {
    pub working: usize,
    pub duplicates: usize,
}

// How draining ended: how many rows wait on, were logged, were dropped, and how many authors the clock has then.
#[derive(Clone, Copy)]
pub struct Draining {
    pub waiting: usize,
    pub logged: usize,
    pub dropped: usize,
    pub authors: usize,
}
