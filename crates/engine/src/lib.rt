// From src/engine.rs: `Replica::local_op` as two calls, so that the server can sign in between.
#![tactic(auto)]

pub mod preparing; // a row with its stamp, sequence and causes, and the bytes to sign
pub mod sealing; // the signed row into the log

use row::StampedOperation;

// A prepared row, its payload lying in the payload that was lent, and how many bytes are to be signed.
#[derive(Clone, Copy)]
pub struct Prepared {
    pub op: StampedOperation,
    pub len: usize,
}
