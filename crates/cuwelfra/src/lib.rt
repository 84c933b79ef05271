// The static library: every public call as a C function over numbers and byte slices. A slice is a pointer and a length.
#![tactic(auto)]

pub mod abi; // the number of this interface
pub mod batches; // the batch call and the floor
pub mod bytes; // varints, readers, writers, envelopes
pub mod changes; // insertion, restoring, compaction
pub mod desk; // a desk's own rows
pub mod hybrid; // stamps and hybrid clocks
pub mod messages; // handshake and delta messages
pub mod outgoing; // cutoff, delta and chunks
pub mod peers; // the record of a peer
pub mod rows; // rows in slots and in batches
pub mod store; // questions to a store
pub mod vector; // vector clocks in areas
