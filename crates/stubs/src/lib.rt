// From src/stubs/mod.rs: the identity of an author.
#![tactic(auto)]

// Identifies an author. Its own type, apart from sequence numbers, which are plain u64.
#[derive(Clone, Copy, Debug, PartialEq, Eq, PartialOrd, Ord)]
pub struct ActorId(pub u64);
