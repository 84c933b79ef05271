// The record of a peer, lent and changed in place. The work is done by `pinged` and `ponged`, by value.
ghost use Rattle.std.specs.Prelude.{◌≡◌};
ghost use Rattle.peer.specs.Peers.{record_ping_call, take_pong_call};
ghost use Rattle.error.specs.Answer.{ends};

use crate::{Peer, PeerAnswer};
use error::{Ends, Refusal};

impl Peer {
    // Records a ping sent at `now`, its nonce.
    pub fn record_ping(&mut self, now: u64) -> Result<(), Refusal>
        ensures { ends result self.new ≡ record_ping_call self.old now }
    {
        let after = self.pinged(now);
        *self = after.left;
        after.answer
    }

    // Takes the pong with this nonce.
    pub fn take_pong(&mut self, nonce: u64) -> Result<(), Refusal>
        ensures { ends result self.new ≡ take_pong_call self.old nonce }
    {
        let after = self.ponged(nonce);
        *self = after.left;
        after.answer
    }
}

// The same on a record that goes in by value and comes back: whoever calls this lends nothing.
pub fn record_ping(p: Peer, now: u64) -> PeerAnswer
    ensures { result ≡ record_ping_call p now }
{
    let mut left = p;
    let answer = left.record_ping(now);
    Ends { answer, left }
}

pub fn take_pong(p: Peer, nonce: u64) -> PeerAnswer
    ensures { result ≡ take_pong_call p nonce }
{
    let mut left = p;
    let answer = left.take_pong(nonce);
    Ends { answer, left }
}
