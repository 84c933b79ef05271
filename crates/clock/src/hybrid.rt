// The hybrid logical clock of one actor. Behind the code stand the lines of the paper's figure, which specs/Hlc.antt renders: a wall is
// the paper's l and a counter its c; `own` is node j before the event, `remote` the message m, `physical` the time pt.j.
ghost use Rattle.std.specs.Prelude.{◌≡◌};
ghost use Rattle.clock.specs.Hlc.{greater, send_c, receive_c};
ghost use Rattle.error.specs.Answer.{done, ends};
ghost use Rattle.clock.specs.Hybrid.{hlc_of, stamp_hlc, new_clock, moved_to, stamp_of_event, now_call, update_call};
ghost use Rattle.words.specs.Choice.{saturating};

use crate::stamp::Timestamp;
use error::{Ends, Refusal};
use stubs::ActorId;

// Default bound on how far ahead of local time a remote stamp may be, in milliseconds.
pub const DEFAULT_MAX_DRIFT_MS: u64 = 60000;

// Every stamp that it issues is greater than the last, and than every stamp that it took in.
#[derive(Clone, Copy)]
pub struct HybridClock {
    pub actor: ActorId,
    pub last_wall: u64,
    pub last_counter: u32,
    pub max_drift_ms: u64,
}

// A new stamp, or the refusal; and the clock moved on, as it was where the call is refused.
pub type Issued = Ends<Timestamp, HybridClock>;
// The same without a stamp.
pub type Updated = Ends<(), HybridClock>;

// The greater of two numbers.
#[tactic(auto, using(crate::proofs::HybridLaws::max_greater, crate::proofs::HybridLaws::max_left, crate::proofs::HybridLaws::max_right))]
pub fn greater(a: u64, b: u64) -> u64
    ensures { result ≡ greater a b }
{
    a.max(b)
}

// The sum, or the greatest number where it does not fit.
#[tactic(auto, using(crate::proofs::HybridLaws::min_saturating, crate::proofs::HybridLaws::sum_fits, crate::proofs::HybridLaws::sum_full))]
pub fn saturating_add(a: u64, b: u64) -> u64
    ensures { result ≡ saturating a b }
{
    a.saturating_add(b)
}

impl HybridClock {
    // A clock for `actor` that has seen nothing.
    pub fn new(actor: ActorId) -> HybridClock
        ensures { result ≡ new_clock actor }
    {
        HybridClock {
            actor,
            last_wall: 0, // paper: "Initially l.j := 0;"
            last_counter: 0, // paper: "c.j := 0"
            max_drift_ms: DEFAULT_MAX_DRIFT_MS,
        }
    }

    // The clock with another bound on the lead of remote stamps.
    pub fn set_max_drift(self, max_drift_ms: u64) -> HybridClock
        ensures { result ≡ record { actor = self.actor; last_wall = self.last_wall; last_counter = self.last_counter; max_drift_ms = max_drift_ms } }
    {
        HybridClock {
            max_drift_ms,
            ..self
        }
    }

    // The same clock at another wall time and counter.
    fn moved(self, last_wall: u64, last_counter: u32) -> HybridClock
        ensures { result ≡ moved_to self (record { l = last_wall; c = last_counter }) }
    {
        HybridClock {
            last_wall,
            last_counter,
            ..self
        }
    }

    // The stamp of that wall time and counter, with the clock moved to it.
    fn issue(self, wall: u64, counter: u32) -> Issued
        ensures { result ≡ ends (done (stamp_of_event self (record { l = wall; c = counter }))) (moved_to self (record { l = wall; c = counter })) }
    {
        let stamp = Timestamp {
            wall_time: wall,
            logical_counter: counter,
            actor_id: self.actor,
        };
        Ends {
            answer: Ok(stamp),
            left: self.moved(wall, counter),
        }
    }

    // Issues a stamp at the physical time. paper: "Send or local event". The Rust arranges it differently and answers the same
    // (specs/SendRule.antt).
    pub fn now(self, physical: u64) -> Issued
        ensures { result ≡ now_call self physical }
    {
        let own_wall = self.last_wall; // paper: "l'.j := l.j;"
        let wall = greater(own_wall, physical); // paper: "l.j := max(l'.j, pt.j)"
        let counter = self.send_counter(wall);
        if counter > u32::MAX as u64 {
            return Ends {
                answer: Err(Refusal::CounterOverflow),
                left: self,
            };
        }
        self.issue(wall, counter as u32)
    }

    // The counter after a send or local event whose new wall time is `wall`. It may be one more than 32 bits hold.
    fn send_counter(self, wall: u64) -> u64
        ensures { result ≡ send_c (hlc_of self) wall }
    {
        let own_wall = self.last_wall;
        let own_counter = self.last_counter as u64;
        if wall == own_wall {
            return own_counter + 1; // paper: "If (l.j = l'.j) then c.j := c.j + 1"
        }
        0 // paper: "Else c.j := 0"
    }

    // Folds a remote stamp in at the physical time. paper: "Receive event of message m". The drift is the Rust's.
    pub fn update(self, remote: Timestamp, physical: u64) -> Updated
        ensures { result ≡ update_call self remote physical }
    {
        let remote_wall = remote.wall_time;
        let drift = self.max_drift_ms;
        if remote_wall > saturating_add(physical, drift) {
            return Ends {
                answer: Err(Refusal::RemoteAhead {
                    remote_wall,
                    local_wall: physical,
                }),
                left: self,
            };
        }
        let own_wall = self.last_wall; // paper: "l'.j := l.j;"
        let wall = greater(greater(own_wall, remote_wall), physical); // paper: "l.j := max(l'.j, l.m, pt.j)"
        let counter = self.next_counter(remote, wall);
        if counter > u32::MAX as u64 {
            return Ends {
                answer: Err(Refusal::CounterOverflow),
                left: self,
            };
        }
        Ends {
            answer: Ok(()),
            left: self.moved(wall, counter as u32),
        }
    }

    // The counter after a remote stamp is taken in and the new wall time is `wall`. It may be one more than 32 bits hold.
    fn next_counter(self, remote: Timestamp, wall: u64) -> u64
        ensures { result ≡ receive_c (hlc_of self) (stamp_hlc remote) wall }
    {
        let own_wall = self.last_wall;
        let own_counter = self.last_counter as u64;
        let remote_wall = remote.wall_time;
        let remote_counter = remote.logical_counter as u64;
        if wall == own_wall && wall == remote_wall {
            return greater(own_counter, remote_counter) + 1; // paper: "If (l.j = l'.j = l.m) then c.j := max(c.j, c.m) + 1"
        }
        if wall == own_wall {
            return own_counter + 1; // paper: "Elseif (l.j = l'.j) then c.j := c.j + 1"
        }
        if wall == remote_wall {
            return remote_counter + 1; // paper: "Elseif (l.j = l.m) then c.j := c.m + 1"
        }
        0 // paper: "Else c.j := 0"
    }
}
