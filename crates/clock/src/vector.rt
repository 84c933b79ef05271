// Vector clocks: how many operations of each author were seen.
ghost use Rattle.std.specs.Prelude.{◌≡◌, [], List, ◌≤◌, length, take, drop};
ghost use Rattle.error.specs.declared.Refusal.TheVariants.{UnsoundStore};
ghost use Rattle.error.specs.Answer.{ends, done, nothing, unless};
ghost use Rattle.clock.specs.Inside.Columns.{ascending};
ghost use Rattle.clock.specs.Vector.{sound, clock_of, zeros, order_of, get_call, observe_call, increment_call, Merges, dominates_call, Compares};

use crate::raw;
use error::Refusal;
use stubs::ActorId;

// Authors and their numbers, of which `count` are used: authors strictly rise, unused places are zero.
#[derive(Clone, Copy, Debug, PartialEq, Eq)]
pub struct VectorClock {
    pub authors: [u64; 32],
    pub numbers: [u64; 32],
    pub count: usize,
}

// Causal relation of two clocks.
#[derive(Clone, Copy, Debug, PartialEq, Eq)]
pub enum CausalOrder {
    Before,
    After,
    Equal,
    Concurrent,
}

// Whether authors strictly rise.
fn rises(authors: &[u64]) -> bool
    ensures { result ≡ ascending 0 authors.now }
{
    for i in 1..authors.len() {
        if authors[i] <= authors[i - 1] {
            return false;
        }
    }
    true
}

// Whether all places are zero.
fn is_clear(places: &[u64]) -> bool
    ensures { result ≡ zeros places.now }
{
    for place in places {
        if *place != 0 {
            return false;
        }
    }
    true
}

// The relation of two clocks, by whether the first covers the second and whether the second covers the first.
fn order_of(over: bool, under: bool) -> CausalOrder
    ensures { result ≡ order_of over under }
{
    match (over, under) {
        (true, true) => CausalOrder::Equal,
        (true, false) => CausalOrder::After,
        (false, true) => CausalOrder::Before,
        (false, false) => CausalOrder::Concurrent,
    }
}

impl VectorClock {
    // The clock with no entry.
    pub fn new() -> VectorClock
        ensures { result ≡ clock_of [] }
    {
        VectorClock {
            authors: [0; 32],
            numbers: [0; 32],
            count: 0,
        }
    }

    // Whether the clock keeps its rules.
    pub fn is_sound(&self) -> bool
        ensures { result ≡ sound self.now }
    {
        let n = self.count;
        if n > 32 {
            return false;
        }
        rises(&self.authors[..n]) && is_clear(&self.authors[n..]) && is_clear(&self.numbers[n..])
    }

    // Refuses a clock that does not keep its rules.
    fn check(&self) -> Result<(), Refusal>
        ensures { result ≡ unless (sound self.now) UnsoundStore (done nothing) }
    {
        if self.is_sound() {
            Ok(())
        } else {
            Err(Refusal::UnsoundStore)
        }
    }

    // The highest number seen of an author, 0 where it is absent.
    pub fn get(&self, actor: ActorId) -> Result<u64, Refusal>
        ensures { result ≡ get_call self.now actor.0 }
    {
        self.check()?;
        Ok(raw::get(self, actor))
    }

    // Raises an author's number to at least seq.
    pub fn observe(&mut self, actor: ActorId, seq: u64) -> Result<(), Refusal>
        ensures { ends result self.new ≡ observe_call self.old actor.0 seq }
    {
        self.check()?;
        raw::observe(self, actor, seq)
    }

    // One more for an author, and the new number.
    pub fn increment(&mut self, actor: ActorId) -> Result<u64, Refusal>
        ensures { ends result self.new ≡ increment_call self.old actor.0 }
    {
        self.check()?;
        let have = raw::get(self, actor);
        if have >= u64::MAX {
            return Err(Refusal::CounterOverflow);
        }
        raw::set(self, actor, have + 1)?;
        Ok(have + 1)
    }

    // The least clock that covers both.
    pub fn merge(&mut self, other: &VectorClock) -> Result<(), Refusal>
        ensures { Merges self.old other.now result self.new }
    {
        self.check()?;
        other.check()?;
        *self = raw::merged(self, other)?;
        Ok(())
    }

    // Whether every entry of other is covered by self.
    pub fn dominates(&self, other: &VectorClock) -> Result<bool, Refusal>
        ensures { result ≡ dominates_call self.now other.now }
    {
        self.check()?;
        other.check()?;
        Ok(raw::covers(self, other))
    }

    // How self and other stand to each other.
    pub fn compare(&self, other: &VectorClock) -> Result<CausalOrder, Refusal>
        ensures { Compares self.now other.now result }
    {
        self.check()?;
        other.check()?;
        let over = raw::covers(self, other);
        let under = raw::covers(other, self);
        Ok(order_of(over, under))
    }
}
