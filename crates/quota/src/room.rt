// The authors that the watermarks would have with those of the logged rows.
ghost use Rattle.std.specs.Prelude.{◌≡◌, true, ◌*◌, ◌≤◌, leb, length};
ghost use Rattle.clock.specs.Vector.{entries, sound};
ghost use Rattle.replicated_log.specs.Inside.StoreTests.{marks_in};
ghost use Rattle.replicated_log.specs.Inside.StoreChanges.{run};
ghost use Rattle.working.specs.Inside.References.{refs_ok};
ghost use Rattle.quota.specs.Inside.Authors.{marked, Marked};
ghost use Rattle.quota.specs.Inside.Room.{rows_logged};
ghost use Rattle.words.specs.Be.{column};

use crate::authors::author_of;
use clock::raw::observe;
use clock::vector::VectorClock;
use stubs::ActorId;
use words::raw::get_word;

// The authors of the head's watermarks as a clock, each with the number 1.
fn marked_authors(head: &[u8]) -> VectorClock
    requires { Marked head.now }
    ensures { (entries result ≡ marked (marks_in head.now)) × (sound result ≡ true) }
{
    let count = get_word(head, 1088) as usize;
    let mut authors = [0u64; 32];
    let mut numbers = [0u64; 32];
    for i in 0..count {
        authors[i] = get_word(head, 1096 + 32 * i);
        numbers[i] = 1;
    }
    VectorClock {
        authors,
        numbers,
        count,
    }
}

// Whether a clock has room for the authors of the m logged rows.
pub(crate) fn authors_fit(
    held: &[u8],
    batch: &[u8],
    scratch: &[u8],
    m: usize,
    start: VectorClock,
) -> bool
    requires { (refs_ok held.now batch.now (column scratch.now 8 m) ≡ true) × (16 * m ≤ length scratch.now) × (sound start ≡ true) }
    ensures { result ≡ leb (length (run true (entries start) (rows_logged held.now batch.now scratch.now m))) 32 }
{
    let mut clock = start;
    for i in 0..m {
        let k = get_word(scratch, 16 * i + 8);
        let author = author_of(held, batch, k);
        if observe(&mut clock, ActorId(author), 1).is_err() {
            return false;
        }
    }
    true
}

// Whether the watermarks have room for the authors of the m logged rows.
pub(crate) fn marks_fit(held: &[u8], batch: &[u8], head: &[u8], scratch: &[u8], m: usize) -> bool
    requires { (refs_ok held.now batch.now (column scratch.now 8 m) ≡ true) × (16 * m ≤ length scratch.now) × Marked head.now }
    ensures { result ≡ leb (length (run true (marked (marks_in head.now)) (rows_logged held.now batch.now scratch.now m))) 32 }
{
    let start = marked_authors(head);
    authors_fit(held, batch, scratch, m, start)
}
