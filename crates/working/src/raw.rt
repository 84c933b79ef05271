// No call of document 01: these require a sound store and a readable batch, and serve the merger, which has tested that.
ghost use Rattle.std.specs.Prelude.{◌≡◌, true, List, ℕ, ◌+◌, ◌*◌, ◌≤◌, ◌<◌, length};
ghost use Rattle.clock.specs.Area.{clock_at};
ghost use Rattle.clock.specs.Vector.{sound, entries};
ghost use Rattle.error.specs.Answer.{got};
ghost use Rattle.row.specs.Reading.{BatchRow};
ghost use Rattle.row.specs.Slots.{slot_at, slot_ok, slots_at};
ghost use Rattle.merging.specs.Batch.{read_rows};
ghost use Rattle.working.specs.Inside.Scratch.{Working, Unexpired, Begun, AdmitsAll, Drains};
ghost use Rattle.working.specs.Inside.DrainClock.{ticks, Clocked};
ghost use Rattle.working.specs.Inside.Keys.{Keyed};
ghost use Rattle.merging.specs.Inside.RowStarts.{StartsAt};

use crate::entering::{Admit, admit_one};
use crate::keys::load_keys;
use crate::looks::{first_ready, load_key, next_of};
use crate::scratch::{push_logged, put_ref, take_entry};
use crate::ticking::{clock_put, start_clock};
use crate::{Admitting, Draining};
use error::Refusal;
use words::raw::get_word;

// Step 1: the working references of the `count` held rows that arrived at cutoff or later; how many they are.
pub fn unexpired(held: &[u8], scratch: &mut [u8], count: usize, cutoff: u64) -> usize
    requires { (count ≤ 64) × ((k : ℕ) → k < count → slot_ok (slot_at held.now (704 * k)) ≡ true) × (16 * count ≤ length scratch.old) }
    ensures { (batch : List ℕ) (time : ℕ) → Unexpired held.now batch time cutoff (slots_at held.now 0 count) scratch.new result }
{
    let mut n: usize = 0;
    for i in 0..count {
        let arrived = get_word(held, 704 * i + 64);
        if arrived < cutoff {
            continue;
        }
        put_ref(scratch, 16 * n, i as u64);
        n += 1;
    }
    n
}

// Admission by a clock that is lent as two columns, of which count are used; the keys are those of the working rows.
fn admit_by(
    held: &[u8],
    batch: &[u8],
    scratch: &mut [u8],
    keys: &mut [u64],
    n: usize,
    starts: &[u64],
    rows: usize,
    authors: &[u64],
    numbers: &[u64],
    count: usize,
) -> Result<Admitting, Refusal>
    requires { Working held.now batch.now scratch.old n × Begun batch.now starts.now rows × (n ≤ 64) × (rows ≤ 64) × (16 * (n + rows) ≤ length scratch.old) × Clocked authors.now numbers.now count × Keyed held.now batch.now scratch.old keys.old n × (5 * (n + rows) ≤ length keys.old) }
    ensures { (time first : ℕ) (bs : List BatchRow) (end : ℕ) → StartsAt batch.now starts.now first rows → read_rows batch.now first rows ≡ got bs end → AdmitsAll (ticks authors.now numbers.now count) held.now batch.now time scratch.old scratch.new n bs result }
{
    let mut left = n;
    let mut duplicates: usize = 0;
    for i in 0..rows {
        let at = starts[i] as usize;
        let answer = admit_one(
            held, batch, scratch, keys, left, at, authors, numbers, count,
        )?;
        match answer {
            Admit::Duplicate => duplicates += 1,
            Admit::Entered => left += 1,
        }
    }
    Ok(Admitting {
        working: left,
        duplicates,
    })
}

// Step 2: so many rows of the batch, each at its place in `starts`, a duplicate, a conflict or one more working row.
pub fn admit_all(
    held: &[u8],
    batch: &[u8],
    head: &[u8],
    scratch: &mut [u8],
    n: usize,
    starts: &[u64],
    rows: usize,
) -> Result<Admitting, Refusal>
    requires { Working held.now batch.now scratch.old n × Begun batch.now starts.now rows × (n ≤ 64) × (rows ≤ 64) × (16 * (n + rows) ≤ length scratch.old) × (568 ≤ length head.now) × (sound (clock_at head.now 48) ≡ true) }
    ensures { (time first : ℕ) (bs : List BatchRow) (end : ℕ) → StartsAt batch.now starts.now first rows → read_rows batch.now first rows ≡ got bs end → AdmitsAll (entries (clock_at head.now 48)) held.now batch.now time scratch.old scratch.new n bs result }
{
    let mut authors = [0u64; 32];
    let mut numbers = [0u64; 32];
    let count = start_clock(head, &mut authors, &mut numbers);
    let mut keys = [0u64; 640];
    load_keys(held, batch, scratch, n, &mut keys);
    admit_by(
        held, batch, scratch, &mut keys, n, starts, rows, &authors, &numbers, count,
    )
}

// Draining by a clock that is lent as two columns, of which count are used.
fn drain_by(
    held: &[u8],
    batch: &[u8],
    scratch: &mut [u8],
    n: usize,
    authors: &mut [u64],
    numbers: &mut [u64],
    count: usize,
) -> Draining
    requires { Working held.now batch.now scratch.old n × (n ≤ 128) × Clocked authors.old numbers.old count × (count + n ≤ length authors.old) × (count + n ≤ length numbers.old) }
    ensures { (time : ℕ) → Drains (ticks authors.old numbers.old count) held.now batch.now time scratch.old scratch.new n result }
{
    let mut used = count;
    let mut left = n;
    let mut logged: usize = 0;
    let mut dropped: usize = 0;
    while let Some(j) = first_ready(held, batch, scratch, left, authors, numbers, used) {
        let k = get_word(scratch, 16 * j);
        let key = load_key(held, batch, k);
        take_entry(scratch, left, j);
        left -= 1;
        let actor = key.actor;
        let seq = key.seq;
        if next_of(actor, seq, authors, numbers, used) {
            push_logged(scratch, logged, k);
            logged += 1;
            used = clock_put(authors, numbers, used, actor.0, seq);
        } else {
            dropped += 1;
        }
    }
    Draining {
        waiting: left,
        logged,
        dropped,
        authors: used,
    }
}

// Step 3: of the ready rows the first goes, until none is ready. It is logged where it is its author's next, else dropped.
pub fn drain(held: &[u8], batch: &[u8], head: &[u8], scratch: &mut [u8], n: usize) -> Draining
    requires { Working held.now batch.now scratch.old n × (n ≤ 128) × (568 ≤ length head.now) × (sound (clock_at head.now 48) ≡ true) }
    ensures { (time : ℕ) → Drains (entries (clock_at head.now 48)) held.now batch.now time scratch.old scratch.new n result }
{
    let mut authors = [0u64; 160];
    let mut numbers = [0u64; 160];
    let count = start_clock(head, &mut authors, &mut numbers);
    drain_by(held, batch, scratch, n, &mut authors, &mut numbers, count)
}
