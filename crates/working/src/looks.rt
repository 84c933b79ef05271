// Looks at the row of a reference: what it is known and ordered by, and whether it is ready.
ghost use Rattle.std.specs.Prelude.{◌≡◌, true, suc, ◌≤◌, leb, eqb};
ghost use Rattle.row.specs.Reading.{read_row};
ghost use Rattle.row.specs.Slots.{slot_at, slot_ok, decode_held};
ghost use Rattle.row.specs.Values.{deps_of};
ghost use Rattle.clock.specs.Entries.{get, dominates};
ghost use Rattle.merging.specs.Merging.{ready};
ghost use Rattle.working.specs.Inside.References.{is_read, ref_ok};
ghost use Rattle.working.specs.Inside.Scratch.{Working};
ghost use Rattle.working.specs.Inside.DrainClock.{ticks, Clocked};
ghost use Rattle.working.specs.Inside.Looks.{ref_row, batch_row_at, KeyOf, ready_ref, first_where};
ghost use Rattle.words.specs.Be.{column};

use crate::ticking::clock_get;
use clock::stamp::Timestamp;
use row::Deps;
use row::raw::{read_actor, read_seq, read_stamp};
use row::reader::{read_deps, read_head};
use stubs::ActorId;
use words::raw::get_word;

// What rows are known and ordered by. The order of its fields is the order of rows.
#[derive(Clone, Copy, Debug, PartialEq, Eq, PartialOrd, Ord)]
pub(crate) struct Key {
    pub stamp: Timestamp,
    pub actor: ActorId,
    pub seq: u64,
}

fn slot_key(held: &[u8], base: usize) -> Key
    requires { slot_ok (slot_at held.now base) ≡ true }
    ensures { KeyOf (decode_held (slot_at held.now base)).row result }
{
    let stamp = read_stamp(held, base);
    let actor = read_actor(held, base);
    let seq = read_seq(held, base);
    Key { stamp, actor, seq }
}

// What the row at `at` of the batch is known and ordered by.
pub(crate) fn batch_key(batch: &[u8], at: usize) -> Key
    requires { is_read (read_row batch.now at) ≡ true }
    ensures { KeyOf (batch_row_at batch.now at) result }
{
    let (head, _) = read_head(batch, at).unwrap();
    Key {
        stamp: head.timestamp,
        actor: head.actor,
        seq: head.seq,
    }
}

// What the row of a reference is known and ordered by.
pub(crate) fn load_key(held: &[u8], batch: &[u8], k: u64) -> Key
    requires { ref_ok held.now batch.now k ≡ true }
    ensures { KeyOf (ref_row held.now batch.now k) result }
{
    let i = k as usize;
    if i < 64 {
        return slot_key(held, 704 * i);
    }
    batch_key(batch, i - 64)
}

// Whether seq is at most have + 1.
fn in_reach(seq: u64, have: u64) -> bool
    ensures { result ≡ leb seq (suc have) }
{
    seq == 0 || seq - 1 <= have
}

// Whether seq is have + 1.
fn is_next(seq: u64, have: u64) -> bool
    ensures { result ≡ eqb seq (suc have) }
{
    seq != 0 && seq - 1 == have
}

// Whether seq is the author's next number.
pub(crate) fn next_of(
    actor: ActorId,
    seq: u64,
    authors: &[u64],
    numbers: &[u64],
    count: usize,
) -> bool
    requires { Clocked authors.now numbers.now count }
    ensures { result ≡ eqb seq (suc (get (ticks authors.now numbers.now count) actor.0)) }
{
    let have = clock_get(authors, numbers, count, actor.0);
    is_next(seq, have)
}

// Whether the sequence of an author is in reach.
fn reached(actor: ActorId, seq: u64, authors: &[u64], numbers: &[u64], count: usize) -> bool
    requires { Clocked authors.now numbers.now count }
    ensures { result ≡ leb seq (suc (get (ticks authors.now numbers.now count) actor.0)) }
{
    let have = clock_get(authors, numbers, count, actor.0);
    in_reach(seq, have)
}

// Whether the dependencies of the row in a slot are met.
fn met_slot(held: &[u8], base: usize, authors: &[u64], numbers: &[u64], count: usize) -> bool
    requires { (slot_ok (slot_at held.now base) ≡ true) × Clocked authors.now numbers.now count }
    ensures { result ≡ dominates (ticks authors.now numbers.now count) (decode_held (slot_at held.now base)).row.deps }
{
    let n = get_word(held, base + 40) as usize;
    for i in 0..n {
        let at = base + 16 * i;
        let a = get_word(held, at + 128);
        let want = get_word(held, at + 136);
        let have = clock_get(authors, numbers, count, a);
        if want > have {
            return false;
        }
    }
    true
}

fn met_deps(d: Deps, authors: &[u64], numbers: &[u64], count: usize) -> bool
    requires { (d.count ≤ 16) × Clocked authors.now numbers.now count }
    ensures { result ≡ dominates (ticks authors.now numbers.now count) (deps_of d) }
{
    let n = d.count;
    for i in 0..n {
        let a = d.authors[i];
        let want = d.numbers[i];
        let have = clock_get(authors, numbers, count, a);
        if have < want {
            return false;
        }
    }
    true
}

fn ready_slot(held: &[u8], base: usize, authors: &[u64], numbers: &[u64], count: usize) -> bool
    requires { (slot_ok (slot_at held.now base) ≡ true) × Clocked authors.now numbers.now count }
    ensures { result ≡ ready (ticks authors.now numbers.now count) (decode_held (slot_at held.now base)).row }
{
    let actor = read_actor(held, base);
    let seq = read_seq(held, base);
    if !reached(actor, seq, authors, numbers, count) {
        return false;
    }
    met_slot(held, base, authors, numbers, count)
}

fn ready_batch(batch: &[u8], at: usize, authors: &[u64], numbers: &[u64], count: usize) -> bool
    requires { (is_read (read_row batch.now at) ≡ true) × Clocked authors.now numbers.now count }
    ensures { result ≡ ready (ticks authors.now numbers.now count) (batch_row_at batch.now at) }
{
    let (head, deps_at) = read_head(batch, at).unwrap();
    if !reached(head.actor, head.seq, authors, numbers, count) {
        return false;
    }
    let (deps, _) = read_deps(batch, deps_at).unwrap();
    met_deps(deps, authors, numbers, count)
}

// Whether the row of a reference is ready.
fn is_ready(
    held: &[u8],
    batch: &[u8],
    k: u64,
    authors: &[u64],
    numbers: &[u64],
    count: usize,
) -> bool
    requires { (ref_ok held.now batch.now k ≡ true) × Clocked authors.now numbers.now count }
    ensures { result ≡ ready_ref (ticks authors.now numbers.now count) held.now batch.now k }
{
    let i = k as usize;
    if i < 64 {
        return ready_slot(held, 704 * i, authors, numbers, count);
    }
    ready_batch(batch, i - 64, authors, numbers, count)
}

// The first of the n working rows that is ready.
pub(crate) fn first_ready(
    held: &[u8],
    batch: &[u8],
    scratch: &[u8],
    n: usize,
    authors: &[u64],
    numbers: &[u64],
    count: usize,
) -> Option<usize>
    requires { Working held.now batch.now scratch.now n × Clocked authors.now numbers.now count }
    ensures { result ≡ first_where (ready_ref (ticks authors.now numbers.now count) held.now batch.now) (column scratch.now 0 n) }
{
    for i in 0..n {
        let k = get_word(scratch, 16 * i);
        if is_ready(held, batch, k, authors, numbers, count) {
            return Some(i);
        }
    }
    None
}
