// One row of the batch into the working rows: a duplicate, a conflict, or put in where it goes.
ghost use Rattle.std.specs.Prelude.{◌≡◌, true, List, ℕ, ◌+◌, ◌*◌, ◌≤◌, length};
ghost use Rattle.row.specs.Reading.{read_row};
ghost use Rattle.working.specs.Inside.References.{is_read};
ghost use Rattle.working.specs.Inside.Scratch.{Working};
ghost use Rattle.working.specs.Inside.DrainClock.{ticks, Clocked};
ghost use Rattle.working.specs.Inside.Looks.{ref_row, KeyOf, id_ref, before_ref, first_where, place_in};
ghost use Rattle.working.specs.Inside.Keys.{key_at, Keyed};
ghost use Rattle.working.specs.Inside.Entry.{Entrant, Puts, Admits};
ghost use Rattle.words.specs.Be.{column};

use crate::contents::same_ref;
use crate::keys::{key_at, put_key};
use crate::looks::{Key, batch_key};
use crate::scratch::put_entry;
use crate::ticking::clock_get;
use error::Refusal;
use row::reader::read_row;
use stubs::ActorId;
use words::raw::get_word;

// What became of a row that does not conflict.
#[derive(Clone, Copy)]
pub(crate) enum Admit {
    Duplicate,
    Entered,
}

// Whether the key at `at` has this author and sequence.
#[tactic(auto, unfolding(crate::specs::Inside::Looks::id_ref, crate::specs::Inside::Keys::key_at))]
fn same_id(keys: &[u64], at: usize, actor: ActorId, seq: u64) -> bool
    requires { at + 5 ≤ length keys.now }
    ensures { (held batch : List ℕ) (k : ℕ) → KeyOf (ref_row held batch k) (key_at keys.now at) → result ≡ id_ref actor.0 seq held batch k }
{
    actor.0 == keys[at + 3] && seq == keys[at + 4]
}

// The first of the n working rows with this author and sequence.
fn seek(keys: &[u64], n: usize, actor: ActorId, seq: u64) -> Option<usize>
    requires { 5 * n ≤ length keys.now }
    ensures { (held batch s : List ℕ) → Keyed held batch s keys.now n → result ≡ first_where (id_ref actor.0 seq held batch) (column s 0 n) }
{
    for i in 0..n {
        if same_id(keys, 5 * i, actor, seq) {
            return Some(i);
        }
    }
    None
}

// Whether a row goes before the row with the key at `at`.
fn goes_before(keys: &[u64], at: usize, key: Key) -> bool
    requires { at + 5 ≤ length keys.now }
    ensures { (held batch : List ℕ) (k : ℕ) → KeyOf (ref_row held batch k) (key_at keys.now at) → result ≡ before_ref key held batch k }
{
    key < key_at(keys, at)
}

// How many of the n working rows stand before a row.
fn place(keys: &[u64], n: usize, key: Key) -> usize
    requires { 5 * n ≤ length keys.now }
    ensures is { (held batch s : List ℕ) → Keyed held batch s keys.now n → result ≡ place_in n (first_where (before_ref key held batch) (column s 0 n)) }
    ensures within { result ≤ n }
{
    for i in 0..n {
        if goes_before(keys, 5 * i, key) {
            return i;
        }
    }
    n
}

// Puts a reference and its key in where its row goes.
fn enter(scratch: &mut [u8], keys: &mut [u64], n: usize, k: u64, key: Key)
    requires { (16 * n + 16 ≤ length scratch.old) × (5 * n + 5 ≤ length keys.old) }
    ensures { (held batch : List ℕ) → Entrant held batch scratch.old keys.old n k key → Puts held batch scratch.old scratch.new keys.new n k }
{
    let i = place(keys, n, key);
    put_entry(scratch, n, i, k);
    put_key(keys, n, i, key);
}

// The row at `at` of the batch. What it is known by decides, but for one that is there already, which is read whole.
pub(crate) fn admit_one(
    held: &[u8],
    batch: &[u8],
    scratch: &mut [u8],
    keys: &mut [u64],
    n: usize,
    at: usize,
    authors: &[u64],
    numbers: &[u64],
    count: usize,
) -> Result<Admit, Refusal>
    requires { Working held.now batch.now scratch.old n × (is_read (read_row batch.now at) ≡ true) × Clocked authors.now numbers.now count × (16 * n + 16 ≤ length scratch.old) × Keyed held.now batch.now scratch.old keys.old n × (5 * n + 5 ≤ length keys.old) }
    ensures { Admits (ticks authors.now numbers.now count) held.now batch.now scratch.old scratch.new keys.new n at result }
{
    let key = batch_key(batch, at);
    let actor = key.actor;
    let seq = key.seq;
    let have = clock_get(authors, numbers, count, actor.0);
    if seq <= have {
        return Ok(Admit::Duplicate);
    }
    let Some(j) = seek(keys, n, actor, seq) else {
        enter(scratch, keys, n, (64 + at) as u64, key);
        return Ok(Admit::Entered);
    };
    let k = get_word(scratch, 16 * j);
    let (row, _) = read_row(batch, at).unwrap();
    if same_ref(held, batch, k, row.op) {
        return Ok(Admit::Duplicate);
    }
    Err(Refusal::Conflict { actor, seq })
}
