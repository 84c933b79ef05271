// No call of document 01: these require that a vector clock keeps its rules, or that an area has room, and
// serve the crates above, which have tested that.
ghost use Rattle.std.specs.Prelude.{◌≡◌, true, ◌+◌, ◌≤◌, length, take};
ghost use Rattle.words.specs.Areas.{put_at};
ghost use Rattle.clock.specs.Area.{clock_at, clock_bytes};
ghost use Rattle.clock.specs.Entries.{get, put, observe, enter, merge, dominates};
ghost use Rattle.clock.specs.Inside.Columns.{search, put_in, moved_on};
ghost use Rattle.clock.specs.Vector.{sound, entries, grown, clock_of};
ghost use Rattle.error.specs.Answer.{nothing, ends};

use crate::vector::VectorClock;
use error::Refusal;
use stubs::ActorId;
use words::raw::{get_word, put_word};

// Where an author stands among rising authors, or where it is to be put.
fn find(authors: &[u64], author: u64) -> Result<usize, usize>
    ensures { result ≡ search authors.now author }
{
    for i in 0..authors.len() {
        let other = authors[i];
        if other == author {
            return Ok(i);
        }
        if author < other {
            return Err(i);
        }
    }
    Err(authors.len())
}

// Puts v in at i, of the n that are used.
fn put_in(s: &mut [u64], n: usize, i: usize, v: u64)
    requires { (i ≤ n) × (n + 1 ≤ length s.old) }
    ensures { s.new ≡ put_in s.old n i v }
{
    for j in (i..n).rev() {
        s[j + 1] = s[j];
    }
    s[i] = v;
}

// The highest number seen of an author, 0 where it is absent.
pub fn get(c: &VectorClock, actor: ActorId) -> u64
    requires { sound c.now ≡ true }
    ensures { result ≡ get (entries c.now) actor.0 }
{
    match find(&c.authors[..c.count], actor.0) {
        Ok(i) => c.numbers[i],
        Err(_) => 0,
    }
}

// Puts an author with its number in at its place; refused where that is an author too many.
fn insert(c: &mut VectorClock, i: usize, actor: ActorId, n: u64) -> Result<(), Refusal>
    requires { (sound c.old ≡ true) × (Err i ≡ search (take c.old.count c.old.authors) actor.0) }
    ensures { ends result c.new ≡ grown c.old (put (entries c.old) actor.0 n) nothing }
{
    let count = c.count;
    if count == 32 {
        return Err(Refusal::AuthorsFull);
    }
    put_in(&mut c.authors, count, i, actor.0);
    put_in(&mut c.numbers, count, i, n);
    c.count = count + 1;
    Ok(())
}

// Sets an author's number to n; refused where that is an author too many.
pub(crate) fn set(c: &mut VectorClock, actor: ActorId, n: u64) -> Result<(), Refusal>
    requires { sound c.old ≡ true }
    ensures { ends result c.new ≡ grown c.old (put (entries c.old) actor.0 n) nothing }
{
    match find(&c.authors[..c.count], actor.0) {
        Ok(i) => {
            c.numbers[i] = n;
            Ok(())
        }
        Err(i) => insert(c, i, actor, n),
    }
}

// Raises an author's number to at least seq, and enters it with 0 too; refused where that is an author too many.
pub fn enter(c: &mut VectorClock, actor: ActorId, seq: u64) -> Result<(), Refusal>
    requires { sound c.old ≡ true }
    ensures { ends result c.new ≡ grown c.old (enter (entries c.old) actor.0 seq) nothing }
{
    match find(&c.authors[..c.count], actor.0) {
        Ok(i) => {
            if c.numbers[i] < seq {
                c.numbers[i] = seq;
            }
            Ok(())
        }
        Err(i) => insert(c, i, actor, seq),
    }
}

// The same in the Rust's manner: no author is entered with 0.
pub fn observe(c: &mut VectorClock, actor: ActorId, seq: u64) -> Result<(), Refusal>
    requires { sound c.old ≡ true }
    ensures { ends result c.new ≡ grown c.old (observe (entries c.old) actor.0 seq) nothing }
{
    if seq == 0 {
        return Ok(());
    }
    enter(c, actor, seq)
}

// The same where the clock has room, so that nothing is refused.
pub fn raise(c: &mut VectorClock, actor: ActorId, seq: u64)
    requires { (sound c.old ≡ true) × (length (observe (entries c.old) actor.0 seq) ≤ 32) }
    ensures { c.new ≡ clock_of (observe (entries c.old) actor.0 seq) }
{
    observe(c, actor, seq).unwrap();
}

// The clock c with each entry of d observed; refused where the authors are too many.
pub(crate) fn merged(c: &VectorClock, d: &VectorClock) -> Result<VectorClock, Refusal>
    requires { (sound c.now ≡ true) × (sound d.now ≡ true) }
    ensures { moved_on c.now result ≡ grown c.now (merge (entries c.now) (entries d.now)) nothing }
{
    let mut so_far = *c;
    for i in 0..d.count {
        observe(&mut so_far, ActorId(d.authors[i]), d.numbers[i])?;
    }
    Ok(so_far)
}

// Whether c covers every entry of d.
pub(crate) fn covers(c: &VectorClock, d: &VectorClock) -> bool
    requires { (sound c.now ≡ true) × (sound d.now ≡ true) }
    ensures { result ≡ dominates (entries c.now) (entries d.now) }
{
    for i in 0..d.count {
        let have = get(c, ActorId(d.authors[i]));
        let want = d.numbers[i];
        if have < want {
            return false;
        }
    }
    true
}

// The clock that stands at `at`, whether or not it keeps the rules.
pub fn load_clock(s: &[u8], at: usize) -> VectorClock
    requires { at + 520 ≤ length s.now }
    ensures { result ≡ clock_at s.now at }
{
    let mut authors = [0; 32];
    let mut numbers = [0; 32];
    for i in 0..32 {
        let p = at + 16 * i;
        authors[i] = get_word(s, p + 8);
        numbers[i] = get_word(s, p + 16);
    }
    VectorClock {
        authors,
        numbers,
        count: get_word(s, at) as usize,
    }
}

// Writes a clock at `at`.
pub fn store_clock(s: &mut [u8], at: usize, c: &VectorClock)
    requires { at + 520 ≤ length s.old }
    ensures { s.new ≡ put_at s.old at (clock_bytes c.now) }
{
    put_word(s, at, c.count as u64);
    for i in 0..32 {
        let p = at + 16 * i;
        put_word(s, p + 8, c.authors[i]);
        put_word(s, p + 16, c.numbers[i]);
    }
}
