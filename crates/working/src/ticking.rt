// The clock that rows are drained by: two columns, of which n are used, so that it has room for every author there
// may be. They are lent side by side and not as one struct: admission has 32 places and draining 160, and a struct of
// 160 for both would clear 2 KB more for each batch.
ghost use Rattle.std.specs.Prelude.{◌≡◌, true, ◌+◌, ◌≤◌, length};
ghost use Rattle.clock.specs.Area.{clock_at};
ghost use Rattle.clock.specs.Entries.{get};
ghost use Rattle.clock.specs.Inside.Columns.{put_in};
ghost use Rattle.clock.specs.Vector.{sound, entries};
ghost use Rattle.working.specs.Inside.DrainClock.{ticks, Clocked, Ticked};

use words::raw::get_word;

// Puts v in at i, of the n that are used.
fn put_in(s: &mut [u64], n: usize, i: usize, v: u64)
    requires { (i ≤ n) × (n + 1 ≤ length s.old) }
    ensures { s.new ≡ put_in s.old n i v }
{
    s.copy_within(i..n, i + 1);
    s[i] = v;
}

// The number of an author, 0 where it is absent.
pub(crate) fn clock_get(authors: &[u64], numbers: &[u64], n: usize, a: u64) -> u64
    requires { Clocked authors.now numbers.now n }
    ensures { result ≡ get (ticks authors.now numbers.now n) a }
{
    match authors[..n].binary_search(&a) {
        Ok(i) => numbers[i],
        Err(_) => 0,
    }
}

// An author's number set to v; how many are used then.
pub(crate) fn clock_put(authors: &mut [u64], numbers: &mut [u64], n: usize, a: u64, v: u64) -> usize
    requires { Clocked authors.old numbers.old n × (n + 1 ≤ length authors.old) × (n + 1 ≤ length numbers.old) }
    ensures { Ticked authors.old numbers.old n a v authors.new numbers.new result }
{
    match authors[..n].binary_search(&a) {
        Ok(i) => {
            numbers[i] = v;
            n
        }
        Err(i) => {
            put_in(authors, n, i, a);
            put_in(numbers, n, i, v);
            n + 1
        }
    }
}

// The clock of a store's head area; how many of its places are used.
pub(crate) fn start_clock(head: &[u8], authors: &mut [u64], numbers: &mut [u64]) -> usize
    requires { (568 ≤ length head.now) × (sound (clock_at head.now 48) ≡ true) × (32 ≤ length authors.old) × (32 ≤ length numbers.old) }
    ensures is { ticks authors.new numbers.new result ≡ entries (clock_at head.now 48) }
    ensures clocked { Clocked authors.new numbers.new result }
    ensures few { result ≤ 32 }
{
    let n = get_word(head, 48) as usize;
    for i in 0..n {
        let p = 16 * i;
        authors[i] = get_word(head, p + 56);
        numbers[i] = get_word(head, p + 64);
    }
    n
}
