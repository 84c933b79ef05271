// The authors of working rows, and the lowest that holds too many.
ghost use Rattle.std.specs.Prelude.{◌≡◌, true, ◌*◌, ◌≤◌, length, take};
ghost use Rattle.merging.specs.Merging.{times, lowest_over};
ghost use Rattle.working.specs.Inside.References.{ref_ok, refs_ok};
ghost use Rattle.working.specs.Inside.Looks.{ref_row};
ghost use Rattle.quota.specs.Inside.Authors.{authors_of, over_of};
ghost use Rattle.words.specs.Be.{column};

use row::raw::read_actor;
use row::reader::read_head;
use words::raw::get_word;

// The author of a reference's row.
pub(crate) fn author_of(held: &[u8], batch: &[u8], k: u64) -> u64
    requires { ref_ok held.now batch.now k ≡ true }
    ensures { result ≡ (ref_row held.now batch.now k).author }
{
    let i = k as usize;
    if i < 64 {
        return read_actor(held, 704 * i).0;
    }
    let (head, _) = read_head(batch, i - 64).unwrap();
    head.actor.0
}

// The authors of the n working rows.
fn load_authors(held: &[u8], batch: &[u8], scratch: &[u8], n: usize, authors: &mut [u64])
    requires { (refs_ok held.now batch.now (column scratch.now 0 n) ≡ true) × (16 * n ≤ length scratch.now) × (n ≤ length authors.old) }
    ensures { take n authors.new ≡ authors_of held.now batch.now (column scratch.now 0 n) }
{
    for i in 0..n {
        let k = get_word(scratch, 16 * i);
        authors[i] = author_of(held, batch, k);
    }
}

// How many of the first n authors are a. A loop, which compiles to wide compares, as `filter` and `count` do not.
fn count_of(authors: &[u64], n: usize, a: u64) -> usize
    requires { n ≤ length authors.now }
    ensures { result ≡ times a (take n authors.now) }
{
    let mut count: usize = 0;
    for b in &authors[..n] {
        if *b == a {
            count += 1;
        }
    }
    count
}

// The lowest of the first n authors that stands more than `limit` times among them.
fn lowest_over(authors: &[u64], n: usize, limit: u64) -> Option<u64>
    requires { n ≤ length authors.now }
    ensures { over_of result ≡ lowest_over limit (take n authors.now) (take n authors.now) }
{
    authors[..n]
        .iter()
        .copied()
        .filter(|a| count_of(authors, n, *a) as u64 > limit)
        .min()
}

// The lowest author with more than `limit` of the n working rows. Where the limit is n or more, there is none.
pub(crate) fn author_over(
    held: &[u8],
    batch: &[u8],
    scratch: &[u8],
    n: usize,
    limit: u64,
) -> Option<u64>
    requires { (refs_ok held.now batch.now (column scratch.now 0 n) ≡ true) × (16 * n ≤ length scratch.now) × (n ≤ 128) }
    ensures { over_of result ≡ lowest_over limit (authors_of held.now batch.now (column scratch.now 0 n)) (authors_of held.now batch.now (column scratch.now 0 n)) }
{
    if n as u64 <= limit {
        return None;
    }
    let mut authors = [0u64; 128];
    load_authors(held, batch, scratch, n, &mut authors);
    lowest_over(&authors, n, limit)
}
