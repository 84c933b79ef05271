// Whether two rows agree by value.
ghost use Rattle.std.specs.Prelude.{◌≡◌, true, ◌+◌, ◌≤◌, length, take, drop};
ghost use Rattle.row.specs.Values.{deps_of, row_of, OpFits};
ghost use Rattle.replicated_log.specs.Store.{same_entries};
ghost use Rattle.merging.specs.Merging.{same_content};
ghost use Rattle.working.specs.Inside.References.{ref_ok};
ghost use Rattle.working.specs.Inside.Looks.{ref_row};
ghost use Rattle.words.specs.Lists.{same};

use row::raw::read_slot;
use row::reader::read_row;
use row::{Deps, StampedOperation};

// Whether n bytes of p from a on and m bytes of q from b on are the same.
#[tactic(auto, using(crate::proofs::ContentEquality::same_is))]
fn same_part(p: &[u8], a: usize, n: usize, q: &[u8], b: usize, m: usize) -> bool
    requires { (a + n ≤ length p.now) × (b + m ≤ length q.now) }
    ensures { result ≡ same (take n (drop a p.now)) (take m (drop b q.now)) }
{
    p[a..a + n] == q[b..b + m]
}

fn same_deps(p: Deps, q: Deps) -> bool
    requires { (p.count ≤ 16) × (q.count ≤ 16) }
    ensures { result ≡ same_entries (deps_of p) (deps_of q) }
{
    let n = p.count;
    n == q.count && p.authors[..n] == q.authors[..n] && p.numbers[..n] == q.numbers[..n]
}

// Whether stamp, dependencies, payload and signature agree.
#[tactic(auto, unfolding(merging::specs::Merging::same_content, merging::specs::Merging::same_stamp, row::specs::Values::row_of))]
fn same_content(a: StampedOperation, p: &[u8], b: StampedOperation, q: &[u8]) -> bool
    requires { OpFits p.now a × OpFits q.now b }
    ensures { result ≡ same_content (row_of p.now a) (row_of q.now b) }
{
    a.timestamp == b.timestamp
        && same_deps(a.deps, b.deps)
        && same_part(
            p,
            a.payload.start,
            a.payload.len,
            q,
            b.payload.start,
            b.payload.len,
        )
        && same_part(
            p,
            a.signature.start,
            a.signature.len,
            q,
            b.signature.start,
            b.signature.len,
        )
}

// Whether the row of a reference agrees with one that was read from the batch.
pub(crate) fn same_ref(held: &[u8], batch: &[u8], k: u64, op: StampedOperation) -> bool
    requires { (ref_ok held.now batch.now k ≡ true) × OpFits batch.now op }
    ensures { result ≡ same_content (ref_row held.now batch.now k) (row_of batch.now op) }
{
    let i = k as usize;
    if i < 64 {
        let row = read_slot(held, 704 * i);
        return same_content(row.op, held, op, batch);
    }
    let (row, _) = read_row(batch, i - 64).unwrap();
    same_content(row.op, batch, op, batch)
}
