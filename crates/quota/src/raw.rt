// No call of document 01: these require a sound store and references to rows, and serve the merger, which has them.
ghost use Rattle.std.specs.Prelude.{◌≡◌, true, ℕ, ◌*◌, ◌≤◌, ltb, length};
ghost use Rattle.batch.specs.Settings.{limits_of};
ghost use Rattle.merging.specs.Merging.{payload_bytes, quotas};
ghost use Rattle.replicated_log.specs.Inside.StoreChanges.{Sound};
ghost use Rattle.working.specs.Inside.References.{ref_ok, refs_ok, work_rows};
ghost use Rattle.working.specs.Inside.Looks.{ref_row};
ghost use Rattle.working.specs.Inside.Scratch.{Working};
ghost use Rattle.quota.specs.Inside.Room.{rows_logged, Rooms};
ghost use Rattle.words.specs.Be.{column};

use crate::authors::author_over;
use crate::room::marks_fit;
use batch::MergeLimits;
use error::Refusal;
use replicated_log::check::capacity;
use row::reader::read_row;
use stubs::ActorId;
use words::raw::get_word;

// The payload length of a reference's row.
fn payload_len(held: &[u8], batch: &[u8], k: u64) -> usize
    requires { ref_ok held.now batch.now k ≡ true }
    ensures is { result ≡ length (ref_row held.now batch.now k).payload }
    ensures few { result ≤ 256 }
{
    let i = k as usize;
    if i < 64 {
        return get_word(held, 704 * i + 48) as usize;
    }
    let (row, _) = read_row(batch, i - 64).unwrap();
    row.op.payload.len
}

// The payload bytes of the n working rows.
fn payload_bytes(held: &[u8], batch: &[u8], scratch: &[u8], n: usize) -> usize
    requires { Working held.now batch.now scratch.now n × (n ≤ 128) }
    ensures { (time : ℕ) → result ≡ payload_bytes (work_rows held.now batch.now time (column scratch.now 0 n)) }
{
    let mut bytes: usize = 0;
    for i in 0..n {
        let k = get_word(scratch, 16 * i);
        bytes += payload_len(held, batch, k);
    }
    bytes
}

// Whether the payload bytes of the n working rows are above the limit. Where as many of the largest are not, none is read.
fn bytes_over(held: &[u8], batch: &[u8], scratch: &[u8], n: usize, limit: u64) -> bool
    requires { Working held.now batch.now scratch.now n × (n ≤ 128) }
    ensures { (time : ℕ) → result ≡ ltb limit (payload_bytes (work_rows held.now batch.now time (column scratch.now 0 n))) }
{
    if (256 * n) as u64 <= limit {
        return false;
    }
    let bytes = payload_bytes(held, batch, scratch, n);
    bytes as u64 > limit
}

// Step 5: 14, 15 and 16 of the n rows that wait.
pub fn quotas(
    held: &[u8],
    batch: &[u8],
    scratch: &[u8],
    n: usize,
    limits: MergeLimits,
) -> Result<(), Refusal>
    requires { Working held.now batch.now scratch.now n × (n ≤ 128) }
    ensures { (time : ℕ) → result ≡ quotas (limits_of limits) (work_rows held.now batch.now time (column scratch.now 0 n)) }
{
    if n as u64 > limits.max_pending {
        return Err(Refusal::HeldOverflow {
            limit: limits.max_pending,
        });
    }
    if bytes_over(held, batch, scratch, n, limits.max_pending_bytes) {
        return Err(Refusal::HeldBytes {
            limit: limits.max_pending_bytes,
        });
    }
    match author_over(held, batch, scratch, n, limits.max_pending_per_actor) {
        None => Ok(()),
        Some(a) => Err(Refusal::AuthorOverflow {
            limit: limits.max_pending_per_actor,
            actor: ActorId(a),
        }),
    }
}

// 17 and 18 of the m logged rows, with which the clock has so many authors.
pub fn room(
    log: &[u8],
    held: &[u8],
    batch: &[u8],
    head: &[u8],
    scratch: &[u8],
    m: usize,
    authors: usize,
) -> Result<(), Refusal>
    requires { Sound log.now head.now × (refs_ok held.now batch.now (column scratch.now 8 m) ≡ true) × (16 * m ≤ length scratch.now) × (m ≤ 128) }
    ensures { Rooms log.now head.now (rows_logged held.now batch.now scratch.now m) authors result }
{
    let count = get_word(head, 0) as usize;
    if count + m > capacity(log) {
        return Err(Refusal::LogFull);
    }
    if authors > 32 {
        return Err(Refusal::AuthorsFull);
    }
    if !marks_fit(held, batch, head, scratch, m) {
        return Err(Refusal::AuthorsFull);
    }
    Ok(())
}
