// The delta in chunks: how many there are, and how many rows each holds.
ghost use Rattle.std.specs.Prelude.{◌≡◌, true, ◌+◌, ◌*◌, ◌≤◌, length};
ghost use Rattle.clock.specs.Vector.{entries};
ghost use Rattle.codec.specs.Inside.EnvelopeParts.{sized_length};
ghost use Rattle.row.specs.Slots.{slot_at, slot_ok};
ghost use Rattle.replicated_log.specs.Inside.StoreTests.{row_at};
ghost use Rattle.sync.specs.Delta.{delta_rows, row_size, at_least_one, chunks};
ghost use Rattle.sync.specs.Inside.DeltaSteps.{Ready, Puts, starts_next};
ghost use Rattle.sync.specs.Inside.SizeSteps.{RowSizes};
ghost use Rattle.replicated_log.specs.Inside.StoreChanges.{rows_in};

use crate::scan::is_missing;
use clock::vector::VectorClock;
use codec::varint_len;
use row::raw::{read_slot, unsigned_len};
use words::raw::put_word;

// No rows a chunk means 1.
pub(crate) fn at_least_one(n: u64) -> u64
    ensures { result ≡ at_least_one n }
{
    n.max(1)
}

// The length of n bytes, their length first.
pub(crate) fn sized_len(n: u64) -> u64
    requires { n ≤ 1048576 }
    ensures { (result ≡ sized_length n) × (result ≤ n + 10) }
{
    varint_len(n) as u64 + n
}

// What a row adds to a chunk: its size (signed bytes, signature, and 16 for framing), and the bytes that it has in a Delta.
#[derive(Clone, Copy)]
pub(crate) struct RowSize {
    pub size: u64,
    pub bytes: u64,
}

// Both of the row in the slot at `at`.
pub(crate) fn row_sizes(rows: &[u8], at: usize) -> RowSize
    requires { slot_ok (slot_at rows.now at) ≡ true }
    ensures { RowSizes (row_at rows.now at) result.size result.bytes }
{
    let held = read_slot(rows, at);
    let op = held.op;
    let unsigned = unsigned_len(op) as u64;
    let signature = op.signature.len as u64;
    let sized_signature = sized_len(signature);
    let size = unsigned + signature + 16;
    let bytes = unsigned + sized_signature;
    RowSize { size, bytes }
}

// The first of them.
fn row_size(rows: &[u8], at: usize) -> u64
    requires { slot_ok (slot_at rows.now at) ≡ true }
    ensures { (result ≡ row_size (row_at rows.now at)) × (result ≤ 726) }
{
    row_sizes(rows, at).size
}

// Whether a row that would make the current chunk's n rows `size` bytes long starts the next chunk.
pub(crate) fn starts_next(n: u64, most: u64, max_bytes: u64, size: u64) -> bool
    ensures { result ≡ starts_next most max_bytes n size }
{
    if n == 0 {
        return false;
    }
    if n == most {
        return true;
    }
    max_bytes < size
}

// Writes the row counts of the chunks of the missing rows among the first n, and gives their number.
pub(crate) fn write_chunks(
    rows: &[u8],
    n: usize,
    clock: &VectorClock,
    most: u64,
    max_bytes: u64,
    output: &mut [u8],
) -> usize
    requires { Ready rows.now n clock.now × (8 * n ≤ length output.old) }
    ensures { Puts output.old (chunks most max_bytes 0 0 (delta_rows (entries clock.now) (rows_in rows.now n))) result output.new }
{
    let mut k: usize = 0;
    let mut count: u64 = 0;
    let mut size: u64 = 0;
    for i in 0..n {
        let at = 704 * i;
        if !is_missing(rows, at, clock) {
            continue;
        }
        let row = row_size(rows, at);
        if starts_next(count, most, max_bytes, size + row) {
            put_word(output, 8 * k, count);
            k += 1;
            count = 1;
            size = row;
            continue;
        }
        count += 1;
        size += row;
    }
    if count == 0 {
        return k;
    }
    put_word(output, 8 * k, count);
    k + 1
}

// How many chunks there are of the missing rows among the first n.
pub(crate) fn count_chunks(
    rows: &[u8],
    n: usize,
    clock: &VectorClock,
    most: u64,
    max_bytes: u64,
) -> usize
    requires { Ready rows.now n clock.now }
    ensures { result ≡ length (chunks most max_bytes 0 0 (delta_rows (entries clock.now) (rows_in rows.now n))) }
{
    let mut k: usize = 0;
    let mut count: u64 = 0;
    let mut size: u64 = 0;
    for i in 0..n {
        let at = 704 * i;
        if !is_missing(rows, at, clock) {
            continue;
        }
        let row = row_size(rows, at);
        if starts_next(count, most, max_bytes, size + row) {
            k += 1;
            count = 1;
            size = row;
            continue;
        }
        count += 1;
        size += row;
    }
    if count == 0 {
        return k;
    }
    k + 1
}
