// The held rows in place. Rows that stay move down to the front in their order; then, from the last place on, each
// place takes its row: one of the batch, or the last of those at the front.
ghost use Rattle.std.specs.Prelude.{◌≡◌, true, ◌*◌, ◌≤◌, ◌<◌, length};
ghost use Rattle.row.specs.Slots.{slot_at, encode_held};
ghost use Rattle.row.specs.Reading.{read_row};
ghost use Rattle.working.specs.Inside.References.{is_read, arrived_by};
ghost use Rattle.commit.specs.Inside.HeldSlots.{SlotSet, arriving, SlotsRise, Gathered, BatchRefs, Spread, held_before};

use row::raw::write_slot;
use row::reader::read_row;
use row::{Held, RowRead};
use words::raw::get_word;

// Copies slot `from` to slot `to`.
fn copy_slot(held: &mut [u8], from: usize, to: usize)
    requires { (from < 64) × (to < 64) × (45056 ≤ length held.old) }
    ensures { SlotSet held.old held.new to (slot_at held.old (704 * from)) }
{
    if to != from {
        let at = 704 * from;
        held.copy_within(at..at + 704, 704 * to);
    }
}

// A row of the batch as it waits, which arrived at `time`.
pub(crate) fn arriving(row: RowRead, time: u64) -> Held
    ensures { result ≡ arriving row time }
{
    Held {
        op: row.op,
        arrived_ms: time,
        outcome: u64::from(row.outcome),
        detail: u64::from(row.detail),
    }
}

// Writes the row at `at` of the batch, which arrived at `time`, to slot p.
fn slot_from_batch(held: &mut [u8], p: usize, batch: &[u8], at: usize, time: u64)
    requires { (is_read (read_row batch.now at) ≡ true) × (p < 64) × (45056 ≤ length held.old) }
    ensures { SlotSet held.old held.new p (encode_held (arrived_by time (read_row batch.now at))) }
{
    let (row, _) = read_row(batch, at).unwrap();
    let from = 704 * p;
    write_slot(&mut held[from..from + 704], arriving(row, time), batch);
}

// The slots of the working rows that were held, moved down to the front; how many they are.
pub(crate) fn gather(held: &mut [u8], scratch: &[u8], n: usize) -> usize
    requires { (n ≤ 64) × (16 * n ≤ length scratch.now) × (45056 ≤ length held.old) × SlotsRise scratch.now n }
    ensures { Gathered held.old held.new scratch.now n result }
{
    let mut kept: usize = 0;
    for p in 0..n {
        let k = get_word(scratch, 16 * p) as usize;
        if k < 64 {
            copy_slot(held, k, kept);
            kept += 1;
        }
    }
    kept
}

// Each of the first n slots takes its row, from the last on; the first `kept` are those at the front.
pub(crate) fn spread(
    held: &mut [u8],
    batch: &[u8],
    scratch: &[u8],
    n: usize,
    kept: usize,
    time: u64,
)
    requires { (n ≤ 64) × (16 * n ≤ length scratch.now) × (45056 ≤ length held.old) × (kept ≡ held_before scratch.now n) × BatchRefs batch.now scratch.now n }
    ensures { Spread held.old held.new batch.now scratch.now n time }
{
    let mut left = kept;
    for p in (0..n).rev() {
        let k = get_word(scratch, 16 * p) as usize;
        if k < 64 {
            left -= 1;
            copy_slot(held, left, p);
        } else {
            slot_from_batch(held, p, batch, k - 64, time);
        }
    }
}
