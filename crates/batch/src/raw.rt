// No call of document 01: these require room for where the rows start, and serve the merger, which lends it. The rows of
// a batch, read in one pass: 3 and 4 by the first fault in reading; each row's validation beside it.
ghost use Rattle.std.specs.Prelude.{◌≡◌, ◌≤◌, length};
ghost use Rattle.batch.specs.Settings.{limits_of};
ghost use Rattle.batch.specs.Inside.BatchReads.{ReadsRows, first_row, ReadsBatch, RowsStart};

use crate::limits::validated;
use crate::{BatchRead, MergeLimits};
use codec::reader::get_varint;
use error::Refusal;
use row::reader::read_row;

// So many rows from `first` on, and then nothing; where each starts.
fn read_rows(
    s: &[u8],
    first: usize,
    rows: usize,
    limits: MergeLimits,
    time: u64,
    starts: &mut [u64],
) -> Result<BatchRead, Refusal>
    requires { (rows ≤ 64) × (64 ≤ length starts.old) }
    ensures reads { ReadsRows s.now first rows (limits_of limits) time result }
    ensures start { RowsStart result s.now first starts.new }
{
    let mut valid = Ok(());
    let mut at = first;
    for i in 0..rows {
        let (row, next) = read_row(s, at)?;
        valid = validated(valid, limits, time, row.op, row.verdict);
        starts[i] = at as u64;
        at = next;
    }
    if at != s.len() {
        return Err(Refusal::Unreadable);
    }
    Ok(BatchRead { rows, valid })
}

// A count of at most 64, as many rows, and then nothing; where each row starts.
pub fn read_batch(
    s: &[u8],
    limits: MergeLimits,
    time: u64,
    starts: &mut [u64],
) -> Result<BatchRead, Refusal>
    requires { 64 ≤ length starts.old }
    ensures reads { ReadsBatch s.now (limits_of limits) time result }
    ensures start { RowsStart result s.now (first_row s.now) starts.new }
{
    let (count, first) = get_varint(s, 0).or(Err(Refusal::Unreadable))?;
    if count > 64 {
        return Err(Refusal::OverCapacity);
    }
    read_rows(s, first, count as usize, limits, time, starts)
}
