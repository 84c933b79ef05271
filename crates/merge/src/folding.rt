// The stamps of a batch, folded into the hybrid clock one after the other.
ghost use Rattle.std.specs.Prelude.{◌≡◌, true, ◌<◌, length};
ghost use Rattle.clock.specs.Hybrid.{update_call};
ghost use Rattle.row.specs.Reading.{read_row};
ghost use Rattle.merging.specs.Batch.{read_batch};
ghost use Rattle.merging.specs.Delta.{fold, stamps_read};
ghost use Rattle.working.specs.Inside.References.{is_read};
ghost use Rattle.working.specs.Inside.Looks.{batch_row_at};
ghost use Rattle.merge.specs.Inside.Decision.{Readable, RowsBegin};
ghost use Rattle.merge.specs.Inside.Applying.{folded_of, one_more};

use clock::hybrid::HybridClock;
use clock::stamp::Timestamp;
use codec::reader::get_varint;
use stubs::ActorId;

// The clock after the folds, and how many of them failed.
#[derive(Clone, Copy)]
pub(crate) struct Folded {
    pub clock: HybridClock,
    pub failed: u64,
}

// How many rows a batch has.
fn count_rows(batch: &[u8]) -> usize
    requires { Readable batch.now }
    ensures { result ≡ length (stamps_read (read_batch batch.now)) }
{
    let (count, _) = get_varint(batch, 0).unwrap();
    count as usize
}

// The stamp of the row at `at`. Nothing behind it is read.
fn stamp_at(batch: &[u8], at: usize) -> Timestamp
    requires { is_read (read_row batch.now at) ≡ true }
    ensures { result ≡ (batch_row_at batch.now at).stamp }
{
    let (wall_time, counter_at) = get_varint(batch, at).unwrap();
    let (counter, stamper_at) = get_varint(batch, counter_at).unwrap();
    let (stamper, _) = get_varint(batch, stamper_at).unwrap();
    Timestamp {
        wall_time,
        logical_counter: counter as u32,
        actor_id: ActorId(stamper),
    }
}

// One stamp more. A fold that fails is counted, and leaves the clock.
fn fold_stamp(before: Folded, stamp: Timestamp, time: u64) -> Folded
    requires { before.failed < 64 }
    ensures { folded_of result ≡ one_more (update_call before.clock stamp time) before.failed }
{
    let folded = before.clock.update(stamp, time);
    let mut failed = before.failed;
    if folded.answer.is_err() {
        failed += 1;
    }
    Folded {
        clock: folded.left,
        failed,
    }
}

// Each stamp in batch order, at one time.
pub(crate) fn fold_stamps(batch: &[u8], starts: &[u64], time: u64, hybrid: HybridClock) -> Folded
    requires { RowsBegin batch.now starts.now }
    ensures { folded_of result ≡ fold hybrid time (stamps_read (read_batch batch.now)) }
{
    let rows = count_rows(batch);
    let mut folded = Folded {
        clock: hybrid,
        failed: 0,
    };
    for i in 0..rows {
        let stamp = stamp_at(batch, starts[i] as usize);
        folded = fold_stamp(folded, stamp, time);
    }
    folded
}
