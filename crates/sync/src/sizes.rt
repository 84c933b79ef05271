// How much a delta sends: the rows and the bytes of each chunk.
ghost use Rattle.std.specs.Prelude.{◌≡◌, [], ◌∷◌, ◌+◌, ◌*◌, ◌≤◌, length, leb};
ghost use Rattle.words.specs.Be.{bes};
ghost use Rattle.words.specs.Areas.{put_at};
ghost use Rattle.clock.specs.Vector.{entries};
ghost use Rattle.codec.specs.Inside.EnvelopeParts.{envelope_length};
ghost use Rattle.replicated_log.specs.Inside.StoreChanges.{rows_in};
ghost use Rattle.sync.specs.Delta.{delta_rows, chunks};
ghost use Rattle.sync.specs.Inside.DeltaSteps.{Ready, Puts};
ghost use Rattle.sync.specs.Inside.SizeSteps.{delta_length, to_come};

use crate::chunk::{count_chunks, row_sizes, sized_len, starts_next};
use crate::scan::is_missing;
use clock::vector::VectorClock;
use codec::varint_len;
use stubs::ActorId;
use words::raw::put_word;

// The length of an envelope around a Delta of n rows, which have so many bytes: tag, count and rows.
fn frame_len(sender: ActorId, n: u64, row_bytes: u64, sig_len: u64) -> u64
    requires { (row_bytes ≤ 912 * 1024) × (sig_len ≤ 1024) }
    ensures { result ≡ envelope_length sender.0 (delta_length n row_bytes) sig_len }
{
    let body = 1 + varint_len(n) as u64 + row_bytes;
    varint_len(sender.0) as u64 + sized_len(body) + sized_len(sig_len)
}

// Writes two numbers at `at`.
fn put_figures(output: &mut [u8], at: usize, rows: u64, bytes: u64)
    requires { at + 16 ≤ length output.old }
    ensures { output.new ≡ put_at output.old at (bes (rows ∷ bytes ∷ [])) }
{
    put_word(output, at, rows);
    put_word(output, at + 8, bytes);
}

// Whether an output of `room` bytes has 16 for each chunk of the missing rows among the first n. Where it has them for
// each row the chunks need not be counted.
pub(crate) fn has_room(
    rows: &[u8],
    n: usize,
    clock: &VectorClock,
    most: u64,
    max_bytes: u64,
    room: usize,
) -> bool
    requires { Ready rows.now n clock.now }
    ensures { result ≡ leb (16 * length (chunks most max_bytes 0 0 (delta_rows (entries clock.now) (rows_in rows.now n)))) room }
{
    if n <= room / 16 {
        return true;
    }
    count_chunks(rows, n, clock, most, max_bytes) <= room / 16
}

// Writes the rows and the bytes of each of these chunks, and gives their number.
pub(crate) fn write_sizes(
    rows: &[u8],
    n: usize,
    clock: &VectorClock,
    most: u64,
    max_bytes: u64,
    sender: ActorId,
    sig_len: u64,
    output: &mut [u8],
) -> usize
    requires { Ready rows.now n clock.now × (sig_len ≤ 1024) × (16 * length (chunks most max_bytes 0 0 (delta_rows (entries clock.now) (rows_in rows.now n))) ≤ length output.old) }
    ensures { Puts output.old (to_come most max_bytes sender.0 sig_len [] (delta_rows (entries clock.now) (rows_in rows.now n))) (2 * result) output.new }
{
    let mut k: usize = 0;
    let mut count: u64 = 0;
    let mut size: u64 = 0;
    let mut bytes: u64 = 0;
    for i in 0..n {
        let at = 704 * i;
        if !is_missing(rows, at, clock) {
            continue;
        }
        let row = row_sizes(rows, at);
        if starts_next(count, most, max_bytes, size + row.size) {
            put_figures(
                output,
                16 * k,
                count,
                frame_len(sender, count, bytes, sig_len),
            );
            k += 1;
            count = 1;
            size = row.size;
            bytes = row.bytes;
            continue;
        }
        count += 1;
        size += row.size;
        bytes += row.bytes;
    }
    if count == 0 {
        return k;
    }
    put_figures(
        output,
        16 * k,
        count,
        frame_len(sender, count, bytes, sig_len),
    );
    k + 1
}
