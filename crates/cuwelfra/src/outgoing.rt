// The cutoff, the delta, its chunks and what they send: crates gc and sync.
ghost use Rattle.std.specs.Prelude.{◌≡◌};
ghost use Rattle.replicated_log.specs.Areas.{areas};
ghost use Rattle.gc.specs.Cutoff.{cutoff_call};
ghost use Rattle.sync.specs.Delta.{delta_call, chunk_call};
ghost use Rattle.sync.specs.Sizes.{sizes_call};
ghost use Rattle.cuwelfra.specs.Stores.{stamp_told};
ghost use Rattle.cuwelfra.specs.Vectors.{count_told};
ghost use Rattle.cuwelfra.specs.Exports.{exported};

use crate::store::StampTold;
use crate::vector::ClockTold;
use stubs::ActorId;

// The latest stamp that is safe to compact to, for a frontier in a clock area.
#[unsafe(no_mangle)]
pub extern "C" fn cuwelfra_cutoff(
    log: &[u8],
    held: &[u8],
    head: &[u8],
    frontier: &[u8],
) -> StampTold
    ensures { result ≡ stamp_told (cutoff_call (areas log.now held.now head.now) frontier.now) }
{
    crate::store::stamp_told(gc::cutoff(log, held, head, frontier))
}

// The log positions that a peer lacks.
#[unsafe(no_mangle)]
pub extern "C" fn cuwelfra_calculate_delta(
    log: &[u8],
    held: &[u8],
    head: &[u8],
    peer: &[u8],
    output: &mut [u8],
) -> ClockTold
    ensures { (result, output.new) ≡ exported count_told (delta_call (areas log.now held.now head.now) peer.now output.old) }
{
    crate::vector::clock_told(sync::calculate_delta(log, held, head, peer, output))
}

// The row counts of the chunks of that delta.
#[unsafe(no_mangle)]
pub extern "C" fn cuwelfra_chunk_ops(
    log: &[u8],
    held: &[u8],
    head: &[u8],
    peer: &[u8],
    max_per_chunk: u64,
    max_bytes: u64,
    output: &mut [u8],
) -> ClockTold
    ensures { (result, output.new) ≡ exported count_told (chunk_call (areas log.now held.now head.now) peer.now max_per_chunk max_bytes output.old) }
{
    crate::vector::clock_told(sync::chunk_ops(
        log,
        held,
        head,
        peer,
        max_per_chunk,
        max_bytes,
        output,
    ))
}

// The rows of each of those chunks, and the bytes of the envelope in which `sender` sends it.
#[unsafe(no_mangle)]
pub extern "C" fn cuwelfra_delta_sizes(
    log: &[u8],
    held: &[u8],
    head: &[u8],
    peer: &[u8],
    max_per_chunk: u64,
    max_bytes: u64,
    sender: u64,
    sig_len: u64,
    output: &mut [u8],
) -> ClockTold
    ensures { (result, output.new) ≡ exported count_told (sizes_call (areas log.now held.now head.now) peer.now max_per_chunk max_bytes sender sig_len output.old) }
{
    crate::vector::clock_told(sync::delta_sizes(
        log,
        held,
        head,
        peer,
        max_per_chunk,
        max_bytes,
        ActorId(sender),
        sig_len,
        output,
    ))
}
