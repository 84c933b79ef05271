// From src/sync.rs: what a peer is missing, in which chunks it goes out, and how much they send.
#![tactic(auto)]

mod chunk; // the delta in chunks
mod scan; // the rows that a peer has not seen
mod sizes; // the rows and the bytes of each chunk

ghost use Rattle.std.specs.Prelude.{◌≡◌};
ghost use Rattle.error.specs.Answer.{ends};
ghost use Rattle.replicated_log.specs.Areas.{areas};
ghost use Rattle.sync.specs.Delta.{delta_call, chunk_call};
ghost use Rattle.sync.specs.Sizes.{sizes_call};

use crate::chunk::{at_least_one, write_chunks};
use crate::scan::{count_rows, write_delta};
use crate::sizes::{has_room, write_sizes};
use clock::raw::load_clock;
use error::Refusal;
use stubs::ActorId;

// The log positions of every row that a peer with this clock has not seen, eight big-endian bytes each.
pub fn calculate_delta(
    rows: &[u8],
    held: &[u8],
    head: &[u8],
    peer: &[u8],
    output: &mut [u8],
) -> Result<u64, Refusal>
    ensures { ends result output.new ≡ delta_call (areas rows.now held.now head.now) peer.now output.old }
{
    let n = count_rows(rows, held, head, peer)? as usize;
    if output.len() / 8 < n {
        return Err(Refusal::ShortArea);
    }
    let clock = load_clock(peer, 0);
    Ok(write_delta(rows, n, &clock, output) as u64)
}

// The row counts of the chunks in which that delta goes out: at most max_per_chunk rows and roughly max_bytes bytes each.
pub fn chunk_ops(
    rows: &[u8],
    held: &[u8],
    head: &[u8],
    peer: &[u8],
    max_per_chunk: u64,
    max_bytes: u64,
    output: &mut [u8],
) -> Result<u64, Refusal>
    ensures { ends result output.new ≡ chunk_call (areas rows.now held.now head.now) peer.now max_per_chunk max_bytes output.old }
{
    let n = count_rows(rows, held, head, peer)? as usize;
    if output.len() / 8 < n {
        return Err(Refusal::ShortArea);
    }
    let clock = load_clock(peer, 0);
    let most = at_least_one(max_per_chunk);
    Ok(write_chunks(rows, n, &clock, most, max_bytes, output) as u64)
}

// The rows of each of those chunks, and the bytes of the envelope in which `sender` sends it as a Delta, signed with
// sig_len bytes: eight big-endian bytes each.
pub fn delta_sizes(
    rows: &[u8],
    held: &[u8],
    head: &[u8],
    peer: &[u8],
    max_per_chunk: u64,
    max_bytes: u64,
    sender: ActorId,
    sig_len: u64,
    output: &mut [u8],
) -> Result<u64, Refusal>
    ensures { ends result output.new ≡ sizes_call (areas rows.now held.now head.now) peer.now max_per_chunk max_bytes sender.0 sig_len output.old }
{
    if 1024 < sig_len {
        return Err(Refusal::OverCapacity);
    }
    let n = count_rows(rows, held, head, peer)? as usize;
    let clock = load_clock(peer, 0);
    let most = at_least_one(max_per_chunk);
    if !has_room(rows, n, &clock, most, max_bytes, output.len()) {
        return Err(Refusal::ShortArea);
    }
    let chunks = write_sizes(rows, n, &clock, most, max_bytes, sender, sig_len, output);
    Ok(chunks as u64)
}
