// A desk's own rows, prepared and sealed: crate engine.
ghost use Rattle.std.specs.Prelude.{◌≡◌};
ghost use Rattle.error.specs.Answer.{Answer, told_by, ends};
ghost use Rattle.clock.specs.declared.hybrid.HybridClock.{HybridClock};
ghost use Rattle.row.specs.Rows.{Row};
ghost use Rattle.replicated_log.specs.Areas.{areas};
ghost use Rattle.merging.specs.Desk.{prepare_call, seal_call};
ghost use Rattle.engine.specs.Answers.{prepared_by};
ghost use Rattle.cuwelfra.specs.Exports.{exported};
ghost use Rattle.cuwelfra.specs.Hybrids.{clock_by};
ghost use Rattle.cuwelfra.specs.Desks.{row_told, prepared_told};

use clock::hybrid::HybridClock;
use engine::Prepared;
use error::{Ends, Told};
use stubs::ActorId;

// A prepared row, or the refusal with zeros, but for the hybrid clock.
#[repr(C)]
#[derive(Clone, Copy)]
pub struct PreparedTold {
    pub told: Told,
    pub wall_time: u64,
    pub logical_counter: u64,
    pub actor_id: u64,
    pub sequence: u64,
    pub deps: u64,
    pub dep_authors: [u64; 16],
    pub dep_numbers: [u64; 16],
    pub len: usize,
    pub last_wall: u64,
    pub last_counter: u64,
}

fn prepared_told(p: Ends<Prepared, HybridClock>) -> PreparedTold
    ensures { (answer : Answer Row) (hybrid : HybridClock) → p ≡ ends (prepared_by answer) hybrid → result ≡ row_told answer hybrid }
{
    let clock = p.left;
    match p.answer {
        Ok(row) => {
            let op = row.op;
            let deps = op.deps;
            let dep_authors = deps.authors;
            let dep_numbers = deps.numbers;
            PreparedTold {
                told: crate::bytes::accept(),
                wall_time: op.timestamp.wall_time,
                logical_counter: u64::from(op.timestamp.logical_counter),
                actor_id: op.timestamp.actor_id.0,
                sequence: op.seq,
                deps: deps.count as u64,
                dep_authors,
                dep_numbers,
                len: row.len,
                last_wall: clock.last_wall,
                last_counter: u64::from(clock.last_counter),
            }
        }
        Err(refusal) => {
            let none = [0; 16];
            PreparedTold {
                told: error::tell(refusal),
                wall_time: 0,
                logical_counter: 0,
                actor_id: 0,
                sequence: 0,
                deps: 0,
                dep_authors: none,
                dep_numbers: none,
                len: 0,
                last_wall: clock.last_wall,
                last_counter: u64::from(clock.last_counter),
            }
        }
    }
}

// Prepares a row of an author, whose hybrid clock and log's clock are handed in; the bytes to sign go to the output.
#[unsafe(no_mangle)]
pub extern "C" fn cuwelfra_prepare(
    author: u64,
    last_wall: u64,
    last_counter: u32,
    max_drift_ms: u64,
    time_ms: u64,
    issued: u64,
    payload: &[u8],
    clock: &[u8],
    output: &mut [u8],
) -> PreparedTold
    ensures { (result, output.new) ≡ prepared_told (prepare_call (record { author = author; time = time_ms; payload = payload.now; hybrid = clock_by author last_wall last_counter max_drift_ms; clock = clock.now; issued = issued; output = output.old })) }
{
    let hybrid = crate::hybrid::clock_by(author, last_wall, last_counter, max_drift_ms);
    prepared_told(engine::preparing::prepare(
        ActorId(author),
        time_ms,
        payload,
        hybrid,
        clock,
        issued,
        output,
    ))
}

// Seals a prepared row: the bytes that were signed, and the signature.
#[unsafe(no_mangle)]
pub extern "C" fn cuwelfra_seal(
    log: &mut [u8],
    held: &[u8],
    head: &mut [u8],
    bytes: &[u8],
    signature: &[u8],
) -> Told
    ensures { (result, areas log.new held.now head.new) ≡ exported told_by (seal_call (areas log.old held.now head.old) bytes.now signature.now) }
{
    crate::store::told_by(engine::sealing::seal(log, held, head, bytes, signature))
}
