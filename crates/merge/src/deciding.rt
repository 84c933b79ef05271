// What a batch comes to, decided before any area but scratch is written.
ghost use Rattle.std.specs.Prelude.{◌≡◌, ◌≤◌, length};
ghost use Rattle.replicated_log.specs.Areas.{areas};
ghost use Rattle.merging.specs.Calls.{room_for};
ghost use Rattle.batch.specs.Settings.{limits_of};
ghost use Rattle.merge.specs.Inside.Decision.{Opened, TakesIn, Prepares, SettleNeeds, Settles, JudgeNeeds, Judged, Merges, Decides, StartsKnown};

use batch::MergeLimits;
use batch::raw::read_batch;
use batch::settings::are_within;
use error::Refusal;
use quota::raw::{quotas, room};
use replicated_log::check::check_store;
use words::raw::get_word;
use working::raw::{admit_all, drain, unexpired};

// A batch that was read and validated: how many rows it has, and how many rows are held.
#[derive(Clone, Copy)]
pub(crate) struct Prepared {
    pub rows: usize,
    pub held: usize,
}

// What became of the rows: how many wait and were logged, expired, were duplicates and were dropped, and how many authors the clock has then.
#[derive(Clone, Copy)]
pub(crate) struct Settled {
    pub waiting: usize,
    pub logged: usize,
    pub expired: usize,
    pub duplicates: usize,
    pub dropped: usize,
    pub authors: usize,
}

// The decision: the counts that an accepted batch has, with references to its rows in scratch.
#[derive(Clone, Copy)]
pub(crate) struct Decision {
    pub waiting: usize,
    pub logged: usize,
    pub expired: usize,
    pub duplicates: usize,
    pub dropped: usize,
}

// Whether output and scratch have room for so many rows.
#[tactic(auto, unfolding(merging::specs::Calls::room_for))]
fn have_room(rows: usize, scratch: &[u8], output: &[u8]) -> bool
    requires { rows ≤ 128 }
    ensures { result ≡ room_for rows scratch.now output.now }
{
    18 * rows <= output.len() && 704 * rows <= scratch.len()
}

// 3 and 4, 2 for output and scratch, 5 to 12, on a store with so many held rows; where each row of the batch starts.
fn take_in(
    limits: MergeLimits,
    time: u64,
    held: usize,
    batch: &[u8],
    scratch: &[u8],
    output: &[u8],
    starts: &mut [u64],
) -> Result<Prepared, Refusal>
    requires { (held ≤ 64) × (64 ≤ length starts.old) }
    ensures { TakesIn (limits_of limits) time held batch.now scratch.now output.now starts.new result }
{
    let read = read_batch(batch, limits, time, starts)?;
    let rows = read.rows;
    if !have_room(held + rows, scratch, output) {
        return Err(Refusal::ShortArea);
    }
    read.valid?;
    Ok(Prepared { rows, held })
}

// All that is refused before the rows are merged: 4, 2, 1, 3 and 4, 2, 5 to 12.
fn prepare(
    limits: MergeLimits,
    time: u64,
    log: &[u8],
    held: &[u8],
    head: &[u8],
    batch: &[u8],
    scratch: &[u8],
    output: &[u8],
    starts: &mut [u64],
) -> Result<Prepared, Refusal>
    requires { 64 ≤ length starts.old }
    ensures { Prepares (areas log.now held.now head.now) (limits_of limits) time batch.now scratch.now output.now starts.new result }
{
    if !are_within(limits) {
        return Err(Refusal::OverCapacity);
    }
    check_store(log, held, head)?;
    let count = get_word(head, 8) as usize;
    take_in(limits, time, count, batch, scratch, output, starts)
}

// Steps 1 to 3, over the slots that are used of the held area.
fn settle(
    held: &[u8],
    batch: &[u8],
    head: &[u8],
    scratch: &mut [u8],
    count: usize,
    cutoff: u64,
    starts: &[u64],
    rows: usize,
) -> Result<Settled, Refusal>
    requires { SettleNeeds held.now batch.now head.now scratch.old count starts.now rows }
    ensures { Settles held.now batch.now head.now scratch.new count cutoff starts.now rows result }
{
    let kept = unexpired(held, scratch, count, cutoff);
    let entered = admit_all(held, batch, head, scratch, kept, starts, rows)?;
    let d = drain(held, batch, head, scratch, entered.working);
    Ok(Settled {
        waiting: d.waiting,
        logged: d.logged,
        expired: count - kept,
        duplicates: entered.duplicates,
        dropped: d.dropped,
        authors: d.authors,
    })
}

// 14 to 18.
fn judge(
    log: &[u8],
    held: &[u8],
    batch: &[u8],
    head: &[u8],
    scratch: &[u8],
    limits: MergeLimits,
    waiting: usize,
    logged: usize,
    authors: usize,
) -> Result<(), Refusal>
    requires { JudgeNeeds log.now held.now batch.now head.now scratch.now waiting logged }
    ensures { Judged log.now held.now batch.now head.now scratch.now (limits_of limits) waiting logged authors result }
{
    quotas(held, batch, scratch, waiting, limits)?;
    room(log, held, batch, head, scratch, logged, authors)
}

// 13 to 18 of a batch that was read and validated.
fn decide_rows(
    limits: MergeLimits,
    time: u64,
    log: &[u8],
    held: &[u8],
    head: &[u8],
    batch: &[u8],
    scratch: &mut [u8],
    starts: &[u64],
    rows: usize,
    count: usize,
) -> Result<Decision, Refusal>
    requires { Opened (areas log.now held.now head.now) (limits_of limits) time batch.now scratch.old starts.now rows count }
    ensures { Merges (areas log.now held.now head.now) (limits_of limits) time batch.now scratch.new result }
{
    let cutoff = time.saturating_sub(limits.max_pending_age_ms);
    let end = 704 * count;
    let used = &held[..end];
    let settled = settle(used, batch, head, scratch, count, cutoff, starts, rows)?;
    let waiting = settled.waiting;
    let logged = settled.logged;
    let authors = settled.authors;
    judge(
        log, used, batch, head, scratch, limits, waiting, logged, authors,
    )?;
    Ok(Decision {
        waiting,
        logged,
        expired: settled.expired,
        duplicates: settled.duplicates,
        dropped: settled.dropped,
    })
}

// What a batch comes to. `starts` then has where each row of an accepted one starts.
pub(crate) fn decide(
    limits: MergeLimits,
    time: u64,
    log: &[u8],
    held: &[u8],
    head: &[u8],
    batch: &[u8],
    scratch: &mut [u8],
    output: &[u8],
    starts: &mut [u64],
) -> Result<Decision, Refusal>
    requires { 64 ≤ length starts.old }
    ensures decides { Decides (areas log.now held.now head.now) (limits_of limits) time batch.now scratch.old output.now scratch.new result }
    ensures begin { StartsKnown result batch.now starts.new }
{
    let Prepared { rows, held: count } = prepare(
        limits, time, log, held, head, batch, scratch, output, starts,
    )?;
    decide_rows(
        limits, time, log, held, head, batch, scratch, starts, rows, count,
    )
}
