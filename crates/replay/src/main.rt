// Replays a recorded sample of the original's answers on the proved library, and says whether each came out as recorded.
// docs/DIFFERENCES.md has the sample's format, under "How the sample was made".
#![tactic(auto)]

use batch::MergeLimits;
use clock::hybrid::HybridClock;
use clock::stamp::Timestamp;
use error::Refusal;
use merge::delta::apply_delta;
use merge::floor::set_floor;
use merge::{Joined, Merged};
use replicated_log::change::insert;
use replicated_log::lookup::lookup;
use std::io::{ErrorKind, Read};
use std::{fmt, io};
use stubs::ActorId;
use words::raw::{copy, get_word};

// What every byte of scratch and output is before a batch call.
const UNTOUCHED: u8 = 165;

// What differs first in a record; or it is not a record of the sample's format.
#[derive(Clone, Copy)]
enum Difference {
    Unreadable,
    Answer,
    Counts,
    Clock,
    Scratch,
    Lines,
    Behind,
    Payload,
    Log,
    Held,
    Head,
}

impl fmt::Display for Difference {
    fn fmt<W: fmt::Write>(&self, f: &mut fmt::Formatter<W>) -> fmt::Result {
        let text = match self {
            Difference::Unreadable => "cannot be read",
            Difference::Answer => "the answer differs",
            Difference::Counts => "the counts differ",
            Difference::Clock => "the hybrid clock differs",
            Difference::Scratch => "scratch is not zero",
            Difference::Lines => "the lines of the output differ",
            Difference::Behind => "the output behind the lines has changed",
            Difference::Payload => "the payload differs",
            Difference::Log => "the log area differs",
            Difference::Held => "the held area differs",
            Difference::Head => "the head area differs",
        };
        f.write_str(text)
    }
}

// How many records of each kind came out as recorded, and how many stamps could not be folded.
#[derive(Clone, Copy, Default)]
struct Tally {
    stores: u64,
    floors: u64,
    batches: u64,
    refused: u64,
    failed: u64,
    rows: u64,
    lookups: u64,
}

// The areas that are lent: a log of up to 128 slots, and as much as the longest record needs of the others.
fn main(rt: HostRuntime) -> io::Result<()> {
    let mut log = [0u8; 90112];
    let mut held = [0u8; 45056];
    let mut head = [0u8; 2120];
    let mut block = [0u8; 2048];
    let mut lines = [0u8; 2304];
    let mut scratch = [0u8; 90112];
    let mut output = [0u8; 2304];
    let mut sample = rt.reader();
    let all = replay(
        &rt,
        &mut sample,
        &mut log,
        &mut held,
        &mut head,
        &mut block,
        &mut lines,
        &mut scratch,
        &mut output,
    )?;
    if !all {
        println!(rt; "replay: NOT as recorded")?;
    }
    Ok(())
}

// Replays every record up to the first that differs, and says how it went.
fn replay(
    rt: &impl Print,
    sample: &mut impl Read,
    log: &mut [u8],
    held: &mut [u8],
    head: &mut [u8],
    block: &mut [u8],
    lines: &mut [u8],
    scratch: &mut [u8],
    output: &mut [u8],
) -> io::Result<bool> {
    let mut record = [0u8; 272];
    let count = begin(sample)?;
    let mut tally = Tally::default();
    let mut size: usize = 0;
    for i in 0..count {
        let whole = read_whole(sample, &mut record)?;
        size = log_size(&record, size);
        let compared = turn(
            sample, &record, whole, size, log, held, head, block, lines, scratch, output,
        )?;
        if let Err(difference) = compared {
            println!(rt; "record {}: {difference}", i + 1)?;
            return Ok(false);
        }
        tally = tallied(&record, tally);
    }
    finish(rt, sample, count, tally)
}

// How many records follow, 0 where the sample does not begin as it must.
fn begin(sample: &mut impl Read) -> io::Result<u64> {
    let mut mark = [0u8; 8];
    let mut start = [0u8; 16];
    if !read_whole(sample, &mut mark)? {
        return Ok(0);
    }
    if mark != *b"cuwelfra" {
        return Ok(0);
    }
    if !read_whole(sample, &mut start)? {
        return Ok(0);
    }
    if word(&start, 1) != 34 {
        return Ok(0);
    }
    Ok(word(&start, 0))
}

// Word i of a block of words, 0 where it has none.
fn word(words: &[u8], i: usize) -> u64 {
    if i >= words.len() / 8 {
        return 0;
    }
    get_word(words, 8 * i)
}

// Reads the next bytes of the sample, and answers whether there were as many.
fn read_whole(sample: &mut impl Read, s: &mut [u8]) -> io::Result<bool> {
    match sample.read_exact(s) {
        Ok(()) => Ok(true),
        Err(e) if e.kind() == ErrorKind::UnexpectedEof => Ok(false),
        Err(e) => Err(e),
    }
}

// The same with the first n bytes of an area that may be too short.
fn read_first(sample: &mut impl Read, s: &mut [u8], n: usize) -> io::Result<bool> {
    if n > s.len() {
        return Ok(false);
    }
    read_whole(sample, &mut s[..n])
}

// The length of the log area: a new store's, or as it was.
fn log_size(record: &[u8], size: usize) -> usize {
    if word(record, 0) != 1 {
        return size;
    }
    let slots = word(record, 3);
    if slots > 1024 {
        return 0;
    }
    704 * slots as usize
}

// Reads the blocks of a record, and makes its call.
fn turn(
    sample: &mut impl Read,
    record: &[u8],
    whole: bool,
    size: usize,
    log: &mut [u8],
    held: &mut [u8],
    head: &mut [u8],
    block: &mut [u8],
    lines: &mut [u8],
    scratch: &mut [u8],
    output: &mut [u8],
) -> io::Result<Result<(), Difference>> {
    if !whole {
        return Ok(Err(Difference::Unreadable));
    }
    let n = word(record, 1) as usize;
    let m = word(record, 2) as usize;
    if !read_first(sample, block, n)? {
        return Ok(Err(Difference::Unreadable));
    }
    if !read_first(sample, lines, m)? {
        return Ok(Err(Difference::Unreadable));
    }
    Ok(lend(
        record, size, log, held, head, block, n, lines, m, scratch, output,
    ))
}

// Makes the call on areas of the recorded lengths.
fn lend(
    record: &[u8],
    size: usize,
    log: &mut [u8],
    held: &mut [u8],
    head: &mut [u8],
    block: &[u8],
    n: usize,
    lines: &[u8],
    m: usize,
    scratch: &mut [u8],
    output: &mut [u8],
) -> Result<(), Difference> {
    let r = word(record, 11) as usize;
    let w = word(record, 12) as usize;
    if size > log.len()
        || n > block.len()
        || m > lines.len()
        || r > scratch.len()
        || w > output.len()
    {
        return Err(Difference::Unreadable);
    }
    judge(
        record,
        &mut log[..size],
        held,
        head,
        &block[..n],
        &lines[..m],
        &mut scratch[..r],
        &mut output[..w],
    )
}

// Makes the call, and compares its answer and the areas.
fn judge(
    record: &[u8],
    log: &mut [u8],
    held: &mut [u8],
    head: &mut [u8],
    block: &[u8],
    lines: &[u8],
    scratch: &mut [u8],
    output: &mut [u8],
) -> Result<(), Difference> {
    act(record, log, held, head, block, lines, scratch, output)?;
    areas_are(record, log, held, head)
}

// Makes the call of a record's kind, and compares its answer.
fn act(
    record: &[u8],
    log: &mut [u8],
    held: &mut [u8],
    head: &mut [u8],
    block: &[u8],
    lines: &[u8],
    scratch: &mut [u8],
    output: &mut [u8],
) -> Result<(), Difference> {
    match word(record, 0) {
        1 => new_store(log, held, head, block),
        2 => floor_setting(record, log, held, head),
        3 => batch_call(record, log, held, head, block, lines, scratch, output),
        4 => local_row(log, held, head, block),
        5 => row_lookup(record, log, held, head, block),
        _ => Err(Difference::Unreadable),
    }
}

// Areas of zeros, with the block as clock and compacted clock.
fn new_store(
    log: &mut [u8],
    held: &mut [u8],
    head: &mut [u8],
    clock: &[u8],
) -> Result<(), Difference> {
    words::zero(log);
    words::zero(held);
    words::zero(head);
    if clock.len() > 520 || head.len() < 1088 {
        return Err(Difference::Unreadable);
    }
    copy(head, 48, clock);
    copy(head, 568, clock);
    Ok(())
}

fn floor_setting(
    record: &[u8],
    log: &[u8],
    held: &[u8],
    head: &mut [u8],
) -> Result<(), Difference> {
    let Ok(logical_counter) = u32::try_from(word(record, 4)) else {
        return Err(Difference::Unreadable);
    };
    let floor = Timestamp {
        wall_time: word(record, 3),
        logical_counter,
        actor_id: ActorId(word(record, 5)),
    };
    done(set_floor(log, held, head, floor))
}

fn local_row(log: &mut [u8], held: &[u8], head: &mut [u8], slot: &[u8]) -> Result<(), Difference> {
    done(insert(log, held, head, slot))
}

// Looks a row up: its payload comes back as a part of the area that it stands in.
fn row_lookup<'a>(
    record: &[u8],
    log: &'a [u8],
    held: &'a [u8],
    head: &[u8],
    payload: &[u8],
) -> Result<(), Difference> {
    let actor = ActorId(word(record, 3));
    let part = lookup(log, held, head, actor, word(record, 4));
    if part != payload {
        return Err(Difference::Payload);
    }
    Ok(())
}

// Floor settings and local rows were recorded where they are accepted.
fn done(answer: Result<(), Refusal>) -> Result<(), Difference> {
    answer.or(Err(Difference::Answer))
}

fn batch_call(
    record: &[u8],
    log: &mut [u8],
    held: &mut [u8],
    head: &mut [u8],
    batch: &[u8],
    lines: &[u8],
    scratch: &mut [u8],
    output: &mut [u8],
) -> Result<(), Difference> {
    let Ok(counter) = u32::try_from(word(record, 26)) else {
        return Err(Difference::Unreadable);
    };
    let hybrid = clock_of(record, counter);
    let joined = offer(record, hybrid, log, held, head, batch, scratch, output);
    answer_is(record, joined.answer)?;
    clock_is(record, joined.left)?;
    written_is(lines, scratch, output)
}

// Makes the batch call with this hybrid clock.
fn offer(
    record: &[u8],
    hybrid: HybridClock,
    log: &mut [u8],
    held: &mut [u8],
    head: &mut [u8],
    batch: &[u8],
    scratch: &mut [u8],
    output: &mut [u8],
) -> Joined {
    scratch.fill(UNTOUCHED);
    output.fill(UNTOUCHED);
    let limits = limits_of(record);
    let time = word(record, 3);
    apply_delta(
        limits, time, hybrid, log, held, head, batch, scratch, output,
    )
}

fn limits_of(record: &[u8]) -> MergeLimits {
    MergeLimits {
        max_pending: word(record, 4),
        max_pending_per_actor: word(record, 5),
        max_pending_bytes: word(record, 6),
        max_pending_age_ms: word(record, 7),
        max_drift_ms: word(record, 8),
        max_deps: word(record, 9),
        max_payload: word(record, 10),
    }
}

fn clock_of(record: &[u8], counter: u32) -> HybridClock {
    HybridClock {
        actor: ActorId(word(record, 24)),
        last_wall: word(record, 25),
        last_counter: counter,
        max_drift_ms: word(record, 27),
    }
}

// Whether the answer is the recorded one. A refusal is recorded with counts of 0, a report with a refusal of 0.
fn answer_is(record: &[u8], answer: Result<Merged, Refusal>) -> Result<(), Difference> {
    let (told, counts) = match answer {
        Ok(merged) => ([0; 3], counts_of(merged)),
        Err(r) => (
            [error::number(r), error::first(r), error::second(r)],
            [0; 8],
        ),
    };
    if !words_are(record, 13, &told) {
        return Err(Difference::Answer);
    }
    if !words_are(record, 16, &counts) {
        return Err(Difference::Counts);
    }
    Ok(())
}

// The counts, and how many stamps could not be folded.
fn counts_of(merged: Merged) -> [u64; 8] {
    let r = merged.report;
    [
        r.applied,
        r.stale,
        r.rejected,
        r.duplicates,
        r.held,
        r.expired,
        r.dropped,
        merged.failed,
    ]
}

// Whether the clock issues the recorded stamp at the time of the call, or none.
fn clock_is(record: &[u8], clock: HybridClock) -> Result<(), Difference> {
    let same = match clock.now(word(record, 3)).answer {
        Ok(stamp) => stamp_is(record, stamp),
        Err(refusal) => no_stamp_is(record, refusal),
    };
    if !same {
        return Err(Difference::Clock);
    }
    Ok(())
}

fn stamp_is(record: &[u8], stamp: Timestamp) -> bool {
    let issued = [0, stamp.wall_time, u64::from(stamp.logical_counter)];
    stamp.actor_id.0 == word(record, 24) && words_are(record, 28, &issued)
}

fn no_stamp_is(record: &[u8], r: Refusal) -> bool {
    let none = [error::number(r), 0, 0];
    words_are(record, 28, &none)
}

// Whether the record's words from `from` on are these.
fn words_are(record: &[u8], from: u8, numbers: &[u64]) -> bool {
    for (i, number) in numbers.iter().enumerate() {
        if word(record, usize::from(from) + i) != *number {
            return false;
        }
    }
    true
}

// Whether scratch is zero, and the output the lines and then as it was.
fn written_is(lines: &[u8], scratch: &[u8], output: &[u8]) -> Result<(), Difference> {
    if !words::is_zero(scratch) {
        return Err(Difference::Scratch);
    }
    let n = lines.len();
    if n > output.len() || &output[..n] != lines {
        return Err(Difference::Lines);
    }
    if !is_untouched(&output[n..]) {
        return Err(Difference::Behind);
    }
    Ok(())
}

fn is_untouched(s: &[u8]) -> bool {
    s.iter().all(|x| *x == UNTOUCHED)
}

// Whether the areas have the recorded check numbers.
fn areas_are(record: &[u8], log: &[u8], held: &[u8], head: &[u8]) -> Result<(), Difference> {
    if check_number(log) != word(record, 31) {
        return Err(Difference::Log);
    }
    if check_number(held) != word(record, 32) {
        return Err(Difference::Held);
    }
    if check_number(head) != word(record, 33) {
        return Err(Difference::Head);
    }
    Ok(())
}

// 0, and for each word rotated left by 5 bits, the word added.
fn check_number(area: &[u8]) -> u64 {
    let mut sum: u64 = 0;
    for i in 0..area.len() / 8 {
        sum = sum.rotate_left(5).wrapping_add(word(area, i));
    }
    sum
}

// Counts a record that came out as recorded.
fn tallied(record: &[u8], t: Tally) -> Tally {
    let kind = word(record, 0);
    Tally {
        stores: more(t.stores, kind == 1),
        floors: more(t.floors, kind == 2),
        batches: more(t.batches, kind == 3),
        refused: more(t.refused, word(record, 13) != 0),
        failed: t.failed.wrapping_add(word(record, 23)),
        rows: more(t.rows, kind == 4),
        lookups: more(t.lookups, kind == 5),
    }
}

// One more where it is one.
fn more(n: u64, one: bool) -> u64 {
    n.wrapping_add(u64::from(one))
}

// Says how many records there were, and answers whether that is all of a sample.
fn finish(rt: &impl Print, sample: &mut impl Read, count: u64, t: Tally) -> io::Result<bool> {
    if count == 0 {
        println!(rt; "not a sample, or an empty one")?;
        return Ok(false);
    }
    if read_whole(sample, &mut [0; 1])? {
        println!(rt; "the sample goes on after its last record")?;
        return Ok(false);
    }
    print!(rt;
        "replay: {} stores, {} floor settings, ",
        t.stores, t.floors
    )?;
    print!(rt;
        "{} batch calls ({} refused, {} folds failed), ",
        t.batches, t.refused, t.failed
    )?;
    println!(rt;
        "{} rows inserted, {} payloads looked up: all as recorded",
        t.rows, t.lookups
    )?;
    Ok(true)
}
