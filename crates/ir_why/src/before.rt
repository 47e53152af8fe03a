//! What is before an event.

ghost use Rattle.std.specs.Prelude.{◌≡◌, ◌≢◌, ◌≤◌, ◌<◌, ◌+◌, ℕ, true, false, length, slice_get, slice_index_or, IfOk, Some};
ghost use Rattle.ir_thread.specs.State.{most_events};
ghost use Rattle.ir_trace.specs.Recorded.{recorded_thread};
ghost use Rattle.ir_past.specs.Answers.{AreCoherent};
ghost use Rattle.ir_why.specs.Before.{IsPast};
ghost use Rattle.ir_why.specs.Tables.{HasTables, AreRaised, IsGathered, HaveRisen, unscanned};
ghost use Rattle.ir_past.specs.declared.place.Place as place;

use crate::tables::Tables;
use ir_past::{Place, thread_count};
use ir_trace::Trace;
use std::alloc::{AllocError, Global};

// The past of an event while it is gathered: how many first events of each thread are in it, and of how many of them what they need is in it too.
#[derive(Drop)]
struct Gathering {
    of: Place,
    counts: Vec<u32>,
    scanned: Vec<u32>,
}

// Raises the counts until they have these events.
fn raise(counts: &mut Vec<u32>, places: &[Place])
    requires { (k : ℕ) (p : place.Place) → slice_get places.now k ≡ Some p → (p.thread < length counts.old.items) × (p.event < most_events) }
    ensures { AreRaised counts.old.items counts.new.items places.now (length places.now) }
{
    for place in places {
        let count = counts[place.thread as usize];
        counts[place.thread as usize] = count.max(place.event + 1);
    }
}

// Scans the next event of a thread that isn't scanned; whether there is one.
fn scan_next(
    alloc: Global,
    trace: &Trace,
    tables: &Tables,
    past: &mut Gathering,
    thread: u8,
) -> Result<bool, AllocError>
    requires coherent { AreCoherent trace.now }
    requires tables { HasTables trace.now tables.now }
    requires thread { thread < length trace.now.threads }
    requires gathered { IsGathered trace.now past.old.of.thread past.old.of.event past.old.counts.items past.old.scanned.items }
    ensures of { IfOk result (λ moved. past.new.of ≡ past.old.of) }
    ensures gathered { IfOk result (λ moved. IsGathered trace.now past.new.of.thread past.new.of.event past.new.counts.items past.new.scanned.items) }
    ensures others { IfOk result (λ moved. (u : ℕ) → u ≢ thread → slice_index_or past.new.scanned.items u 0 ≡ slice_index_or past.old.scanned.items u 0) }
    ensures more { IfOk result (λ moved. moved ≡ true → slice_index_or past.new.scanned.items thread 0 ≡ slice_index_or past.old.scanned.items thread 0 + 1) }
    ensures none { IfOk result (λ moved. moved ≡ false → (past.new ≡ past.old) × (slice_index_or past.old.scanned.items thread 0 ≡ slice_index_or past.old.counts.items thread 0)) }
{
    let event = past.scanned[thread as usize];
    let count = past.counts[thread as usize];
    if event == count {
        return Ok(false);
    }
    let needs = tables.needs_of(alloc, trace, Place { thread, event })?;
    raise(&mut past.counts, &needs);
    past.scanned[thread as usize] = event + 1;
    Ok(true)
}

// Scans the events of a thread; whether there was one that wasn't scanned.
fn scan_thread(
    alloc: Global,
    trace: &Trace,
    tables: &Tables,
    past: &mut Gathering,
    thread: u8,
) -> Result<bool, AllocError>
    requires coherent { AreCoherent trace.now }
    requires tables { HasTables trace.now tables.now }
    requires thread { thread < length trace.now.threads }
    requires gathered { IsGathered trace.now past.old.of.thread past.old.of.event past.old.counts.items past.old.scanned.items }
    ensures of { IfOk result (λ moved. past.new.of ≡ past.old.of) }
    ensures gathered { IfOk result (λ moved. IsGathered trace.now past.new.of.thread past.new.of.event past.new.counts.items past.new.scanned.items) }
    ensures risen { IfOk result (λ moved. HaveRisen past.old.scanned.items past.new.scanned.items) }
    ensures more { IfOk result (λ moved. moved ≡ true → slice_index_or past.old.scanned.items thread 0 < slice_index_or past.new.scanned.items thread 0) }
    ensures none { IfOk result (λ moved. moved ≡ false → (past.new ≡ past.old) × (slice_index_or past.old.scanned.items thread 0 ≡ slice_index_or past.old.counts.items thread 0)) }
{
    let mut moved = false;
    while scan_next(alloc, trace, tables, past, thread)? {
        moved = true;
    }
    Ok(moved)
}

// The same of each thread.
fn pass(
    alloc: Global,
    trace: &Trace,
    tables: &Tables,
    past: &mut Gathering,
) -> Result<bool, AllocError>
    requires coherent { AreCoherent trace.now }
    requires tables { HasTables trace.now tables.now }
    requires gathered { IsGathered trace.now past.old.of.thread past.old.of.event past.old.counts.items past.old.scanned.items }
    ensures of { IfOk result (λ moved. past.new.of ≡ past.old.of) }
    ensures gathered { IfOk result (λ moved. IsGathered trace.now past.new.of.thread past.new.of.event past.new.counts.items past.new.scanned.items) }
    ensures more { IfOk result (λ moved. moved ≡ true → unscanned trace.now past.new.scanned.items < unscanned trace.now past.old.scanned.items) }
    ensures none { IfOk result (λ moved. moved ≡ false → (u : ℕ) → u < length trace.now.threads → slice_index_or past.new.scanned.items u 0 ≡ slice_index_or past.new.counts.items u 0) }
{
    let mut moved = false;
    for thread in 0..thread_count(trace) {
        if scan_thread(alloc, trace, tables, past, thread)? {
            moved = true;
        }
    }
    Ok(moved)
}

// An event's own past, and what it needs, with nothing scanned.
fn begin(
    alloc: Global,
    trace: &Trace,
    tables: &Tables,
    here: Place,
) -> Result<Gathering, AllocError>
    requires coherent { AreCoherent trace.now }
    requires tables { HasTables trace.now tables.now }
    requires thread { here.thread < length trace.now.threads }
    requires event { here.event < length (recorded_thread trace.now here.thread).events }
    ensures of { IfOk result (λ past. past.of ≡ here) }
    ensures gathered { IfOk result (λ past. IsGathered trace.now past.of.thread past.of.event past.counts.items past.scanned.items) }
{
    let threads = trace.threads().len();
    let mut counts = vec![in alloc; 0; threads]?;
    counts[here.thread as usize] = here.event;
    let needs = tables.needs_of(alloc, trace, here)?;
    raise(&mut counts, &needs);
    let scanned = vec![in alloc; 0; threads]?;
    Ok(Gathering {
        of: here,
        counts,
        scanned,
    })
}

/// How many events of each thread are before an event of a coherent trace: its thread's earlier ones, what it needs of other threads, and what
/// is before these. Time is linear in the events of the past, times the threads; memory in the threads and in what one event needs.
///
/// # Errors
/// Out of memory.
pub fn past_of(
    alloc: Global,
    trace: &Trace,
    tables: &Tables,
    here: Place,
) -> Result<Vec<u32>, AllocError>
    requires coherent { AreCoherent trace.now }
    requires tables { HasTables trace.now tables.now }
    requires thread { here.thread < length trace.now.threads }
    requires event { here.event < length (recorded_thread trace.now here.thread).events }
    ensures { IfOk result (λ counts. IsPast trace.now here.thread here.event counts.items) }
{
    let mut past = begin(alloc, trace, tables, here)?;
    while pass(alloc, trace, tables, &mut past)? {}
    let Gathering { counts, .. } = past;
    Ok(counts)
}
