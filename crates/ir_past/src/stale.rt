//! The writes that may rest on a read that was written over.

ghost use Rattle.std.specs.Prelude.{◌≡◌, ◌+◌, ◌<◌, length, OnOk, IfOk};
ghost use Rattle.ir_trace.specs.Recorded.{recorded_thread, trace_of};
ghost use Rattle.ir_runs.specs.Coherent.{IsCoherent};
ghost use Rattle.ir_past.specs.Past.{AreStaleWrites};
ghost use Rattle.ir_past.specs.Progress.{Makes, HasRows, HoldsOpen, IsPairAt};

use crate::last_reads::{ReadEntry, StalePair, take_event};
use crate::logs::{events_of, thread_count};
use crate::made::makers_of;
use crate::makers::Makers;
use crate::place::Place;
use crate::stale_write::StaleWrite;
use ir_trace::Trace;
use std::alloc::{AllocError, Global};

// Adds the row of a stale read and write, with the write entry that wrote over what was read.
fn add_row(
    rows: &mut Vec<StaleWrite>,
    trace: &Trace,
    makers: &Makers,
    write: Place,
    pair: StalePair,
) -> Result<(), AllocError>
    requires coherent { IsCoherent (length trace.now.threads) (trace_of trace.now) }
    requires makes { Makes trace.now (length trace.now.threads) 0 makers.now }
    requires pair { IsPairAt (recorded_thread trace.now write.thread).events write.event pair }
    requires rows { HasRows trace.now write.thread write.event rows.old.items }
    ensures { OnOk result (HasRows trace.now write.thread (write.event + 1) rows.new.items) }
{
    match makers.get(pair.object, pair.version) {
        None => Ok(()),
        Some(overwritten_by) => {
            rows.push(StaleWrite {
                thread: write.thread,
                event: write.event,
                object: pair.object,
                written: pair.written,
                read: pair.read,
                version: pair.version,
                overwritten_by,
            })?;
            Ok(())
        }
    }
}

// Takes the event at a place in a thread's log.
fn add_event(
    rows: &mut Vec<StaleWrite>,
    table: &mut [Option<ReadEntry>],
    trace: &Trace,
    makers: &Makers,
    place: Place,
) -> Result<(), AllocError>
    requires coherent { IsCoherent (length trace.now.threads) (trace_of trace.now) }
    requires makes { Makes trace.now (length trace.now.threads) 0 makers.now }
    requires thread { place.thread < length trace.now.threads }
    requires event { place.event < length (recorded_thread trace.now place.thread).events }
    requires table { length table.old ≡ trace.now.objects }
    requires holds { HoldsOpen (recorded_thread trace.now place.thread).events place.event table.old }
    requires rows { HasRows trace.now place.thread place.event rows.old.items }
    ensures table { length table.new ≡ length table.old }
    ensures holds { HoldsOpen (recorded_thread trace.now place.thread).events (place.event + 1) table.new }
    ensures rows { OnOk result (HasRows trace.now place.thread (place.event + 1) rows.new.items) }
{
    let events = events_of(trace, place.thread);
    match take_event(table, events, place.event as usize) {
        Some(pair) => add_row(rows, trace, makers, place, pair),
        None => Ok(()),
    }
}

// Adds the rows of a thread.
#[tactic(auto, using(crate::proofs::Open::holds_open_at_start))]
fn add_thread(
    alloc: Global,
    rows: &mut Vec<StaleWrite>,
    trace: &Trace,
    makers: &Makers,
    thread: u8,
) -> Result<(), AllocError>
    requires coherent { IsCoherent (length trace.now.threads) (trace_of trace.now) }
    requires makes { Makes trace.now (length trace.now.threads) 0 makers.now }
    requires thread { thread < length trace.now.threads }
    requires rows { HasRows trace.now thread 0 rows.old.items }
    ensures { OnOk result (HasRows trace.now (thread + 1) 0 rows.new.items) }
{
    let mut table: Vec<Option<ReadEntry>> = vec![in alloc; None; trace.objects() as usize]?;
    for event in 0..events_of(trace, thread).len() as u32 {
        add_event(rows, &mut table, trace, makers, Place { thread, event })?;
    }
    Ok(())
}

/// The stale writes of a coherent trace, which is what `ir_coherence::first_incoherence` tests, by rising thread and then by
/// event. A stale write is the first entry of an object by a thread after it read the object, where the object's version has risen
/// since. Time and memory are linear in the events, and in the objects times the threads.
///
/// # Errors
/// Out of memory.
#[tactic(auto, using(crate::proofs::Rows::has_rows_at_start))]
pub fn stale_writes(alloc: Global, trace: &Trace) -> Result<Vec<StaleWrite>, AllocError>
    requires { IsCoherent (length trace.now.threads) (trace_of trace.now) }
    ensures { IfOk result (λ rows. AreStaleWrites trace.now rows.items) }
{
    let makers = makers_of(alloc, trace)?;
    let mut rows = Vec::new(alloc);
    for thread in 0..thread_count(trace) {
        add_thread(alloc, &mut rows, trace, &makers, thread)?;
    }
    Ok(rows)
}
