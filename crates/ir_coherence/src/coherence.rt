//! The first event that breaks a trace's coherence.

ghost use Rattle.std.specs.Prelude.{◌≡◌, ◌≤◌, length, IfOk, IfSome, IfNone};
ghost use Rattle.ir_thread.specs.State.{most_events};
ghost use Rattle.ir_trace.specs.Recorded.{trace_of};
ghost use Rattle.ir_runs.specs.Coherent.{IsCoherent};
ghost use Rattle.ir_coherence.specs.Counting.{CountsAll, AreSettled, reads_of, writes_of, FirstCause, NoCause};
ghost use Rattle.ir_coherence.specs.Breaking.{IsFirstBreak};

use crate::cause::Cause;
use crate::counting::count_entries;
use crate::entry_counts::EntryCounts;
use crate::incoherence::Incoherence;
use ir_log::Event;
use ir_trace::Trace;
use std::alloc::{AllocError, Global};

// The first event of a log that breaks coherence, and its first cause.
fn first_in(counts: &EntryCounts, events: &[Event]) -> Option<(u32, Cause)>
    requires few { length events.now ≤ most_events }
    requires settled { AreSettled counts.now }
    ensures found { IfSome result (λ f. FirstCause (reads_of counts.now) (writes_of counts.now) events.now f.0 f.1) }
    ensures none { IfNone result (NoCause (reads_of counts.now) (writes_of counts.now) events.now) }
{
    for place in 0..events.len() {
        if let Some(cause) = counts.cause_of(events[place]) {
            return Some((place as u32, cause));
        }
    }
    None
}

// The first event of the trace that breaks coherence, and its first cause.
fn first_among(counts: &EntryCounts, trace: &Trace) -> Option<Incoherence>
    requires counts { CountsAll (length trace.now.threads) (trace_of trace.now) counts.now }
    requires settled { AreSettled counts.now }
    ensures coherent { IfNone result (IsCoherent (length trace.now.threads) (trace_of trace.now)) }
    ensures breaks { IfSome result (λ f. IsFirstBreak (length trace.now.threads) (trace_of trace.now) f.thread f.event f.cause) }
{
    let threads = trace.threads();
    for number in 0..threads.len() {
        if let Some((event, cause)) = first_in(counts, threads[number].log().events()) {
            return Some(Incoherence {
                thread: number as u8,
                event,
                cause,
            });
        }
    }
    None
}

/// The first event that breaks a trace's coherence, by thread and then by place in its log, and its first cause; none
/// if the trace is coherent. A trace is coherent under three conditions. Each entry at a version after the first has the
/// write entry that made its version. No two write entries of an object are at one version. Each write entry names as many
/// readers as there are read entries of its version in the trace. Time and memory are linear in the events where their
/// versions are no more than the write entries; the others are sorted, and looking one up takes the logarithm of their
/// number at most.
///
/// # Errors
/// Out of memory.
pub fn first_incoherence(alloc: Global, trace: &Trace) -> Result<Option<Incoherence>, AllocError>
    ensures coherent { IfOk result (λ found. IfNone found (IsCoherent (length trace.now.threads) (trace_of trace.now))) }
    ensures breaks { IfOk result (λ found. IfSome found (λ f. IsFirstBreak (length trace.now.threads) (trace_of trace.now) f.thread f.event f.cause)) }
{
    let counts = count_entries(alloc, trace)?;
    Ok(first_among(&counts, trace))
}
