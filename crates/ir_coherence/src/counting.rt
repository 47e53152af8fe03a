//! The pass over a trace that counts its entries.

ghost use Rattle.std.specs.Prelude.{◌≡◌, ◌<◌, ◌≤◌, length, map, OnOk, IfOk, vec_len};
ghost use Rattle.std.specs.List.{AllByRecursion};
ghost use Rattle.ir_log.specs.Logging.{label_of};
ghost use Rattle.ir_trace.specs.Recorded.{trace_of};
ghost use Rattle.ir_coherence.specs.Counting.{MayStand, CountsMore, CountsAll, HasRoom, AreSettled};

use crate::entry_counts::EntryCounts;
use ir_log::Event;
use ir_trace::Trace;
use std::alloc::{AllocError, Global};

// For each object one more than its write entries. All versions of a coherent trace are below that.
fn limits(alloc: Global, trace: &Trace) -> Result<Vec<usize>, AllocError>
    ensures { IfOk result (λ l. vec_len l ≡ trace.now.objects) }
{
    let mut limits = vec![in alloc; 1usize; trace.objects() as usize]?;
    for thread in trace.threads() {
        add_writes(&mut limits, thread.log().events());
    }
    Ok(limits)
}

// One more for each write entry, at its object.
fn add_writes(limits: &mut [usize], events: &[Event])
    ensures { length limits.new ≡ length limits.old }
{
    for logged in events {
        if let Event::Write { object, .. } = logged {
            if let Some(limit) = limits.get_mut(*object as usize) {
                *limit = limit.saturating_add(1);
            }
        }
    }
}

// Counts the events of one log.
fn add_log(counts: &mut EntryCounts, events: &[Event]) -> Result<(), AllocError>
    requires objects { AllByRecursion (MayStand (vec_len counts.old.objects)) events.now }
    requires room { HasRoom counts.old (length events.now) }
    ensures { OnOk result (CountsMore counts.old counts.new (map label_of events.now)) }
{
    for event in events {
        counts.add(*event)?;
    }
    Ok(())
}

/// The entries of the whole trace, counted.
///
/// # Errors
/// Out of memory.
pub fn count_entries(alloc: Global, trace: &Trace) -> Result<EntryCounts, AllocError>
    ensures counts { IfOk result (CountsAll (length trace.now.threads) (trace_of trace.now)) }
    ensures settled { IfOk result AreSettled }
{
    let limits = limits(alloc, trace)?;
    let mut counts = EntryCounts::new(alloc, &limits)?;
    for thread in trace.threads() {
        add_log(&mut counts, thread.log().events())?;
    }
    counts.settle()?;
    Ok(counts)
}
