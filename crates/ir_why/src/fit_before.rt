//! What is before an event of a run, by the steps of the threads.

ghost use Rattle.std.specs.Prelude.{◌≡◌, ◌<◌, ◌≤◌, ◌+◌, ℕ, length, IfOk};
ghost use Rattle.std.specs.List.Sorted.{IsNonDecreasingBy, IsPartitionPoint};
ghost use Rattle.ir_cut.specs.Positions.{cut_of};
ghost use Rattle.ir_events.specs.Events.{event_entry};
ghost use Rattle.ir_opened.specs.Positions.{IsInside};
ghost use Rattle.ir_why.specs.Waits.{AreBefore, IsPastIn, itself};

use ir_cut::Cut;
use ir_fit::Fitted;
use ir_past::Place;
use std::alloc::{AllocError, Global};

// How many of these steps are before this one.
fn count_below(steps: &[u64], step: u64) -> usize
    requires { IsNonDecreasingBy (λ (i : ℕ). i) steps.now }
    ensures bound { result ≤ length steps.now }
    ensures point { IsPartitionPoint (λ (i : ℕ). i < step) (λ i. step ≤ i) steps.now result }
{
    steps.partition_point(|own| *own < step)
}

/// How many events a thread logs before a step of it. Time is logarithmic in its events.
pub fn events_before(fitted: &Fitted, thread: usize, step: u64) -> u32
    requires { thread < length fitted.now.guest.entries }
    ensures { AreBefore fitted.now thread step result }
{
    fitted.known();
    count_below(fitted.entries(thread), step) as u32
}

// How many events of a thread are steps of a cut that has this event, which is left out.
fn count_in(fitted: &Fitted, here: Place, cut: &Cut, thread: usize) -> u32
    requires thread { thread < length fitted.now.guest.entries }
    requires size { length cut.now ≡ length fitted.now.guest.entries }
    requires inside { IsInside fitted.now here.thread here.event }
    requires has { event_entry fitted.now here.thread here.event < cut_of cut.now here.thread }
    ensures { AreBefore fitted.now thread (cut_of cut.now thread) (result + itself here thread) }
{
    let count = events_before(fitted, thread, cut.position(thread));
    if thread == here.thread as usize {
        count - 1
    } else {
        count
    }
}

/// For each thread how many of its events are steps of a cut that has this event, which is left out.
///
/// # Errors
/// Out of memory.
pub fn past_in(
    alloc: Global,
    fitted: &Fitted,
    here: Place,
    cut: &Cut,
) -> Result<Vec<u32>, AllocError>
    requires size { length cut.now ≡ length fitted.now.guest.entries }
    requires inside { IsInside fitted.now here.thread here.event }
    requires has { event_entry fitted.now here.thread here.event < cut_of cut.now here.thread }
    ensures { IfOk result (λ counts. IsPastIn fitted.now here cut.now counts.items) }
{
    let mut counts = Vec::new(alloc);
    for thread in 0..cut.positions().len() {
        counts.push(count_in(fitted, here, cut, thread))?;
    }
    Ok(counts)
}
