//! Where the events of a trace are among the steps of its run, and where the threads leave what they entered.

ghost use Rattle.std.specs.Prelude.{◌≡◌, ◌<◌, ◌≤◌, ◌↔◌, ℕ, None, length, IsTrue, IfSome, IfNone, MatchOption, IfOk};
ghost use Rattle.std.specs.List.Sorted.{IsNonDecreasingBy, IsPartitionPoint};
ghost use Rattle.std.specs.String.{string_bytes};
ghost use Rattle.ir_events.specs.Events.{event_entry};
ghost use Rattle.ir_fit.specs.declared.leave.Leave.{Leave};
ghost use Rattle.ir_past.specs.Past.{entered};
ghost use Rattle.ir_opened.specs.Positions.{IsInside, EntersAt, IsLeaveAs, IsFirstLeaveAs, NoLeaveAs, LeavesAfter, IsLeaveOf, step_if};

use ir_fit::{Fitted, Leave};
use ir_log::Event;
use ir_past::{Place, event_of};
use ir_runs::Access;
use std::alloc::{AllocError, Global};

// What was entered: an object, for such access, at such a version.
#[derive(Clone, Copy)]
struct Stay {
    object: u8,
    access: Access,
    version: u32,
}

/// How many steps a thread took before the one that logged an event.
pub fn step_of(fitted: &Fitted, place: Place) -> u64
    requires { IsInside fitted.now place.thread place.event }
    ensures { result ≡ event_entry fitted.now place.thread place.event }
{
    fitted.entries(place.thread as usize)[place.event as usize]
}

// What an event enters; none, if it is no entry.
fn stay_of(event: Event) -> Option<Stay>
    ensures { MatchOption result (entered event ≡ None) (λ s. EntersAt event s.object s.access s.version) }
{
    match event {
        Event::Read { object, version } => Some(Stay {
            object,
            access: Access::Reading,
            version,
        }),
        Event::Write {
            object,
            version,
            ..
        } => Some(Stay {
            object,
            access: Access::Writing,
            version,
        }),
        Event::Answer(_, _) | Event::Try { .. } => None,
    }
}

// How many of a thread's leaves are at positions below this one.
fn count_below(leaves: &[Leave], from: u64) -> usize
    requires { IsNonDecreasingBy (λ (l : Leave). l.position) leaves.now }
    ensures bound { result ≤ length leaves.now }
    ensures point { IsPartitionPoint (λ (l : Leave). l.position < from) (λ l. from ≤ l.position) leaves.now result }
{
    leaves.partition_point(|leave| leave.position < from)
}

// Whether a leave is of what was entered.
fn is_of(leave: &Leave, stay: Stay) -> bool
    ensures { IsTrue result ↔ IsLeaveAs leave.now stay.object stay.access stay.version }
{
    leave.object == stay.object && leave.access == stay.access && leave.version == stay.version
}

// The position of the first of these leaves, from one of them on, that is of what was entered.
fn first_of(leaves: &[Leave], start: usize, stay: Stay) -> Option<u64>
    ensures found { IfSome result (IsFirstLeaveAs leaves.now start stay.object stay.access stay.version) }
    ensures none { IfNone result (NoLeaveAs leaves.now start (length leaves.now) stay.object stay.access stay.version) }
{
    for number in start..leaves.len() {
        if is_of(&leaves[number], stay) {
            return Some(leaves[number].position);
        }
    }
    None
}

/// How many steps the thread of an entry took before the one by which it left the object. There is none for an event that is no entry.
/// Time is logarithmic in the leaves of the thread, and linear in those that come before this one behind the entry.
pub fn leave_of(fitted: &Fitted, place: Place) -> Option<u64>
    requires { IsInside fitted.now place.thread place.event }
    ensures found { IfSome result (IsLeaveOf fitted.now place.thread place.event) }
    ensures none { IfNone result ((k : ℕ) → LeavesAfter fitted.now place.thread place.event k → ⊥) }
{
    fitted.known();
    let stay = stay_of(event_of(fitted.trace(), place))?;
    let leaves = fitted.leaves(place.thread as usize);
    let start = count_below(leaves, step_of(fitted, place) + 1);
    first_of(leaves, start, stay)
}

/// How many steps come before one, in words behind what is said of it; nothing, if there is none.
///
/// # Errors
/// Out of memory.
pub fn step_text(alloc: Global, step: Option<u64>) -> Result<String, AllocError>
    ensures { IfOk result (λ s. string_bytes s ≡ step_if step) }
{
    match step {
        None => String::from_str(alloc, ""),
        Some(step) => format!(in alloc; " step {step}"),
    }
}
