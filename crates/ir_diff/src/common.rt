//! The greatest common part of two traces.

ghost use Rattle.std.specs.Prelude.{◌≡◌, ◌<◌, ℕ, length, IfOk, true, false};
ghost use Rattle.ir_thread.specs.State.{most_events};
ghost use Rattle.ir_trace.specs.Recorded.{Recorded};
ghost use Rattle.ir_past.specs.Answers.{AreCoherent};
ghost use Rattle.ir_diff.specs.Common.{Tells, HasMaker, IsMade, CanJoin, AreCommon};
ghost use Rattle.ir_diff.specs.Progress.{counts_of_part, AreMakersOf, IsBuiltTable, left_over};

use crate::counted::{is_counted, next_event};
use ir_log::Event;
use ir_past::{Makers, makers_of};
use ir_trace::Trace;
use std::alloc::{AllocError, Global};

// Whether the maker of a version is among the first events.
fn has_maker(makers: &Makers, part: &[u32], object: u8, version: u32) -> bool
    ensures { (a : Recorded) → AreMakersOf a makers.now → Tells result (HasMaker a (counts_of_part part.now) object version) }
{
    if version == 0 {
        return true;
    }
    match makers.get(object, version - 1) {
        Some(place) => is_counted(part, place),
        None => false,
    }
}

// Whether the version that an event enters has its maker among the first events.
fn is_made(makers: &Makers, part: &[u32], event: Event) -> bool
    ensures { (a : Recorded) → AreMakersOf a makers.now → Tells result (IsMade a (counts_of_part part.now) event) }
{
    match event {
        Event::Read { object, version } => has_maker(makers, part, object, version),
        Event::Write {
            object,
            version,
            ..
        } => has_maker(makers, part, object, version),
        Event::Answer(..) => true,
        Event::Try { .. } => true,
    }
}

// Whether the next event of a thread can follow.
fn can_follow(a: &Trace, b: &Trace, makers: &Makers, part: &[u32], thread: usize) -> bool
    requires first { thread < length a.now.threads }
    requires second { thread < length b.now.threads }
    requires size { thread < length part.now }
    requires makers { AreMakersOf a.now makers.now }
    ensures tells { Tells result (CanJoin a.now b.now (counts_of_part part.now) thread) }
    ensures few { result ≡ true → counts_of_part part.now thread < most_events }
{
    let Some(event) = next_event(a, part, thread) else {
        return false;
    };
    match next_event(b, part, thread) {
        Some(other) => event == other && is_made(makers, part, event),
        None => false,
    }
}

// Adds the next event of each thread that can follow; whether any could.
fn pass(a: &Trace, b: &Trace, makers: &Makers, part: &mut [u32]) -> bool
    requires same { length a.now.threads ≡ length b.now.threads }
    requires makers { AreMakersOf a.now makers.now }
    requires built { IsBuiltTable a.now b.now part.old }
    ensures built { IsBuiltTable a.now b.now part.new }
    ensures less { result ≡ true → left_over a.now part.new < left_over a.now part.old }
    ensures rests { result ≡ false → (t : ℕ) → CanJoin a.now b.now (counts_of_part part.new) t → ⊥ }
{
    let mut moved = false;
    for thread in 0..part.len() {
        if can_follow(a, b, makers, part, thread) {
            part[thread] += 1;
            moved = true;
        }
    }
    moved
}

/// How many first events of each thread two coherent traces of as many threads have in common: the same events, each entry of a version
/// that the same event of the common part made. It is the greatest part that can be put together so, an event after the other. Time is linear
/// in the events, times the threads.
///
/// # Errors
/// Out of memory.
pub fn common_part(alloc: Global, a: &Trace, b: &Trace) -> Result<Vec<u32>, AllocError>
    requires coherent { AreCoherent a.now }
    requires same { length a.now.threads ≡ length b.now.threads }
    ensures { IfOk result (λ c. AreCommon a.now b.now c.items) }
{
    let makers = makers_of(alloc, a)?;
    let mut part = vec![in alloc; 0u32; a.threads().len()]?;
    'passes: while pass(a, b, &makers, &mut part) {}
    Ok(part)
}
