//! The lines of a thread, and of all threads.

ghost use Rattle.std.specs.Prelude.{◌≡◌, ◌<◌, ◌++◌, ℕ, List, codes, length, Some, IfOk};
ghost use Rattle.std.specs.String.{string_bytes};
ghost use Rattle.ir_runs.specs.Machine.{EnteredAt};
ghost use Rattle.ir_runs.specs.Run.{At};
ghost use Rattle.ir_runs.specs.declared.access.Access.{Access};
ghost use Rattle.ir_trace.specs.Recorded.{trace_of};
ghost use Rattle.ir_past.specs.Past.{event_at, IsMadeBy};
ghost use Rattle.ir_past.specs.Naming.{maker_text};
ghost use Rattle.ir_diff.specs.Common.{Tells, AreCommon};
ghost use Rattle.ir_diff.specs.Progress.{counts_of_part, AreMakersOf};
ghost use Rattle.ir_diff.specs.Lines.{NamesMaker, IsNextLine, next_line, IsSame, IsParting, IsThreadText, IsDiff};

use crate::counted::next_event;
use crate::lines::{budget_line, common_line, differs_line, end_text, same_line};
use crate::needs::is_ready;
use ir_log::Event;
use ir_past::{Makers, Place, maker_text};
use ir_text::{Text, put_event_text};
use ir_trace::{ThreadTrace, Trace};
use std::alloc::{AllocError, Global};

/// A trace with the write entries of each of its objects.
#[derive(Clone, Copy)]
pub struct Side<'a> {
    /// The trace.
    pub trace: &'a Trace,
    /// Its write entries.
    pub makers: &'a Makers,
}

// What made a version of an object that a trace enters.
fn made_by(side: Side<'_>, object: u8, version: u32) -> Option<Place>
    requires { AreMakersOf side.trace.now side.makers.now }
    ensures { (t i l : ℕ) (a : Access) → At ((trace_of side.entry.trace.now).logs t) i (EnteredAt object a version l) → IsMadeBy side.entry.trace.now object version result }
{
    if version == 0 {
        return None;
    }
    side.makers.get(object, version - 1)
}

// The words of what made a version.
fn by_maker(alloc: Global, made: &Option<Place>) -> Result<String, AllocError>
    ensures { IfOk result (λ s. string_bytes s ≡ codes " by " ++ maker_text made.now) }
{
    let maker = maker_text(alloc, made)?;
    format!(in alloc; " by {maker}")
}

// What made the version that an event of a trace enters; nothing of an event that is no entry.
fn maker_of(alloc: Global, side: Side<'_>, event: Event) -> Result<String, AllocError>
    requires { AreMakersOf side.trace.now side.makers.now }
    ensures { IfOk result (λ s. (t i : ℕ) → event_at side.entry.trace.now t i ≡ Some event → NamesMaker side.entry.trace.now event (string_bytes s)) }
{
    match event {
        Event::Answer(..) => Ok(String::new(alloc)),
        Event::Try { .. } => Ok(String::new(alloc)),
        Event::Read { object, version } => by_maker(alloc, &made_by(side, object, version)),
        Event::Write {
            object,
            version,
            ..
        } => by_maker(alloc, &made_by(side, object, version)),
    }
}

// An event of a trace, and what made the version that it enters.
fn event_part(alloc: Global, side: Side<'_>, event: Event) -> Result<Vec<u8>, AllocError>
    requires { AreMakersOf side.trace.now side.makers.now }
    ensures { IfOk result (λ v. (t i : ℕ) → event_at side.entry.trace.now t i ≡ Some event → IsNextLine side.entry.trace.now t (Some event) v.items) }
{
    let mut text = Text::new();
    put_event_text(&mut text, event);
    let mut part = Vec::from_slice(alloc, text.as_slice())?;
    part.extend_from_slice(maker_of(alloc, side, event)?.as_bytes())?;
    Ok(part)
}

// What a trace has of a thread after the events that `part` counts: the next one, or the thread's end.
fn next_part(alloc: Global, side: Side<'_>, part: &[u32], thread: u8) -> Result<Vec<u8>, AllocError>
    requires makers { AreMakersOf side.trace.now side.makers.now }
    requires thread { thread < length side.trace.now.threads }
    requires size { thread < length part.now }
    ensures { IfOk result (λ v. IsNextLine side.entry.trace.now thread (event_at side.entry.trace.now thread (counts_of_part part.now thread)) v.items) }
{
    match next_event(side.trace, part, thread as usize) {
        Some(event) => event_part(alloc, side, event),
        None => {
            let end = end_text(alloc, &side.trace.threads()[thread as usize])?;
            Vec::from_slice(alloc, end.as_bytes())
        }
    }
}

// The line of what the trace of a number has there.
fn next_line(
    alloc: Global,
    number: u8,
    side: Side<'_>,
    part: &[u32],
    thread: u8,
) -> Result<Vec<u8>, AllocError>
    requires makers { AreMakersOf side.trace.now side.makers.now }
    requires thread { thread < length side.trace.now.threads }
    requires size { thread < length part.now }
    ensures { IfOk result
        (λ v. (text : List ℕ)
        × IsNextLine side.entry.trace.now thread (event_at side.entry.trace.now thread (counts_of_part part.now thread)) text
        × (v.items ≡ next_line number text)) }
{
    let mut line = Vec::from_slice(alloc, format!(in alloc; "{number} ")?.as_bytes())?;
    line.extend_from_slice(&next_part(alloc, side, part, thread)?)?;
    line.push(b'\n')?;
    Ok(line)
}

// Whether all events of a thread are among its first `count`, and its ends are the same.
fn is_same(a: &ThreadTrace, b: &ThreadTrace, count: u32) -> bool
    ensures { Tells result (IsSame a.now b.now count) }
{
    a.log().events().len() == count as usize
        && b.log().events().len() == count as usize
        && a.end() == b.end()
        && a.steps() == b.steps()
}

// The lines of a thread that differs.
fn parting(
    alloc: Global,
    a: Side<'_>,
    b: Side<'_>,
    part: &[u32],
    thread: u8,
) -> Result<Vec<u8>, AllocError>
    requires first { AreMakersOf a.trace.now a.makers.now }
    requires second { AreMakersOf b.trace.now b.makers.now }
    requires thread { thread < length part.now }
    requires in_first { thread < length a.trace.now.threads }
    requires in_second { thread < length b.trace.now.threads }
    ensures { IfOk result (λ v. IsParting a.entry.trace.now b.entry.trace.now (counts_of_part part.now) thread v.items) }
{
    let first = is_ready(alloc, a.trace, a.makers, part, thread)?;
    let second = is_ready(alloc, b.trace, b.makers, part, thread)?;
    let line = differs_line(alloc, thread, part[thread as usize], first, second)?;
    let mut text = Vec::from_slice(alloc, line.as_bytes())?;
    text.extend_from_slice(&next_line(alloc, 1, a, part, thread)?)?;
    text.extend_from_slice(&next_line(alloc, 2, b, part, thread)?)?;
    Ok(text)
}

// The lines of a thread.
fn thread_text(
    alloc: Global,
    a: Side<'_>,
    b: Side<'_>,
    part: &[u32],
    thread: u8,
) -> Result<Vec<u8>, AllocError>
    requires first { AreMakersOf a.trace.now a.makers.now }
    requires second { AreMakersOf b.trace.now b.makers.now }
    requires thread { thread < length part.now }
    requires in_first { thread < length a.trace.now.threads }
    requires in_second { thread < length b.trace.now.threads }
    ensures { IfOk result (λ v. IsThreadText a.entry.trace.now b.entry.trace.now (counts_of_part part.now) thread v.items) }
{
    let number = thread as usize;
    if is_same(
        &a.trace.threads()[number],
        &b.trace.threads()[number],
        part[number],
    ) {
        Vec::from_slice(alloc, same_line(alloc, thread)?.as_bytes())
    } else {
        parting(alloc, a, b, part, thread)
    }
}

/// The lines of two traces with this common part.
///
/// # Errors
/// Out of memory.
#[tactic(auto, using(ir_trace::proofs::CallerLemmas::recorded_threads_within))]
pub fn diff_text(
    alloc: Global,
    a: Side<'_>,
    b: Side<'_>,
    part: &[u32],
) -> Result<Vec<u8>, AllocError>
    requires first { AreMakersOf a.trace.now a.makers.now }
    requires second { AreMakersOf b.trace.now b.makers.now }
    requires same { length a.trace.now.threads ≡ length b.trace.now.threads }
    requires common { AreCommon a.trace.now b.trace.now part.now }
    ensures { IfOk result (λ v. IsDiff a.entry.trace.now b.entry.trace.now v.items) }
{
    let mut text = Vec::from_slice(alloc, common_line(alloc, part)?.as_bytes())?;
    text.extend_from_slice(budget_line(alloc, a.trace.budget(), b.trace.budget())?.as_bytes())?;
    for thread in 0..part.len() as u8 {
        text.extend_from_slice(&thread_text(alloc, a, b, part, thread)?)?;
    }
    Ok(text)
}
