//! Rows whose read entry a thread has passed.

ghost use Rattle.std.specs.Prelude.{◌≡◌, ◌≢◌, ◌<◌, ℕ, true, false, length, slice_index_or, if◌then◌else◌, Some, None, OnOk, IfOk};
ghost use Rattle.ir_weave.specs.Standing.{flat_in, positions};
ghost use Rattle.ir_events.specs.Walk.{IsOnWalk};
ghost use Rattle.ir_stale_run.specs.declared.span.Span.{Span};
ghost use Rattle.ir_stale_run.specs.Watch.{IsGuide, IsSpanOf, IsOpenAt, IsWatch, IsWatchedWrite, NoneDue};

use crate::guide::Guide;
use crate::kept::{Kept, Open};
use crate::span::Span;
use crate::watch::Watch;
use ir_event_walk::{thread_of, words_of};
use ir_replay::State;
use ir_thread::Thread;
use std::alloc::{AllocError, Global};

// A copy of a thread, if threads are copied.
fn copy_of(copies: bool, thread: &Thread) -> Result<Option<Thread>, AllocError>
    ensures { IfOk result (λ copy. copy ≡ (if copies then Some thread.now else None)) }
{
    if copies {
        Ok(Some(thread.copy()?))
    } else {
        Ok(None)
    }
}

// What is kept of a row of thread t, which is behind its read entry.
fn open_one(guide: Guide<'_, '_>, state: &State, t: usize, span: Span) -> Result<Open, AllocError>
    requires guide { IsGuide guide.route.fitted.now guide.rows.now guide.route.ends.now guide.route.code.now }
    requires way { IsOnWalk guide.route.fitted.now guide.route.ends.now state.now }
    requires thread { t < length guide.route.fitted.now.guest.entries }
    requires span { IsSpanOf guide.route.fitted.now guide.rows.now t span }
    requires here { span.read ≡ positions (flat_in guide.route.fitted.now state.now) t }
    ensures open { IfOk result (IsOpenAt guide.entry.copies guide.entry.route.fitted.now guide.entry.rows.now t span.read) }
    ensures row { IfOk result (λ o. o.span ≡ span) }
{
    let kept = Kept {
        thread: copy_of(guide.copies, thread_of(state, t))?,
        object: span.object,
        was: words_of(guide.route.alloc, state, span.object)?,
        now: Vec::new(guide.route.alloc),
        calls: Vec::new(guide.route.alloc),
    };
    Ok(Open { span, kept })
}

// Whether the next row's read entry is the step before position k.
fn is_due(watch: &Watch, k: u64) -> bool
    ensures due { result ≡ true → (watch.now.next < length watch.now.spans.items) × ((d : Span) → (slice_index_or watch.now.spans.items watch.now.next d).read ≡ k) }
    ensures later { result ≡ false → watch.now.next < length watch.now.spans.items → (d : Span) → (slice_index_or watch.now.spans.items watch.now.next d).read ≢ k }
{
    match watch.spans.get(watch.next) {
        Some(span) => span.read == k,
        None => false,
    }
}

// Opens the rows of thread t whose read entry it has just passed.
pub fn open_due(
    guide: Guide<'_, '_>,
    state: &State,
    t: usize,
    watch: &mut Watch,
) -> Result<(), AllocError>
    requires guide { IsGuide guide.route.fitted.now guide.rows.now guide.route.ends.now guide.route.code.now }
    requires way { IsOnWalk guide.route.fitted.now guide.route.ends.now state.now }
    requires thread { t < length guide.route.fitted.now.guest.entries }
    requires watch { IsWatch guide.copies guide.route.fitted.now guide.rows.now t (positions (flat_in guide.route.fitted.now state.now) t) watch.old }
    ensures watch { OnOk result (IsWatch guide.entry.copies guide.entry.route.fitted.now guide.entry.rows.now t (positions (flat_in guide.entry.route.fitted.now state.now) t) watch.new) }
    ensures watched { OnOk result ((r : ℕ) → IsWatchedWrite watch.old r → IsWatchedWrite watch.new r) }
    ensures due { OnOk result (NoneDue (positions (flat_in guide.entry.route.fitted.now state.now) t) watch.new) }
{
    let k = thread_of(state, t).steps();
    'due: while is_due(watch, k) {
        let open = open_one(guide, state, t, watch.spans[watch.next])?;
        watch.opened.push(open)?;
        watch.next += 1;
    }
    Ok(())
}
