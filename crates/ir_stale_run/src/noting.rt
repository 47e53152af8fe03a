//! The calls of a thread, as its open rows keep them.

ghost use Rattle.std.specs.Prelude.{◌≡◌, ◌-◌, ◌<◌, ◌≤◌, ℕ, length, slice_index_or, option_to_list, OnOk};
ghost use Rattle.ir_weave.specs.Standing.{flat_in, positions};
ghost use Rattle.ir_events.specs.Walk.{IsOnWalk};
ghost use Rattle.ir_event_walk.specs.Calls.{AreCalls};
ghost use Rattle.ir_stale_run.specs.Watch.{IsGuide, IsOpenAt, IsCallMore};
ghost use Rattle.ir_stale_run.specs.declared.kept.Open.{Open};

use crate::guide::Guide;
use crate::kept::Open;
use ir_event_walk::{Exchange, thread_of, words_of};
use ir_replay::State;
use std::alloc::AllocError;

// Adds a call to an open row, if there was one.
fn note_call(opened: &mut Open, call: Option<Exchange>) -> Result<(), AllocError>
    ensures { OnOk result (IsCallMore opened.old opened.new (option_to_list call)) }
{
    match call {
        Some(call) => {
            opened.kept.calls.push(call)?;
            Ok(())
        }
        None => Ok(()),
    }
}

// Adds the call of the steps of thread t from this position on, if there was one, to an open row, and the object's words if the thread is
// behind its write entry.
fn note_one(
    guide: Guide<'_, '_>,
    state: &State,
    t: usize,
    from: u64,
    call: Option<Exchange>,
    opened: &mut Open,
) -> Result<(), AllocError>
    requires guide { IsGuide guide.route.fitted.now guide.rows.now guide.route.ends.now guide.route.code.now }
    requires way { IsOnWalk guide.route.fitted.now guide.route.ends.now state.now }
    requires thread { t < length guide.route.fitted.now.guest.entries }
    requires up { from ≤ positions (flat_in guide.route.fitted.now state.now) t }
    requires calls { AreCalls guide.route.fitted.now t from (positions (flat_in guide.route.fitted.now state.now) t - from) (option_to_list call) }
    requires opened { IsOpenAt guide.copies guide.route.fitted.now guide.rows.now t from opened.old }
    requires within { positions (flat_in guide.route.fitted.now state.now) t ≤ opened.old.span.end }
    requires write { from < opened.old.span.write → positions (flat_in guide.route.fitted.now state.now) t ≤ opened.old.span.write }
    ensures opened { OnOk result (IsOpenAt guide.entry.copies guide.entry.route.fitted.now guide.entry.rows.now t (positions (flat_in guide.entry.route.fitted.now state.now) t) opened.new) }
    ensures same { OnOk result (opened.new.span ≡ opened.old.span) }
{
    note_call(opened, call)?;
    if opened.span.write == thread_of(state, t).steps() {
        opened.kept.now = words_of(guide.route.alloc, state, opened.span.object)?;
    }
    Ok(())
}

// So to each open row.
pub fn note(
    guide: Guide<'_, '_>,
    state: &State,
    t: usize,
    from: u64,
    call: Option<Exchange>,
    opened: &mut [Open],
) -> Result<(), AllocError>
    requires guide { IsGuide guide.route.fitted.now guide.rows.now guide.route.ends.now guide.route.code.now }
    requires way { IsOnWalk guide.route.fitted.now guide.route.ends.now state.now }
    requires thread { t < length guide.route.fitted.now.guest.entries }
    requires up { from ≤ positions (flat_in guide.route.fitted.now state.now) t }
    requires calls { 0 < length opened.old → AreCalls guide.route.fitted.now t from (positions (flat_in guide.route.fitted.now state.now) t - from) (option_to_list call) }
    requires opened { (i : ℕ) (d : Open) → i < length opened.old → IsOpenAt guide.copies guide.route.fitted.now guide.rows.now t from (slice_index_or opened.old i d) }
    requires within { (i : ℕ) (d : Open) → i < length opened.old → positions (flat_in guide.route.fitted.now state.now) t ≤ (slice_index_or opened.old i d).span.end }
    requires write { (i : ℕ) (d : Open) → i < length opened.old → from < (slice_index_or opened.old i d).span.write
        → positions (flat_in guide.route.fitted.now state.now) t ≤ (slice_index_or opened.old i d).span.write }
    ensures size { length opened.new ≡ length opened.old }
    ensures opened { OnOk result
        ((i : ℕ) (d : Open) → i < length opened.old
        → IsOpenAt guide.entry.copies guide.entry.route.fitted.now guide.entry.rows.now t
        (positions (flat_in guide.entry.route.fitted.now state.now) t) (slice_index_or opened.new i d)) }
    ensures same { OnOk result ((i : ℕ) (d : Open) → i < length opened.old → (slice_index_or opened.new i d).span ≡ (slice_index_or opened.old i d).span) }
{
    for i in 0..opened.len() {
        note_one(guide, state, t, from, call, &mut opened[i])?;
    }
    Ok(())
}
