//! A thread that goes on by itself, and its rows on the way.

ghost use Rattle.std.specs.Prelude.{◌≡◌, ◌⊎◌, ◌<◌, ◌≤◌, ℕ, true, false, length, slice_get, slice_index_or, Some, IfOk, OnOk};
ghost use Rattle.ir_weave.specs.Standing.{flat_in, positions};
ghost use Rattle.ir_weave.specs.Stepping.{RestsAtTarget};
ghost use Rattle.ir_stale_run.specs.declared.found.Found.TheVariants.{Unknown};
ghost use Rattle.ir_past.specs.declared.stale_write.StaleWrite.{StaleWrite};
ghost use Rattle.ir_events.specs.Walk.{IsOnWalk, IsFurther};
ghost use Rattle.ir_stale_run.specs.Watch.{IsFoundAs, IsGuide, IsWatch, IsWatchedWrite, AddsRests};

use crate::closing::close_due;
use crate::found::Found;
use crate::guide::Guide;
use crate::noting::note;
use crate::opening::open_due;
use crate::stops::next_stop;
use crate::watch::Watch;
use ir_event_walk::{take_steps, thread_of};
use ir_replay::State;
use std::alloc::AllocError;

// Takes thread t on by itself, by at most one call where a row is open. Whether it took a step.
fn stretch(
    guide: Guide<'_, '_>,
    state: State,
    t: usize,
    watch: &mut Watch,
    rests: &mut [Found],
) -> Result<(State, bool), AllocError>
    requires guide { IsGuide guide.route.fitted.now guide.rows.now guide.route.ends.now guide.route.code.now }
    requires way { IsOnWalk guide.route.fitted.now guide.route.ends.now state }
    requires thread { t < length guide.route.fitted.now.guest.entries }
    requires watch { IsWatch guide.copies guide.route.fitted.now guide.rows.now t (positions (flat_in guide.route.fitted.now state) t) watch.old }
    requires size { length rests.old ≡ length guide.rows.now }
    ensures way { IfOk result (λ r. IsOnWalk guide.entry.route.fitted.now guide.entry.route.ends.now r.0) }
    ensures further { IfOk result (λ r. IsFurther guide.entry.route.fitted.now t state r.0) }
    ensures watch { IfOk result (λ r. IsWatch guide.entry.copies guide.entry.route.fitted.now guide.entry.rows.now t (positions (flat_in guide.entry.route.fitted.now r.0) t) watch.new) }
    ensures adds { OnOk result (AddsRests guide.entry.copies guide.entry.route.fitted.now guide.entry.rows.now rests.old rests.new) }
    ensures found { OnOk result
        ((r : ℕ) (x : StaleWrite) → slice_get guide.entry.rows.now r ≡ Some x → IsWatchedWrite watch.old r
        → IsWatchedWrite watch.new r
        ⊎ IsFoundAs guide.entry.copies guide.entry.route.fitted.now x (slice_index_or rests.new r Unknown)) }
    ensures moved { IfOk result (λ r. r.1 ≡ true → positions (flat_in guide.entry.route.fitted.now state) t < positions (flat_in guide.entry.route.fitted.now r.0) t) }
    ensures rests { IfOk result (λ r. r.1 ≡ false → RestsAtTarget guide.entry.route.fitted.now guide.entry.route.ends.now (flat_in guide.entry.route.fitted.now r.0) t) }
{
    open_due(guide, &state, t, watch)?;
    let from = thread_of(&state, t).steps();
    close_due(guide, t, from, watch, rests);
    let most = next_stop(watch, from, guide.route.ends.position(t)) - from;
    let keeps = !watch.opened.is_empty();
    let (state, taken) = take_steps(guide.route, state, t, most, keeps);
    note(guide, &state, t, from, taken.call, &mut watch.opened)?;
    Ok((state, taken.steps > 0))
}

// Takes thread t on by itself as far as it can.
pub fn visit_thread(
    guide: Guide<'_, '_>,
    state: State,
    t: usize,
    watch: &mut Watch,
    rests: &mut [Found],
) -> Result<State, AllocError>
    requires guide { IsGuide guide.route.fitted.now guide.rows.now guide.route.ends.now guide.route.code.now }
    requires way { IsOnWalk guide.route.fitted.now guide.route.ends.now state }
    requires thread { t < length guide.route.fitted.now.guest.entries }
    requires watch { IsWatch guide.copies guide.route.fitted.now guide.rows.now t (positions (flat_in guide.route.fitted.now state) t) watch.old }
    requires size { length rests.old ≡ length guide.rows.now }
    ensures way { IfOk result (IsOnWalk guide.entry.route.fitted.now guide.entry.route.ends.now) }
    ensures further { IfOk result (IsFurther guide.entry.route.fitted.now t state) }
    ensures watch { IfOk result (λ s. IsWatch guide.entry.copies guide.entry.route.fitted.now guide.entry.rows.now t (positions (flat_in guide.entry.route.fitted.now s) t) watch.new) }
    ensures adds { OnOk result (AddsRests guide.entry.copies guide.entry.route.fitted.now guide.entry.rows.now rests.old rests.new) }
    ensures found { OnOk result
        ((r : ℕ) (x : StaleWrite) → slice_get guide.entry.rows.now r ≡ Some x → IsWatchedWrite watch.old r
        → IsWatchedWrite watch.new r
        ⊎ IsFoundAs guide.entry.copies guide.entry.route.fitted.now x (slice_index_or rests.new r Unknown)) }
    ensures rests { IfOk result (λ s. RestsAtTarget guide.entry.route.fitted.now guide.entry.route.ends.now (flat_in guide.entry.route.fitted.now s) t) }
{
    let mut state = state;
    'stretches: loop {
        let (there, moved) = stretch(guide, state, t, watch, rests)?;
        state = there;
        if !moved {
            return Ok(state);
        }
    }
}
