//! A thread that goes on by itself, and the pcs of its events on the way.

ghost use Rattle.std.specs.Prelude.{◌≡◌, ◌<◌, ◌≤◌, true, false, length, slice_index_or, IfOk};
ghost use Rattle.ir_flat.specs.Flat.{idle};
ghost use Rattle.ir_weave.specs.Standing.{flat_in, positions};
ghost use Rattle.ir_weave.specs.Stepping.{RestsAtTarget};
ghost use Rattle.ir_events.specs.Walk.{AreEnds, IsOnWalk, IsFurther, IsListedEvent};

use crate::lists::ThreadPcs;
use ir_cut::Cut;
use ir_fit::Fitted;
use ir_object::OpenGate;
use ir_replay::{State, advance_alone};
use ir_thread::Thread;
use std::alloc::AllocError;

// Thread t.
fn thread_of(state: &State, t: usize) -> &Thread
    requires { t < length state.now.threads }
    ensures { result.now ≡ slice_index_or state.now.threads t idle }
{
    &state.threads()[t]
}

// Takes thread t on by itself, at most to its position k. Whether it is there.
fn go_to(fitted: &Fitted, state: State, t: usize, ends: &Cut, k: u64) -> (State, bool)
    requires way { IsOnWalk fitted.now ends.now state }
    requires ends { AreEnds fitted.now ends.now }
    requires thread { t < length fitted.now.guest.entries }
    requires ahead { positions (flat_in fitted.now state) t ≤ k }
    ensures way { IsOnWalk fitted.now ends.now result.0 }
    ensures further { IsFurther fitted.now t state result.0 }
    ensures within { positions (flat_in fitted.now result.0) t ≤ k }
    ensures there { result.1 ≡ true → positions (flat_in fitted.now result.0) t ≡ k }
    ensures rests { result.1 ≡ false → RestsAtTarget fitted.now ends.now (flat_in fitted.now result.0) t }
{
    let most = k - thread_of(&state, t).steps();
    let (state, taken) = advance_alone(fitted, state, t, ends, most, &OpenGate);
    (state, taken == most)
}

// Takes thread t on by itself as far as it can, and lists the pc at each of its events on the way.
pub fn visit_thread(
    fitted: &Fitted,
    state: State,
    t: usize,
    ends: &Cut,
    list: &mut ThreadPcs,
) -> Result<State, AllocError>
    requires way { IsOnWalk fitted.now ends.now state }
    requires ends { AreEnds fitted.now ends.now }
    requires thread { t < length fitted.now.guest.entries }
    requires listed { IsListedEvent fitted.now t (positions (flat_in fitted.now state) t) list.old }
    ensures way { IfOk result (IsOnWalk fitted.now ends.now) }
    ensures further { IfOk result (IsFurther fitted.now t state) }
    ensures listed { IfOk result (λ s. IsListedEvent fitted.now t (positions (flat_in fitted.now s) t) list.new) }
    ensures rests { IfOk result (λ s. RestsAtTarget fitted.now ends.now (flat_in fitted.now s) t) }
{
    let mut state = state;
    let entries = fitted.entries(t);
    for i in list.len()..entries.len() {
        let (here, is_there) = go_to(fitted, state, t, ends, entries[i]);
        state = here;
        if !is_there {
            return Ok(state);
        }
        list.add(thread_of(&state, t).mach().pc())?;
    }
    let (state, _is_there) = go_to(fitted, state, t, ends, ends.position(t));
    Ok(state)
}
