//! A thread that goes on alone, and its call.

ghost use Rattle.std.specs.Prelude.{◌≡◌, ◌<◌, ◌≤◌, [], true, length, option_to_list, Some, None, false};
ghost use Rattle.ir_thread.specs.State.{a0, reply_of};
ghost use Rattle.ir_weave.specs.Standing.{flat_in, positions};
ghost use Rattle.ir_weave.specs.Stepping.{HasGone, RestsAtTarget};
ghost use Rattle.ir_events.specs.Walk.{IsOnWalk};
ghost use Rattle.ir_event_walk.specs.Calls.{call_by, AreCalls};
ghost use Rattle.ir_event_walk.specs.Route.{IsRoute};
ghost use Rattle.ir_event_walk.specs.declared.exchange.Exchange as exchange;

use crate::exchange::Exchange;
use crate::route::Route;
use crate::states::thread_of;
use ir_object::OpenGate;
use ir_replay::{State, advance_alone, advance_unmarked};
use ir_thread::{A0, Ask, Reply, Thread};

/// How far a thread has gone on, and the call on the way, if there was one.
#[derive(Clone, Copy)]
pub struct Stretch {
    /// How many steps it took.
    pub steps: u64,
    /// The call among them.
    pub call: Option<Exchange>,
}

// What was asked and answered in a step, by the thread after it; none, if the step was private.
fn call_of(asked: Ask, after: &Thread) -> Option<Exchange>
    ensures { option_to_list result ≡ call_by asked (reply_of asked (a0 after.now)) }
{
    let reply = match asked {
        Ask::Private => return None,
        Ask::Env(_) | Ask::Try(_) | Ask::Get(_, _) => Reply::Value(after.mach().reg(A0)),
        _ => Reply::Go,
    };
    Some(Exchange { asked, reply })
}

// Takes thread t on, over private steps.
fn go_privately(route: Route<'_>, state: State, t: usize, most: u64) -> (State, u64)
    requires route { IsRoute route.fitted.now route.ends.now route.code.now }
    requires way { IsOnWalk route.fitted.now route.ends.now state }
    requires thread { t < length route.fitted.now.guest.entries }
    ensures way { IsOnWalk route.entry.fitted.now route.entry.ends.now result.0 }
    ensures within { result.1 ≤ most }
    ensures gone { HasGone (flat_in route.entry.fitted.now state) (flat_in route.entry.fitted.now result.0) t result.1 }
    ensures calls { AreCalls route.entry.fitted.now t (positions (flat_in route.entry.fitted.now state) t) result.1 [] }
{
    advance_unmarked(route.fitted, state, t, route.ends, route.code, most)
}

// Takes one step of thread t, if it can be taken.
fn take_one(route: Route<'_>, state: State, t: usize) -> (State, Stretch)
    requires route { IsRoute route.fitted.now route.ends.now route.code.now }
    requires way { IsOnWalk route.fitted.now route.ends.now state }
    requires thread { t < length route.fitted.now.guest.entries }
    ensures way { IsOnWalk route.entry.fitted.now route.entry.ends.now result.0 }
    ensures within { result.1.steps ≤ 1 }
    ensures one { (c : exchange.Exchange) → result.1.call ≡ Some c → result.1.steps ≡ 1 }
    ensures gone { HasGone (flat_in route.entry.fitted.now state) (flat_in route.entry.fitted.now result.0) t result.1.steps }
    ensures calls { AreCalls route.entry.fitted.now t (positions (flat_in route.entry.fitted.now state) t) result.1.steps (option_to_list result.1.call) }
    ensures rests { result.1.steps < 1 → RestsAtTarget route.entry.fitted.now route.entry.ends.now (flat_in route.entry.fitted.now result.0) t }
{
    let asked = thread_of(&state, t).ask(route.fitted.image().code());
    let (state, steps) = advance_alone(route.fitted, state, t, route.ends, 1, &OpenGate);
    if steps == 0 {
        return (state, Stretch { steps, call: None });
    }
    let call = call_of(asked, thread_of(&state, t));
    (state, Stretch { steps, call })
}

// Takes thread t on by at most so many steps, over private ones or by one other.
fn watched_steps(route: Route<'_>, state: State, t: usize, most: u64) -> (State, Stretch)
    requires route { IsRoute route.fitted.now route.ends.now route.code.now }
    requires way { IsOnWalk route.fitted.now route.ends.now state }
    requires thread { t < length route.fitted.now.guest.entries }
    ensures way { IsOnWalk route.entry.fitted.now route.entry.ends.now result.0 }
    ensures within { result.1.steps ≤ most }
    ensures one { (c : exchange.Exchange) → result.1.call ≡ Some c → result.1.steps ≡ 1 }
    ensures gone { HasGone (flat_in route.entry.fitted.now state) (flat_in route.entry.fitted.now result.0) t result.1.steps }
    ensures calls { AreCalls route.entry.fitted.now t (positions (flat_in route.entry.fitted.now state) t) result.1.steps (option_to_list result.1.call) }
    ensures rests { 0 < most → result.1.steps ≡ 0 → RestsAtTarget route.entry.fitted.now route.entry.ends.now (flat_in route.entry.fitted.now result.0) t }
{
    let (state, steps) = go_privately(route, state, t, most);
    if steps > 0 || most == 0 {
        return (state, Stretch { steps, call: None });
    }
    take_one(route, state, t)
}

/// Takes thread t on by at most so many steps; where its calls are kept, over private ones or by one other.
pub fn take_steps(
    route: Route<'_>,
    state: State,
    t: usize,
    most: u64,
    keeps: bool,
) -> (State, Stretch)
    requires route { IsRoute route.fitted.now route.ends.now route.code.now }
    requires way { IsOnWalk route.fitted.now route.ends.now state }
    requires thread { t < length route.fitted.now.guest.entries }
    ensures way { IsOnWalk route.entry.fitted.now route.entry.ends.now result.0 }
    ensures within { result.1.steps ≤ most }
    ensures one { (c : exchange.Exchange) → result.1.call ≡ Some c → result.1.steps ≡ 1 }
    ensures gone { HasGone (flat_in route.entry.fitted.now state) (flat_in route.entry.fitted.now result.0) t result.1.steps }
    ensures kept { keeps ≡ false → result.1.call ≡ None }
    ensures calls { keeps ≡ true → AreCalls route.entry.fitted.now t (positions (flat_in route.entry.fitted.now state) t) result.1.steps (option_to_list result.1.call) }
    ensures rests { 0 < most → result.1.steps ≡ 0 → RestsAtTarget route.entry.fitted.now route.entry.ends.now (flat_in route.entry.fitted.now result.0) t }
{
    if keeps {
        return watched_steps(route, state, t, most);
    }
    let (state, steps) = advance_alone(route.fitted, state, t, route.ends, most, &OpenGate);
    (state, Stretch { steps, call: None })
}
