//! Whether a thread's next step is admitted: the log says.

ghost use Rattle.std.specs.Prelude.{◌≡◌, ◌<◌, ◌≤◌, length};
ghost use Rattle.ir_thread.specs.State.{ask_of, most_events};
ghost use Rattle.ir_thread.specs.declared.ask.Ask.TheVariants as ask;
ghost use Rattle.ir_flat.specs.Flat.{thread_of, IsFlat};
ghost use Rattle.ir_fit.specs.Ahead.{steps_ahead};
ghost use Rattle.ir_weave.specs.Stepping.{IsNextOfSeat};

use ir_fit::{Fitted, is_open};
use ir_flat::Flat;
use ir_log::Event;
use ir_runs::{Access, EnvKind};
use ir_thread::Ask;

// How many events thread t has logged.
fn events_of(flat: &Flat<'_>, t: usize) -> u32
    requires { t < length flat.now.threads }
    ensures value { result ≡ (thread_of flat.now t).events }
    ensures bound { result ≤ most_events }
    ensures flat { IsFlat flat.now }
{
    flat.threads()[t].events()
}

// The result of thread t's next step, a call of the environment.
fn call_result(fitted: &Fitted, flat: &Flat<'_>, t: usize, kind: EnvKind) -> Option<u32>
    requires emitted { t < length fitted.now.guest.entries }
    requires thread { t < length flat.now.threads }
    requires asked { ask_of flat.now.code (thread_of flat.now t) ≡ ask.Env kind }
    requires steps { 0 < steps_ahead fitted.now.recorded flat.now t }
    ensures { IsNextOfSeat fitted.now.recorded flat.now t result }
{
    let before = events_of(flat, t);
    match fitted.trace().next_event(t, before, Ask::Env(kind)) {
        Ok(Event::Answer(_, result)) => Some(result),
        Ok(_) => None,
        Err(_) => None,
    }
}

// The result of thread t's next step, an entry; none where the object can't be entered now as the log says.
#[inline(always)]
fn entry_result(
    fitted: &Fitted,
    flat: &Flat<'_>,
    t: usize,
    object: u8,
    access: Access,
) -> Option<u32>
    requires emitted { t < length fitted.now.guest.entries }
    requires thread { t < length flat.now.threads }
    requires asked { ask_of flat.now.code (thread_of flat.now t) ≡ ask.Enter object access }
    requires steps { 0 < steps_ahead fitted.now.recorded flat.now t }
    ensures { IsNextOfSeat fitted.now.recorded flat.now t result }
{
    let before = events_of(flat, t);
    let asked = Ask::Enter(object, access);
    match fitted.trace().next_event(t, before, asked) {
        Err(_) => None,
        Ok(event) => {
            if is_open(&flat.objects()[object as usize], event) {
                Some(0)
            } else {
                None
            }
        }
    }
}

// The result of thread t's next step, a try: 0 where the log says that it was refused, and else 1; none where it got in, and can't now.
fn try_result(fitted: &Fitted, flat: &Flat<'_>, t: usize, object: u8) -> Option<u32>
    requires emitted { t < length fitted.now.guest.entries }
    requires thread { t < length flat.now.threads }
    requires asked { ask_of flat.now.code (thread_of flat.now t) ≡ ask.Try object }
    requires steps { 0 < steps_ahead fitted.now.recorded flat.now t }
    ensures { IsNextOfSeat fitted.now.recorded flat.now t result }
{
    let before = events_of(flat, t);
    match fitted.trace().next_event(t, before, Ask::Try(object)) {
        Err(_) => None,
        Ok(event) => match event {
            Event::Try { .. } => Some(0),
            _ => {
                let found = &flat.objects()[object as usize];
                if is_open(found, event) { Some(1) } else { None }
            }
        },
    }
}

// The result with which thread t takes its next step as the log says; none where it can't now.
#[inline(always)]
pub fn next_result(fitted: &Fitted, flat: &Flat<'_>, t: usize, asked: Ask) -> Option<u32>
    requires emitted { t < length fitted.now.guest.entries }
    requires thread { t < length flat.now.threads }
    requires asked { asked ≡ ask_of flat.now.code (thread_of flat.now t) }
    requires steps { 0 < steps_ahead fitted.now.recorded flat.now t }
    ensures { IsNextOfSeat fitted.now.recorded flat.now t result }
{
    match asked {
        Ask::Env(kind) => call_result(fitted, flat, t, kind),
        Ask::Enter(object, access) => entry_result(fitted, flat, t, object, access),
        Ask::Try(object) => try_result(fitted, flat, t, object),
        Ask::Done => None,
        _ => Some(0),
    }
}
