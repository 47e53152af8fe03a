//! A thread's next step beside the trace.

ghost use Rattle.std.specs.Prelude.{◌≡◌, ◌<◌, ◌≤◌, ◌↔◌, length, slice_get, Some, IsTrue, IfOk, OnErr};
ghost use Rattle.ir_image.specs.Guest.{most_objects};
ghost use Rattle.ir_thread.specs.State.{ask_of};
ghost use Rattle.ir_thread.specs.Permitted.{held_count};
ghost use Rattle.ir_thread.specs.declared.ask.Ask.TheVariants as ask;
ghost use Rattle.ir_flat.specs.Flat.{thread_of, IsFlat};
ghost use Rattle.ir_log.specs.Asked.{SuitsEvent};
ghost use Rattle.ir_log.specs.declared.event.Event.{Event};
ghost use Rattle.ir_trace.specs.Recorded.{recorded_thread};
ghost use Rattle.ir_trace.specs.Bounds.{IsRecordedThread};
ghost use Rattle.ir_fit.specs.Ahead.{steps_ahead, IsOpen, EndsSo, IsOwn, IsSeen};

use crate::follower::Follower;
use ir_log::{Disagree, Event};
use ir_object::Object;
use ir_runs::{Access, EnvKind};
use ir_thread::{Ask, End};

// A step that follows the trace: its thread, what the thread asks, and the result of the step.
#[derive(Clone, Copy)]
pub struct Move {
    pub thread: usize,
    pub asked: Ask,
    pub result: u32,
}

// What is seen of a thread.
#[derive(Clone, Copy)]
pub enum Look {
    // It is done.
    Done,
    // Its next step isn't the trace's.
    Disagrees,
    // Its next step is the trace's, an entry or a try that is logged as this event, and can't be taken now as the log says.
    Waits(Event),
    // Its next step follows the trace.
    Goes(Move),
}

// How many objects are held.
fn held_count(held: &[Option<Access>]) -> u64
    requires { length held.now ≤ most_objects }
    ensures value { result ≡ held_count held.now }
    ensures within { result ≤ most_objects }
{
    let mut count = 0;
    for place in held {
        if place.is_some() {
            count += 1;
        }
    }
    count
}

/// Whether the object can be entered now as the event says: it is at the event's version, for an entry for writing
/// as many have left it as the event counts, and no thread inside is in the way.
#[inline(always)]
pub fn is_open(object: &Object, event: Event) -> bool
    ensures { IsTrue result ↔ IsOpen object.now event }
{
    let fields = object.fields();
    match event {
        Event::Answer(..) | Event::Try { .. } => false,
        Event::Read { version, .. } => fields.version == version && object.can_read(),
        Event::Write {
            version,
            readers,
            ..
        } => fields.version == version && fields.left == readers && object.can_write(),
    }
}

impl Follower<'_> {
    // The next event that the trace gives of thread t, if it is one of what the thread asks.
    #[inline(always)]
    fn next_event(&self, t: usize, asked: Ask) -> Result<Event, Disagree>
        requires thread { t < length self.now.flat.threads }
        requires emitted { t < length self.now.trace.threads }
        ensures next { IfOk result (λ event. slice_get (recorded_thread self.now.trace t).events (thread_of self.now.flat t).events ≡ Some event) }
        ensures suits { IfOk result (λ event. SuitsEvent asked event) }
        ensures flat { IsFlat self.now.flat }
        ensures within { IsRecordedThread self.now.trace.profile self.now.trace.objects (recorded_thread self.now.trace t) }
        ensures disagrees { OnErr result ((event : Event) → slice_get (recorded_thread self.now.trace t).events (thread_of self.now.flat t).events ≡ Some event → SuitsEvent asked event → ⊥) }
    {
        self.trace.next_event(t, self.thread(t).events(), asked)
    }

    // Thread t, whose next step is a call of the environment.
    fn look_call(&self, t: usize, kind: EnvKind) -> Look
        requires thread { t < length self.now.flat.threads }
        requires emitted { t < length self.now.trace.threads }
        requires asked { ask_of self.now.flat.code (thread_of self.now.flat t) ≡ ask.Env kind }
        requires steps { 0 < steps_ahead self.now.trace self.now.flat t }
        ensures { IsSeen self.now.trace self.now.flat t result }
    {
        let asked = Ask::Env(kind);
        match self.next_event(t, asked) {
            Ok(Event::Answer(_, result)) => Look::Goes(Move {
                thread: t,
                asked,
                result,
            }),
            Ok(_) => Look::Disagrees,
            Err(_) => Look::Disagrees,
        }
    }

    // Thread t, whose next step is an entry.
    #[inline(always)]
    fn look_entry(&self, t: usize, object: u8, access: Access) -> Look
        requires thread { t < length self.now.flat.threads }
        requires emitted { t < length self.now.trace.threads }
        requires asked { ask_of self.now.flat.code (thread_of self.now.flat t) ≡ ask.Enter object access }
        requires steps { 0 < steps_ahead self.now.trace self.now.flat t }
        ensures { IsSeen self.now.trace self.now.flat t result }
    {
        let asked = Ask::Enter(object, access);
        match self.next_event(t, asked) {
            Err(_) => Look::Disagrees,
            Ok(event) => {
                if is_open(self.object(object), event) {
                    Look::Goes(Move {
                        thread: t,
                        asked,
                        result: 0,
                    })
                } else {
                    Look::Waits(event)
                }
            }
        }
    }

    // Thread t, whose next step is a try. Where the log says that it got in, it waits like an entry.
    fn look_try(&self, t: usize, object: u8) -> Look
        requires thread { t < length self.now.flat.threads }
        requires emitted { t < length self.now.trace.threads }
        requires asked { ask_of self.now.flat.code (thread_of self.now.flat t) ≡ ask.Try object }
        requires steps { 0 < steps_ahead self.now.trace self.now.flat t }
        ensures { IsSeen self.now.trace self.now.flat t result }
    {
        let asked = Ask::Try(object);
        match self.next_event(t, asked) {
            Err(_) => Look::Disagrees,
            Ok(logged) => match logged {
                Event::Try { .. } => Look::Goes(Move {
                    thread: t,
                    asked,
                    result: 0,
                }),
                _ => {
                    if is_open(self.object(object), logged) {
                        Look::Goes(Move {
                            thread: t,
                            asked,
                            result: 1,
                        })
                    } else {
                        Look::Waits(logged)
                    }
                }
            },
        }
    }

    // Whether the trace has this end of thread t, which is at it.
    fn ends_so(&self, t: usize, end: End) -> bool
        requires thread { t < length self.now.flat.threads }
        requires emitted { t < length self.now.trace.threads }
        ensures { IsTrue result ↔ EndsSo self.now.trace self.now.flat t end }
    {
        let thread = self.thread(t);
        let emitted = self.emitted(t);
        emitted.end().number() == end.number()
            && emitted.end().code() == end.code()
            && self.steps_left(t) == held_count(thread.held()) + 1
            && emitted.log().events().len() <= thread.events() as usize
    }

    // Thread t, whose next step is its end.
    fn look_end(&self, t: usize, end: End) -> Look
        requires thread { t < length self.now.flat.threads }
        requires emitted { t < length self.now.trace.threads }
        requires asked { ask_of self.now.flat.code (thread_of self.now.flat t) ≡ ask.End end }
        requires steps { 0 < steps_ahead self.now.trace self.now.flat t }
        ensures { IsSeen self.now.trace self.now.flat t result }
    {
        if self.ends_so(t, end) {
            Look::Goes(Move {
                thread: t,
                asked: Ask::End(end),
                result: 0,
            })
        } else {
            Look::Disagrees
        }
    }

    // Thread t, of whose next step the trace says nothing.
    #[inline(always)]
    fn look_own(&self, t: usize, asked: Ask) -> Look
        requires thread { t < length self.now.flat.threads }
        requires asked { asked ≡ ask_of self.now.flat.code (thread_of self.now.flat t) }
        requires own { IsOwn asked }
        requires steps { 0 < steps_ahead self.now.trace self.now.flat t }
        ensures { IsSeen self.now.trace self.now.flat t result }
    {
        Look::Goes(Move {
            thread: t,
            asked,
            result: 0,
        })
    }

    // The next step of thread t, which asks for it so, beside the trace.
    #[inline(always)]
    pub fn look_at(&self, t: usize, asked: Ask) -> Look
        requires thread { t < length self.now.flat.threads }
        requires emitted { t < length self.now.trace.threads }
        requires asked { asked ≡ ask_of self.now.flat.code (thread_of self.now.flat t) }
        ensures { IsSeen self.now.trace self.now.flat t result }
    {
        if let Ask::Done = asked {
            return Look::Done;
        }
        if self.steps_left(t) == 0 {
            return Look::Disagrees;
        }
        match asked {
            Ask::Env(kind) => self.look_call(t, kind),
            Ask::Enter(object, access) => self.look_entry(t, object, access),
            Ask::Try(object) => self.look_try(t, object),
            Ask::End(end) => self.look_end(t, end),
            _ => self.look_own(t, asked),
        }
    }

    // The next step of thread t beside the trace.
    pub fn look(&self, t: usize) -> Look
        requires thread { t < length self.now.flat.threads }
        requires emitted { t < length self.now.trace.threads }
        ensures { IsSeen self.now.trace self.now.flat t result }
    {
        self.look_at(t, self.thread(t).ask(self.flat.code()))
    }
}
