//! What `fit` answers of a trace of two threads, found by looking at all events and by trying all orders of the steps.
//! Slow, and nothing of `fit` is used.

use ir_fit::Cause;
use ir_flat::Flat;
use ir_log::Event;
use ir_object::Object;
use ir_runs::{Access, ThreadVerdict};
use ir_thread::{Ask, End};
use ir_trace::Trace;
use std::alloc::{AllocError, Global};

// How many private steps are taken together at most.
const MOST_PRIVATE: usize = 100;

// How many states are looked at on behalf of one trace at most.
const MOST_STATES: usize = 100_000;

// What is answered of a trace.
#[derive(Clone, Copy, Debug, PartialEq, Eq)]
pub enum Answer {
    Fits,
    Incoherent {
        thread: u8,
        event: usize,
        cause: Cause,
    },
    // The two threads, not both of which are the same.
    Stands(ThreadVerdict, ThreadVerdict),
    // No answer: runs that go furthest end differently, or a search was given up.
    Unsettled,
}

// Whether the event enters the object for writing at the version.
fn is_write(event: Event, object: u8, version: u32) -> bool {
    match event {
        Event::Write {
            object: o,
            version: v,
            ..
        } => o == object && v == version,
        _ => false,
    }
}

// Whether the event enters the object for reading at the version.
fn is_read(event: Event, object: u8, version: u32) -> bool {
    match event {
        Event::Read {
            object: o,
            version: v,
        } => o == object && v == version,
        _ => false,
    }
}

// The object that the event enters, and at which version.
fn entered(event: Event) -> Option<(u8, u32)> {
    match event {
        Event::Answer(..) | Event::Try { .. } => None,
        Event::Read { object, version } => Some((object, version)),
        Event::Write {
            object,
            version,
            ..
        } => Some((object, version)),
    }
}

// Whether the version is a later one, and no write entry among the events made it.
fn is_unmade(events: &[Event], object: u8, version: u32) -> bool {
    let Some(before) = version.checked_sub(1) else {
        return false;
    };
    for event in events {
        if is_write(*event, object, before) {
            return false;
        }
    }
    true
}

// Whether a write entry at the version is at another place.
fn is_twice(events: &[Event], place: usize, object: u8, version: u32) -> bool {
    for other in 0..events.len() {
        if other != place && is_write(events[other], object, version) {
            return true;
        }
    }
    false
}

// How many read entries at the version there are.
fn readers_at(events: &[Event], object: u8, version: u32) -> usize {
    events
        .iter()
        .filter(|event| is_read(**event, object, version))
        .count()
}

// Why the event at the place can't be in one trace with the others.
fn cause_at(events: &[Event], place: usize) -> Option<Cause> {
    let event = *events.get(place)?;
    let (object, version) = entered(event)?;
    if is_unmade(events, object, version) {
        return Some(Cause::Unmade);
    }
    let Event::Write { readers, .. } = event else {
        return None;
    };
    if is_twice(events, place, object, version) {
        return Some(Cause::Twice);
    }
    if readers_at(events, object, version) != readers as usize {
        return Some(Cause::Readers);
    }
    None
}

// The first event that can't be in one trace with the others. The first `firsts` are the first thread's, and the second's
// come after them.
pub fn broken(events: &[Event], firsts: usize) -> Option<Answer> {
    for place in 0..events.len() {
        if let Some(cause) = cause_at(events, place) {
            let (thread, event) = if place < firsts {
                (0, place)
            } else {
                (1, place - firsts)
            };
            return Some(Answer::Incoherent {
                thread,
                event,
                cause,
            });
        }
    }
    None
}

// What a thread asks and where it is, and what the trace says of it.
#[derive(Clone, Copy)]
struct Place {
    asked: Ask,
    steps: u64,
    events: u32,
    // The position where the thread would be done, if its next step ended it.
    last: u64,
    next: Option<Event>,
    emitted_steps: u64,
    emitted_end: End,
}

// Where thread t is, if there is such a thread.
fn place_of(flat: &Flat, trace: &Trace, t: usize) -> Option<Place> {
    if t >= flat.threads().len() {
        return None;
    }
    let thread = flat.threads().get(t)?;
    let emitted = trace.threads().get(t)?;
    let held = thread.held().iter().filter(|place| place.is_some()).count();
    Some(Place {
        asked: flat.ask(t),
        steps: thread.steps(),
        events: thread.events(),
        last: thread.steps() + 1 + held as u64,
        next: emitted
            .log()
            .events()
            .get(thread.events() as usize)
            .copied(),
        emitted_steps: emitted.steps(),
        emitted_end: emitted.end(),
    })
}

impl Place {
    // Where an event is asked for, the next one is of that kind and object.
    fn suits(self) -> bool {
        match (self.asked, self.next) {
            (Ask::Env(kind), Some(Event::Answer(emitted, _))) => kind == emitted,
            (
                Ask::Enter(object, Access::Reading),
                Some(
                    Event::Read {
                        object: emitted,
                        ..
                    },
                ),
            ) => { object == emitted }
            (
                Ask::Enter(object, Access::Writing),
                Some(
                    Event::Write {
                        object: emitted,
                        ..
                    },
                ),
            ) => { object == emitted }
            (Ask::Env(_) | Ask::Enter(..), _) => false,
            _ => true,
        }
    }

    // An end is the trace's, with no event left, at the position that leads to the trace's last.
    fn ends_so(self) -> bool {
        match self.asked {
            Ask::End(end) => {
                end == self.emitted_end && self.next.is_none() && self.last == self.emitted_steps
            }
            _ => true,
        }
    }

    // The thread's next step is the trace's, whether it can be taken now or not.
    fn agrees(self) -> bool {
        self.steps < self.emitted_steps && self.suits() && self.ends_so()
    }

    // An entry has the version and the readers of the next event.
    fn enters_so(self, objects: &[Object]) -> bool {
        let Ask::Enter(object, _) = self.asked else {
            return true;
        };
        let Some(fields) = objects.get(object as usize).map(|o| o.fields()) else {
            return false;
        };
        match self.next {
            Some(Event::Read { version, .. }) => fields.version == version,
            Some(
                Event::Write {
                    version,
                    readers,
                    ..
                },
            ) => fields.version == version && fields.left == readers,
            _ => false,
        }
    }

    // The result that the next event has.
    fn result_emitted(self) -> u32 {
        match self.next {
            Some(Event::Answer(_, value)) => value,
            _ => 0,
        }
    }
}

// Thread t continues while its steps are private and follow the trace: these concern no other thread.
fn go_on(flat: &mut Flat, trace: &Trace, t: usize) {
    for _ in 0..MOST_PRIVATE {
        let Some(place) = place_of(flat, trace, t) else {
            return;
        };
        if t >= flat.threads().len() || place.asked != Ask::Private || !place.agrees() {
            return;
        }
        let _ = flat.step(t, 0);
    }
}

// The state after the next step of thread t and the private ones after it, if the step follows the trace.
fn after_step<'a>(
    flat: &Flat<'a>,
    trace: &Trace,
    t: usize,
) -> Result<Option<Flat<'a>>, AllocError> {
    let Some(place) = place_of(flat, trace, t) else {
        return Ok(None);
    };
    if t >= flat.threads().len() || !place.agrees() || !place.enters_so(flat.objects()) {
        return Ok(None);
    }
    let mut copy = flat.copy()?;
    if copy.step(t, place.result_emitted()).is_err() {
        return Ok(None);
    }
    go_on(&mut copy, trace, t);
    Ok(Some(copy))
}

// Adds each state that one step more leads to, and says whether there is one.
fn add_next<'a>(
    open: &mut Vec<Flat<'a>>,
    flat: &Flat<'a>,
    trace: &Trace,
) -> Result<bool, AllocError> {
    let mut some = false;
    for t in 0..2 {
        if let Some(next) = after_step(flat, trace, t)? {
            open.push(next)?;
            some = true;
        }
    }
    Ok(some)
}

// What is said of thread t, where no thread has a further step that follows.
fn verdict_of(flat: &Flat, trace: &Trace, t: usize) -> Option<ThreadVerdict> {
    let place = place_of(flat, trace, t)?;
    let event = place.events;
    if place.asked == Ask::Done {
        return Some(ThreadVerdict::Same);
    }
    if !place.agrees() {
        return Some(ThreadVerdict::Disagrees {
            event,
            step: place.steps,
        });
    }
    match place.asked {
        Ask::Enter(..) => Some(ThreadVerdict::Starves { event }),
        _ => None,
    }
}

// What is answered, where no thread has a further step that follows.
fn judged(flat: &Flat, trace: &Trace) -> Answer {
    match (verdict_of(flat, trace, 0), verdict_of(flat, trace, 1)) {
        (Some(ThreadVerdict::Same), Some(ThreadVerdict::Same)) => Answer::Fits,
        (Some(first), Some(second)) => Answer::Stands(first, second),
        _ => Answer::Unsettled,
    }
}

// What is answered at the end of every run from the start that follows the trace and can't be longer.
pub fn standing(alloc: Global, start: &Flat, trace: &Trace) -> Result<Answer, AllocError> {
    let mut first = start.copy()?;
    go_on(&mut first, trace, 0);
    go_on(&mut first, trace, 1);
    let mut open = Vec::new(alloc);
    open.push(first)?;
    let mut found = None;
    for _ in 0..MOST_STATES {
        let Some(flat) = open.pop() else {
            return Ok(found.unwrap_or(Answer::Unsettled));
        };
        if add_next(&mut open, &flat, trace)? {
            continue;
        }
        let answer = judged(&flat, trace);
        if found.is_some() && found != Some(answer) {
            return Ok(Answer::Unsettled);
        }
        found = Some(answer);
    }
    Ok(Answer::Unsettled)
}
