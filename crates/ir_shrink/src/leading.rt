//! An order of the threads that leads a guest along a trace. Nothing is proved of it: the run by the order is recorded, and its trace compared.

ghost use Rattle.std.specs.Prelude.{◌≡◌, ◌<◌, length};
ghost use Rattle.ir_flat.specs.Flat.{IsFlat, thread_of};
ghost use Rattle.ir_thread.specs.State.{IsAllowed, ask_of};

use crate::note::note;
use ir_flat::Flat;
use ir_image::Image;
use ir_log::Event;
use ir_record::Item;
use ir_record_command::RecordPlan;
use ir_thread::Ask;
use ir_trace::Trace;
use std::alloc::{AllocError, Global};

// Turns that are noted.
#[derive(Drop)]
struct Noted {
    items: Vec<Item>,
    // Whether a turn of the last item is a try.
    has_tried: bool,
}

// A guest that is led along a trace.
#[derive(Drop)]
struct Led<'a, 't> {
    flat: Flat<'a>,
    trace: &'t Trace,
    noted: Noted,
}

// Whether an object is as it was where the event was logged.
fn is_there(flat: &Flat<'_>, event: Event) -> bool {
    let (object, found, readers) = match event {
        Event::Read { object, version } => (object, version, None),
        Event::Write {
            object,
            version,
            readers,
        } => (object, version, Some(readers)),
        Event::Answer(_, _) | Event::Try { .. } => return true,
    };
    let Some(object) = flat.objects().get(object as usize) else {
        return false;
    };
    let fields = object.fields();
    fields.version == found && readers.unwrap_or(fields.left) == fields.left
}

// The result of the step that logs the event.
fn result_of(event: Event) -> u32 {
    match event {
        Event::Answer(_, value) => value,
        Event::Write { .. } => 1,
        Event::Read { .. } | Event::Try { .. } => 0,
    }
}

impl Noted {
    // Notes turns of a thread after the last, and whether they are a try, and if so whether it is refused.
    fn push(&mut self, thread: u8, count: u64, tried: Option<bool>) -> Result<(), AllocError> {
        let mut refused = tried.unwrap_or(false);
        let mut has_tried = tried.is_some();
        if let Some(mut last) = self.items.pop() {
            if last.thread == thread {
                if has_tried && !self.has_tried {
                    last.refused = refused;
                }
                if !has_tried {
                    refused = last.refused;
                }
                has_tried = has_tried || self.has_tried;
            }
            self.items.push(last)?;
        }
        self.has_tried = has_tried;
        note(
            &mut self.items,
            Item {
                thread,
                count,
                refused,
            },
        )
    }
}

impl Led<'_, '_> {
    // What the trace says of the next step of thread t, which asks so, if that can be taken now.
    fn event(&self, t: usize, asked: Ask) -> Option<Event> {
        let thread = self.flat.threads().get(t)?;
        if t >= self.trace.threads().len() {
            return None;
        }
        let event = self.trace.next_event(t, thread.events(), asked).ok()?;
        is_there(&self.flat, event).then_some(event)
    }

    // Thread t takes its next step, for which it asks so, if the trace has it next; and whether it took one.
    fn step(&mut self, t: usize, asked: Ask) -> Result<bool, AllocError>
        requires flat { IsFlat self.old.flat }
        requires thread { t < length self.old.flat.threads }
        requires asked { asked ≡ ask_of self.old.flat.code (thread_of self.old.flat t) }
        ensures { length self.new.flat.threads ≡ length self.old.flat.threads }
    {
        let (result, tried) = match asked {
            Ask::Env(_) | Ask::Enter(_, _) | Ask::Try(_) => match self.event(t, asked) {
                Some(event) => (
                    result_of(event),
                    match asked {
                        Ask::Try(_) => Some(result_of(event) == 0),
                        _ => None,
                    },
                ),
                None => return Ok(false),
            },
            _ => (0, None),
        };
        if self.flat.take(t, asked, result).is_err() {
            return Ok(false);
        }
        self.noted.push(t as u8, 1, tried)?;
        Ok(true)
    }

    // Thread t goes on as far as the trace lets it now, and whether it took a step.
    fn go_on(&mut self, t: usize) -> Result<bool, AllocError>
        requires { t < length self.old.flat.threads }
        ensures { length self.new.flat.threads ≡ length self.old.flat.threads }
    {
        let mut has_moved = false;
        'steps: for _ in 0..u64::MAX {
            let (count, asked) = self.flat.run_to_ask(t, u64::MAX);
            if count > 0 {
                self.noted.push(t as u8, count, None)?;
                has_moved = true;
            }
            if !self.step(t, asked)? {
                break;
            }
            has_moved = true;
        }
        Ok(has_moved)
    }

    // Each thread in turn goes on as far as the trace lets it, and whether one took a step.
    fn go_on_each(&mut self) -> Result<bool, AllocError> {
        let mut has_moved = false;
        'each: for t in 0..self.flat.threads().len() {
            if t < self.flat.threads().len() && self.go_on(t)? {
                has_moved = true;
            }
        }
        Ok(has_moved)
    }
}

/// An order of the guest's threads, with few switches, that leads along a trace as far as that goes.
///
/// # Errors
/// Out of memory.
pub fn order_of(
    alloc: Global,
    image: &Image,
    plan: &RecordPlan<'_>,
    trace: &Trace,
) -> Result<Vec<Item>, AllocError>
    requires { IsAllowed plan.now.profile image.now }
{
    let flat = Flat::start(alloc, image, plan.budget, plan.profile)?;
    let mut led = Led {
        flat,
        trace,
        noted: Noted {
            items: Vec::new(alloc),
            has_tried: false,
        },
    };
    'rounds: for _ in 0..u64::MAX {
        if !led.go_on_each()? {
            break;
        }
    }
    let Led { noted, .. } = led;
    Ok(noted.items)
}
