//! Steps that follow the trace, and who is woken by them.

ghost use Rattle.std.specs.Prelude.{◌≡◌, ◌<◌, ◌+◌, ◌≤◌, length};
ghost use Rattle.ir_fit.specs.Ahead.{IsMove};
ghost use Rattle.ir_flat.specs.Flat.{IsFlat};
ghost use Rattle.ir_fit.specs.Follower.{all_ahead, FollowerGoesOn, IsSized};
ghost use Rattle.ir_fit.specs.Growing.{placed_more};

use crate::follower::Follower;
use crate::follower::look::{Look, Move, is_open};
use crate::follower::readiness::Readiness;
use crate::leave::Leave;
use ir_log::Event;
use ir_object::Object;
use ir_thread::Ask;

// What is known of a thread that was seen so.
fn readiness(look: Look) -> Readiness {
    match look {
        Look::Goes(_) => Readiness::Ready,
        Look::Waits(event) => Readiness::Waits(event),
        Look::Done | Look::Disagrees => Readiness::Stopped,
    }
}

// Whether the event is an entry to the object of this number, which can be entered now as the event says.
fn opens(number: u8, object: &Object, event: Event) -> bool {
    match event {
        Event::Answer(..) | Event::Try { .. } => false,
        Event::Read {
            object: entered,
            ..
        }
        | Event::Write {
            object: entered,
            ..
        } => { entered == number && is_open(object, event) }
    }
}

// Those that can enter the object of this number now, as the events say that they wait for, are to be looked at again. The
// others that wait are counted.
fn wake(ready: &mut Vec<Readiness>, waiting: &mut usize, number: u8, object: &Object)
    ensures { length ready.new.items ≡ length ready.old.items }
{
    if *waiting == 0 {
        return;
    }
    *waiting = 0;
    for t in 0..ready.len() {
        if let Readiness::Waits(event) = ready[t] {
            if opens(number, object, event) {
                ready[t] = Readiness::Ready;
            } else {
                *waiting = waiting.saturating_add(1);
            }
        }
    }
}

impl Follower<'_> {
    // Notes what was seen of thread t.
    pub fn note(&mut self, t: usize, look: Look)
        requires sized { IsSized self.old }
        requires thread { t < length self.old.flat.threads }
        ensures flat { self.new.flat ≡ self.old.flat }
        ensures trace { self.new.trace ≡ self.old.trace }
        ensures places { self.new.places.items ≡ self.old.places.items }
        ensures sized { IsSized self.new }
    {
        if let Look::Waits(_) = look {
            self.waiting = self.waiting.saturating_add(1);
        }
        self.ready[t] = readiness(look);
    }

    // Keeps what the step gives: the position of an event, or a leave.
    #[inline(always)]
    fn place(&mut self, next: Move)
        requires sized { IsSized self.old }
        requires follows { IsMove self.old.trace self.old.flat next }
        ensures flat { self.new.flat ≡ self.old.flat }
        ensures trace { self.new.trace ≡ self.old.trace }
        ensures ready { self.new.ready ≡ self.old.ready }
        ensures places { self.new.places.items ≡ placed_more self.old.flat self.old.places.items next.thread next.asked }
        ensures within { IsFlat self.old.flat }
    {
        let position = self.thread(next.thread).steps();
        match next.asked {
            Ask::Env(_) | Ask::Enter(..) | Ask::Try(_) => self.places[next.thread].enter(position),
            Ask::Leave(object, access) => {
                let version = self.object(object).fields().version;
                self.places[next.thread].leave(Leave {
                    position,
                    object,
                    access,
                    version,
                });
            }
            _ => {}
        }
    }

    // Takes a step that follows the trace. Who leaves an object wakes those that can enter it now.
    #[inline(always)]
    pub fn take(&mut self, next: Move)
        requires sized { IsSized self.old }
        requires follows { IsMove self.old.trace self.old.flat next }
        ensures goes { FollowerGoesOn self.old.trace self.old.flat self.old.places.items self.new.flat self.new.places.items }
        ensures fewer { all_ahead self.new.trace self.new.flat < all_ahead self.old.trace self.old.flat }
        ensures trace { self.new.trace ≡ self.old.trace }
        ensures sized { IsSized self.new }
    {
        self.place(next);
        let _ = self.flat.take(next.thread, next.asked, next.result);
        if let Ask::Leave(object, _) = next.asked {
            wake(
                &mut self.ready,
                &mut self.waiting,
                object,
                &self.flat.objects()[object as usize],
            );
        }
    }
}
