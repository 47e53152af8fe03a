//! A guest that follows a trace.

ghost use Rattle.std.specs.Prelude.{◌≡◌, ◌<◌, length};
ghost use Rattle.ir_flat.specs.Flat.{thread_of, cell_of, IsFlat};
ghost use Rattle.ir_trace.specs.Recorded.{recorded_thread};
ghost use Rattle.ir_trace.specs.Bounds.{IsRecordedThread};
ghost use Rattle.ir_fit.specs.Ahead.{steps_ahead};

use crate::follower::growing::GrowingPlaces;
use crate::follower::readiness::Readiness;
use crate::stretch::Stretch;
use ir_flat::Flat;
use ir_object::Object;
use ir_thread::Thread;
use ir_trace::{ThreadTrace, Trace};

pub mod ending;
pub mod growing;
pub mod look;
pub mod passing;
mod pausing;
mod readiness;
mod running;
mod stepping;

// The threads and objects of a guest, the trace that they follow, and what is known of each thread.
#[derive(Drop)]
pub struct Follower<'a> {
    pub flat: Flat<'a>,
    pub trace: Trace,
    pub ready: Vec<Readiness>,
    // As many threads wait at most. While it is 0 no thread is looked for that waits.
    pub waiting: usize,
    pub places: Vec<GrowingPlaces>,
    // In which order the threads took their steps, for as much of the run as there is memory. It's a hint, on which no clause rests.
    pub stretches: Vec<Stretch>,
}

impl Follower<'_> {
    pub fn thread(&self, t: usize) -> &Thread
        requires { t < length self.now.flat.threads }
        ensures thread { result.now ≡ thread_of self.now.flat t }
        ensures flat { IsFlat self.now.flat }
    {
        &self.flat.threads()[t]
    }

    pub fn object(&self, o: u8) -> &Object
        requires { o < length self.now.flat.objects }
        ensures { result.now ≡ cell_of self.now.flat o }
    {
        &self.flat.objects()[o as usize]
    }

    // What the trace says of thread t.
    pub fn emitted(&self, t: usize) -> &ThreadTrace
        requires { t < length self.now.trace.threads }
        ensures emitted { result.now ≡ recorded_thread self.now.trace t }
        ensures within { IsRecordedThread self.now.trace.profile self.now.trace.objects (recorded_thread self.now.trace t) }
    {
        &self.trace.threads()[t]
    }

    // How many steps the trace leaves to thread t.
    pub fn steps_left(&self, t: usize) -> u64
        requires thread { t < length self.now.flat.threads }
        requires emitted { t < length self.now.trace.threads }
        ensures { result ≡ steps_ahead self.now.trace self.now.flat t }
    {
        self.emitted(t)
            .steps()
            .saturating_sub(self.thread(t).steps())
    }
}
