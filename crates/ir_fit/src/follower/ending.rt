//! A guest at the end of a run that follows a trace.

ghost use Rattle.std.specs.Prelude.{◌≡◌, ◌<◌, [], length, map, IfOk, OnOk};
ghost use Rattle.ir_image.specs.Guest.{Guest};
ghost use Rattle.ir_flat.specs.Flat.{start_flat, tables, machine};
ghost use Rattle.ir_trace.specs.Recorded.{trace_of};
ghost use Rattle.ir_fit.specs.Ahead.{IsStoppedAhead};
ghost use Rattle.ir_fit.specs.Fit.{HasHeader};
ghost use Rattle.ir_fit.specs.Follower.{IsFollower, IsFollowed, IsSized};
ghost use Rattle.ir_fit.specs.Passed.{ArePassed};
ghost use Rattle.ir_runs.specs.Standing.{StandsAs};

use crate::follower::Follower;
use crate::follower::growing::GrowingPlaces;
use crate::follower::look::Look;
use crate::follower::passing::Passing;
use crate::follower::readiness::Readiness;
use ir_flat::Flat;
use ir_image::Image;
use ir_object::Gate;
use ir_runs::ThreadVerdict;
use ir_trace::{ThreadTrace, Trace};
use std::alloc::{AllocError, Global};

// Room for the places of each thread's events.
fn rooms(alloc: Global, emitted: &[ThreadTrace]) -> Result<Vec<GrowingPlaces>, AllocError>
    ensures { IfOk result (λ ps. ps.items ≡ map (λ t. record { entries = []; leaves = []; room = length t.events }) emitted.now) }
{
    let mut places = Vec::with_capacity(alloc, emitted.len())?;
    for thread in emitted {
        places.push(GrowingPlaces::new(alloc, thread.log().events().len())?)?;
    }
    Ok(places)
}

// The guest of the image, run along the trace as far as any run can that follows it, with states kept on the way.
pub fn followed<'a, G: Gate>(
    alloc: Global,
    image: &'a Image,
    trace: Trace,
    passing: &mut Passing,
    gate: &G,
) -> Result<Follower<'a>, AllocError>
    requires { HasHeader image.now trace }
    ensures followed { IfOk result (λ f. IsFollowed image.now trace f.flat f.places.items) }
    ensures trace { IfOk result (λ f. f.trace ≡ trace) }
    ensures sized { IfOk result (λ f. IsSized f) }
    ensures passed { OnOk result (ArePassed image.now trace passing.old.states.items → ArePassed image.now trace passing.new.states.items) }
{
    let flat = Flat::start(alloc, image, trace.budget(), trace.profile())?;
    let count = trace.threads().len();
    let mut ready = Vec::with_capacity(alloc, count)?;
    ready.resize(count, Readiness::Ready)?;
    let places = rooms(alloc, trace.threads())?;
    let mut follower = Follower {
        flat,
        trace,
        ready,
        waiting: 0,
        places,
        stretches: Vec::new(alloc),
    };
    follower.follow(passing, gate);
    Ok(follower)
}

impl Follower<'_> {
    // What is said of thread t, which has no further step that follows.
    pub fn verdict(&self, t: usize) -> ThreadVerdict
        requires sized { IsSized self.now }
        requires thread { t < length self.now.flat.threads }
        requires stopped { IsStoppedAhead self.now.trace self.now.flat t }
        ensures { (guest : Guest) (k : IsFollower guest self.now.trace self.now.flat self.now.places.items)
            → StandsAs (machine (start_flat guest self.now.trace.budget self.now.trace.profile))
            (tables (start_flat guest self.now.trace.budget self.now.trace.profile)) (trace_of self.now.trace) k.run t result }
    {
        let thread = self.thread(t);
        match self.look(t) {
            Look::Done => ThreadVerdict::Same,
            Look::Waits(_) => ThreadVerdict::Starves {
                event: thread.events(),
            },
            Look::Disagrees | Look::Goes(_) => ThreadVerdict::Disagrees {
                event: thread.events(),
                step: thread.steps(),
            },
        }
    }
}
