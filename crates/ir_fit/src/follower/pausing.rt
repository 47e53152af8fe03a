//! Threads that pause, so that states are kept on the way.

ghost use Rattle.std.specs.Prelude.{◌≡◌, ◌<◌, ◌≤◌, length};
ghost use Rattle.ir_image.specs.Guest.{Guest};
ghost use Rattle.ir_fit.specs.Follower.{IsSized};
ghost use Rattle.ir_fit.specs.Passed.{IsAlong, ArePassed};

use crate::follower::Follower;
use crate::follower::passing::{LEAST_LEAD, Passing};
use crate::follower::readiness::Readiness;
use ir_object::MOST_UNTOLD;

// Threads that paused are ready again.
fn resume(ready: &mut Vec<Readiness>)
    ensures { length ready.new.items ≡ length ready.old.items }
{
    for t in 0..ready.len() {
        if ready[t] == Readiness::Paused {
            ready[t] = Readiness::Ready;
        }
    }
}

impl Follower<'_> {
    // How many steps thread t runs at most, to which the trace leaves so many, until it pauses or the gate is told.
    #[inline(always)]
    pub fn step_limit(&self, t: usize, ahead: u64, pause: u64) -> u64
        requires { t < length self.now.flat.threads }
        ensures { result ≤ ahead }
    {
        let until = pause.saturating_sub(self.thread(t).steps());
        ahead.min(until).min(MOST_UNTOLD)
    }

    // Thread t goes no further for now.
    pub fn pause(&mut self, t: usize)
        requires sized { IsSized self.old }
        requires thread { t < length self.old.flat.threads }
        ensures flat { self.new.flat ≡ self.old.flat }
        ensures trace { self.new.trace ≡ self.old.trace }
        ensures places { self.new.places.items ≡ self.old.places.items }
        ensures sized { IsSized self.new }
    {
        self.ready[t] = Readiness::Paused;
    }

    // How many steps the trace leaves to all threads.
    fn all_left(&self) -> u64
        requires { IsSized self.now }
    {
        let mut left = 0u64;
        for t in 0..self.flat.threads().len() {
            left = left.saturating_add(self.steps_left(t));
        }
        left
    }

    // Each thread pauses next where it has gone the first of so many pieces of what is left to it.
    fn lead(&self, pieces: u64, pauses: &mut Vec<u64>)
        requires sized { IsSized self.now }
        requires some { 0 < pieces }
    {
        pauses.clear();
        for t in 0..self.flat.threads().len() {
            let steps = self.steps_left(t) / pieces;
            let from = self.thread(t).steps().saturating_add(LEAST_LEAD);
            let _ = pauses.push(from.saturating_add(steps));
        }
    }

    // Where no thread is ready any more: the state is kept if it is time for it, and threads that paused are ready again.
    pub fn pass(&mut self, passing: &mut Passing)
        requires { IsSized self.old }
        ensures flat { self.new.flat ≡ self.old.flat }
        ensures places { self.new.places.items ≡ self.old.places.items }
        ensures trace { self.new.trace ≡ self.old.trace }
        ensures sized { IsSized self.new }
        ensures passed { (guest : Guest) → IsAlong guest self.old.trace self.old.flat
            → ArePassed guest self.old.trace passing.old.states.items → ArePassed guest self.old.trace passing.new.states.items }
    {
        if passing.pauses.is_empty() {
            return;
        }
        let left = self.all_left();
        passing.reach(&self.flat, left);
        self.lead(passing.pieces(left), &mut passing.pauses);
        resume(&mut self.ready);
    }
}
