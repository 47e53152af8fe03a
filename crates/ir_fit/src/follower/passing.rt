//! Which states a run along a trace keeps on its way, and where its threads pause for them.

ghost use Rattle.std.specs.Prelude.{◌≡◌, ◌<◌};
ghost use Rattle.ir_image.specs.Guest.{Guest};
ghost use Rattle.ir_trace.specs.Recorded.{Recorded};
ghost use Rattle.ir_fit.specs.Passed.{IsAlong, ArePassed};

use crate::passed_state::PassedState;
use ir_flat::Flat;
use ir_trace::Trace;
use std::alloc::Global;

// The most states that are kept.
const MOST_SAVED: u64 = 64;

// The most threads in all that are kept with them.
const MOST_COPIES: u64 = 1024;

// The least steps from one state to the next, for each thread: many more than it costs to keep one.
const LEAST_GAP: u64 = 1 << 19;

// So few steps before the end, for each thread, no more states are kept of a long run but that at the end.
const LEAST_NEAR: u64 = 1 << 14;

// The least steps from where a thread paused to where it pauses next.
pub const LEAST_LEAD: u64 = 1 << 10;

/// The states that are kept so far, and when the next one is.
#[derive(Drop)]
pub struct Passing {
    // Where each thread pauses next, by its number. A thread without a place here doesn't pause.
    pub pauses: Vec<u64>,
    pub states: Vec<PassedState>,
    // How many states are kept at most.
    most: u64,
    // The next state is kept when no more steps than these are left to all threads.
    mark: u64,
    // How many steps are from one state to the next, far from the end, and before the end in which no more are kept.
    gap: u64,
    near: u64,
}

// How many steps the threads take in all.
fn steps_in(trace: &Trace) -> u64 {
    let mut steps = 0u64;
    for thread in trace.threads() {
        steps = steps.saturating_add(thread.steps());
    }
    steps
}

// How many steps before the end no more states are kept: the fewer, the longer the run.
fn near_of(steps: u64, threads: u64) -> u64 {
    let gap = threads.saturating_mul(LEAST_GAP);
    let gaps = steps / gap.max(1);
    (gap / gaps.max(1)).max(threads.saturating_mul(LEAST_NEAR))
}

// By gaps, near the end by halves, and before the end all at once.
fn pieces_of(left: u64, gap: u64, near: u64) -> u64
    ensures { 0 < result }
{
    if left <= near {
        return 1;
    }
    (left / gap.max(1)).max(2)
}

impl Passing {
    /// No state is kept, and no thread pauses.
    pub fn none(alloc: Global) -> Passing
        ensures { (guest : Guest) (r : Recorded) → ArePassed guest r result.states.items }
    {
        Passing {
            pauses: Vec::new(alloc),
            states: Vec::new(alloc),
            most: 0,
            mark: 0,
            gap: 0,
            near: 0,
        }
    }

    /// States are kept at gaps, and near the end by halves. None are of a short run, or if memory runs out.
    pub fn along(alloc: Global, trace: &Trace) -> Passing
        ensures { (guest : Guest) (r : Recorded) → ArePassed guest r result.states.items }
    {
        let steps = steps_in(trace);
        let count = trace.threads().len();
        let threads = count as u64;
        let least = threads.saturating_mul(LEAST_GAP);
        let mut pauses = Vec::new(alloc);
        if steps < least || pauses.resize(count, 0).is_err() {
            return Passing::none(alloc);
        }
        let most = (MOST_COPIES / threads.max(1)).min(MOST_SAVED);
        let gap = (steps / (most * 3 / 4).max(1)).max(least);
        let near = near_of(steps, threads);
        Passing {
            pauses,
            states: Vec::new(alloc),
            most,
            mark: steps - steps / pieces_of(steps, gap, near),
            gap,
            near,
        }
    }

    /// Into how many pieces the steps that are left are divided, of which the first leads to the next state.
    pub fn pieces(&self, left: u64) -> u64
        ensures { 0 < result }
    {
        pieces_of(left, self.gap, self.near)
    }

    /// Where a thread pauses next.
    pub fn pause_of(&self, t: usize) -> u64 {
        match self.pauses.get(t) {
            Some(pause) => *pause,
            None => u64::MAX,
        }
    }

    // Whether there is room for another state: the last place is for the one at the end.
    fn has_room(&self, left: u64) -> bool {
        let kept = self.states.len() as u64;
        kept + 1 < self.most || (left == 0 && kept < self.most)
    }

    // Keeps a copy of the threads and objects, unless memory runs out.
    fn keep(&mut self, flat: &Flat)
        ensures { (guest : Guest) (r : Recorded) → IsAlong guest r flat.now → ArePassed guest r self.old.states.items → ArePassed guest r self.new.states.items }
    {
        if let Ok(copy) = flat.copy() {
            let (threads, objects) = copy.into_parts();
            let _ = self.states.push(PassedState { threads, objects });
        }
    }

    /// The threads and objects after steps that leave `left` to all threads, which are kept if it is time for it.
    pub fn reach(&mut self, flat: &Flat, left: u64)
        ensures { (guest : Guest) (r : Recorded) → IsAlong guest r flat.now → ArePassed guest r self.old.states.items → ArePassed guest r self.new.states.items }
    {
        if left > self.mark {
            return;
        }
        self.mark = left - left / self.pieces(left);
        if self.has_room(left) {
            self.keep(flat);
        }
    }
}
