//! A recorded run in hand.

ghost use Rattle.std.specs.Prelude.{◌≡◌};
ghost use Rattle.ir_moves.specs.Checkpoints.{AreCheckpoints};
ghost use Rattle.ir_fit.specs.Fit.{HasRun};
ghost use Rattle.ir_fit.specs.Passed.{ArePassed};
ghost use Rattle.ir_timeline.specs.Hand.{IsInHand};
ghost use Rattle.ir_timeline.specs.Replaying.{Replaying, IsReplaying};

use crate::hand::InHand;
use crate::searching::{hit_above, hit_below, hit_up_to};
use ir_command::{Direction, Hit};
use ir_cut::Cut;
use ir_fit::{Fitted, PassedState};
use ir_hits::NumberedPoint;
use ir_moves::Checkpoints;
use ir_object::{Hands, Object};
use ir_replay::State;
use ir_thread::Thread;
use std::alloc::{AllocError, Global};
use std::marker::Model;

/// A guest with the trace of one of its runs, its threads and objects at a consistent cut, and states that are kept at others, for
/// moves and searches to begin at. In clauses the trace, the threads and the objects: which states are kept changes no answer.
#[derive(Drop)]
pub struct Timeline {
    fitted: Fitted,
    hand: InHand,
}

impl Model for Timeline {
    ghost Value = { Replaying };

    ghost view = { λ l. record { fitted = l.fitted; state = l.hand.state } };

    ghost invariant = { λ l. HasRun l.fitted × IsInHand l.fitted l.hand };
}

// Keeps states that a run along the trace passed.
fn keep_passed(fitted: &Fitted, checkpoints: &mut Checkpoints, passed: Vec<PassedState>)
    requires checkpoints { AreCheckpoints fitted.now checkpoints.old }
    requires passed { ArePassed fitted.now.guest fitted.now.recorded passed.items }
    ensures { AreCheckpoints fitted.now checkpoints.new }
{
    for state in passed {
        checkpoints.pass(fitted, &State::passed(fitted, state));
    }
}

impl Timeline {
    ghost use Rattle.std.specs.Prelude.{◌<◌, ◌≤◌, IfOk, IsOk, OnOk};
    ghost use Rattle.ir_cut.specs.Positions.{EachRun, cut_of, first_cut, last_of, threads_of};
    ghost use Rattle.ir_hits.specs.Watchable.{AreWatchable};
    ghost use Rattle.ir_hits.specs.Searching.{IsNextHit};
    ghost use Rattle.ir_hits.specs.Hits.{Finds};
    ghost use Rattle.ir_timeline.specs.Hand.{IsCutOf};
    ghost use Rattle.ir_timeline.specs.Replaying.{IsReplayedTo};

    /// The guest at its start, with states that a run along the trace passed. Those for which memory runs out aren't kept.
    ///
    /// # Errors
    /// Out of memory.
    pub fn open(
        alloc: Global,
        fitted: Fitted,
        passed: Vec<PassedState>,
    ) -> Result<Timeline, AllocError>
        requires { ArePassed fitted.guest fitted.recorded passed.items }
        ensures fitted { IfOk result (λ l. l.fitted ≡ fitted) }
        ensures start { IfOk result (λ l. IsReplayedTo l (first_cut fitted)) }
    {
        fitted.known();
        let state = State::start(alloc, &fitted)?;
        let mut checkpoints = Checkpoints::new(alloc, &fitted)?;
        keep_passed(&fitted, &mut checkpoints, passed);
        let hand = InHand { state, checkpoints };
        Ok(Timeline { fitted, hand })
    }

    /// The guest and its trace.
    pub fn fitted(&self) -> &Fitted
        ensures value { result.now ≡ self.now.fitted }
        ensures replaying { IsReplaying self.now }
    {
        &self.fitted
    }

    /// The threads in hand, by their numbers.
    pub fn threads(&self) -> &[Thread]
        ensures { result.now ≡ self.now.state.threads }
    {
        self.hand.state.threads()
    }

    /// The objects in hand, by their numbers.
    pub fn objects(&self) -> &[Object]
        ensures { result.now ≡ self.now.state.objects }
    {
        self.hand.state.objects()
    }

    /// Brings the threads and objects to a cut, from where they are or from the nearest state that is kept.
    ///
    /// # Errors
    /// Out of memory, which doesn't happen if they are there, with the threads and objects at some consistent cut.
    pub fn go_to<H: Hands>(&mut self, hands: &H, to: &Cut) -> Result<(), AllocError>
        requires { IsCutOf self.old.fitted to.now }
        ensures fitted { self.new.fitted ≡ self.old.fitted }
        ensures there { OnOk result (IsReplayedTo self.new to.now) }
        ensures already { IsReplayedTo self.old to.now → IsOk result }
    {
        let state = &mut self.hand.state;
        self.hand.checkpoints.bring(hands, &self.fitted, state, to)
    }

    // The hit that a thread finds from its position in this cut.
    fn find<H: Hands>(
        &mut self,
        hands: &H,
        at: &Cut,
        thread: u32,
        direction: Direction,
        points: &[NumberedPoint],
    ) -> Result<Option<Hit>, AllocError>
        requires cut { IsCutOf self.old.fitted at.now }
        requires thread { thread < threads_of self.old.fitted }
        requires points { AreWatchable points.now }
        ensures fitted { self.new.fitted ≡ self.old.fitted }
        ensures finds { IfOk result (λ hit. EachRun self.old.fitted (λ run. Finds run self.old.fitted points.now thread (cut_of at.now thread) direction hit)) }
    {
        let t = thread as usize;
        match direction {
            Direction::Forwards => {
                self.go_to(hands, at)?;
                hit_above(hands, &self.fitted, &mut self.hand, t, points)
            }
            Direction::Backwards => {
                let from = at.position(t);
                hit_below(hands, &self.fitted, &mut self.hand, t, from, points)
            }
        }
    }

    /// The hit that a thread finds from its position in a cut, upwards or downwards. The threads and objects are then at some consistent
    /// cut. If memory runs out, the states that moves have passed are given up, and it is searched once more.
    ///
    /// # Errors
    /// Out of memory.
    pub fn search<H: Hands>(
        &mut self,
        hands: &H,
        at: &Cut,
        thread: u32,
        direction: Direction,
        points: &[NumberedPoint],
    ) -> Result<Option<Hit>, AllocError>
        requires cut { IsCutOf self.old.fitted at.now }
        requires thread { thread < threads_of self.old.fitted }
        requires points { AreWatchable points.now }
        ensures fitted { self.new.fitted ≡ self.old.fitted }
        ensures finds { IfOk result (λ hit. EachRun self.old.fitted (λ run. Finds run self.old.fitted points.now thread (cut_of at.now thread) direction hit)) }
    {
        if let Ok(hit) = self.find(hands, at, thread, direction, points) {
            return Ok(hit);
        }
        if !self.hand.checkpoints.give_up_all(&self.fitted) {
            return Err(AllocError);
        }
        self.find(hands, at, thread, direction, points)
    }

    /// The hit that a thread finds from its position in a cut upwards, at most at another position. The threads and objects are then at
    /// some consistent cut.
    ///
    /// # Errors
    /// Out of memory.
    pub fn search_up_to<H: Hands>(
        &mut self,
        hands: &H,
        at: &Cut,
        thread: u32,
        to: u64,
        points: &[NumberedPoint],
    ) -> Result<Option<Hit>, AllocError>
        requires cut { IsCutOf self.old.fitted at.now }
        requires thread { thread < threads_of self.old.fitted }
        requires within { (cut_of at.now thread ≤ to) × (to ≤ last_of self.old.fitted thread) }
        requires points { AreWatchable points.now }
        ensures fitted { self.new.fitted ≡ self.old.fitted }
        ensures finds { IfOk result (λ hit. EachRun self.old.fitted (λ run. IsNextHit self.old.fitted run points.now thread (cut_of at.now thread) to hit)) }
    {
        self.go_to(hands, at)?;
        let t = thread as usize;
        hit_up_to(hands, &self.fitted, &mut self.hand, t, to, points)
    }

    /// Keeps the state in hand, for moves and searches to begin at. Beside the start 64 are kept at most.
    ///
    /// # Errors
    /// Out of memory.
    pub fn keep(&mut self) -> Result<(), AllocError>
        ensures { self.new ≡ self.old }
    {
        self.hand.checkpoints.keep(&self.fitted, &self.hand.state)
    }

    /// Gives up a state that was kept at this cut by `keep`, if there is one.
    pub fn drop_kept(&mut self, cut: &Cut)
        ensures { self.new ≡ self.old }
    {
        self.hand.checkpoints.drop_kept(&self.fitted, cut);
    }
}
