//! Where a thread stops that moves alone.

ghost use Rattle.std.specs.Prelude.{◌≡◌, ◌<◌, ◌≤◌, ◌+◌, ◌-◌, length, IfOk};
ghost use Rattle.std.specs.List.{AllByRecursion};
ghost use Rattle.ir_cut.specs.Positions.{EachRun, cut_of, threads_of, last_of, thread_at};
ghost use Rattle.ir_hits.specs.Watchable.{AreWatchable};
ghost use Rattle.ir_timeline.specs.Hand.{IsCutOf};
ghost use Rattle.ir_gdb.specs.Stub.{IsWatched, most_stub_points, stub_spoken};
ghost use Rattle.ir_gdb.specs.Points.{watches_if, upwards_of};
ghost use Rattle.ir_gdb.specs.Stops.{Leaves, WatchNext, position_of, StepsTo, RangesTo, ContinuesTo, StepsBackTo, StopsBelow, ContinuesBackTo, StopsInDirection, MovesTo};

use crate::numbered::{Halts, points_upwards, watch_points};
use crate::point::Watched;
use crate::remote::Remote;
use crate::stopped::{Stopped, after_range, end_above, end_below, reason_of_hit, stop_or_end};
use ir_command::Direction;
use ir_cut::Cut;
use ir_hits::NumberedPoint;
use ir_object::Hands;
use ir_packet::{Motion, Reason};
use std::alloc::{AllocError, Global};

impl Remote {
    // The watches that count for a thread: all for the one that moves, and those of the objects for another.
    #[tactic(auto, using(crate::proofs::Setting::shared_are_watched))]
    pub(crate) fn watches_if(&self, watched: bool) -> &[Watched]
        ensures value { result.now ≡ watches_if self.now.stub watched }
        ensures watched { AllByRecursion IsWatched result.now }
        ensures few { length self.now.stub.breaks + length result.now ≤ most_stub_points }
    {
        if watched {
            return self.watches.as_slice();
        }
        self.watches.shared()
    }

    // What may stop a thread.
    pub(crate) fn halts(&self, watched: bool) -> Halts<'_>
        ensures watches { result.watches.now ≡ watches_if self.now.stub watched }
        ensures breaks { result.breaks.now ≡ self.now.stub.breaks }
        ensures own { result.own.now ≡ self.now.stub.desk.points }
        ensures watched { AllByRecursion IsWatched result.watches.now }
        ensures few { length result.breaks.now + length result.watches.now ≤ most_stub_points }
        ensures watchable { AreWatchable result.own.now }
    {
        self.debugger.fitted().known();
        Halts {
            watches: self.watches_if(watched),
            breaks: self.breaks.as_slice(),
            own: self.debugger.points(),
        }
    }

    // The points of a thread for a search upwards.
    pub(crate) fn upwards(
        &self,
        alloc: Global,
        thread: u32,
        watched: bool,
    ) -> Result<Vec<NumberedPoint>, AllocError>
        ensures points { IfOk result (λ v. v.items ≡ upwards_of self.now.stub thread watched) }
        ensures watchable { IfOk result (λ v. AreWatchable v.items) }
    {
        points_upwards(alloc, thread, self.halts(watched))
    }

    // Why a thread stops before the step after its position in a cut, if a watch hits it at the step's end.
    fn watch_next<H: Hands>(
        &mut self,
        hands: &H,
        from: &Cut,
        thread: u32,
        watched: bool,
    ) -> Result<Option<Reason>, AllocError>
        requires cut { IsCutOf self.old.stub.desk.fitted from.now }
        requires thread { thread < threads_of self.old.stub.desk.fitted }
        requires within { cut_of from.now thread < last_of self.old.stub.desk.fitted thread }
        ensures stub { self.new.stub ≡ stub_spoken self.old.stub }
        ensures watch { IfOk result (λ reason. EachRun self.old.stub.desk.fitted (λ run. WatchNext run self.old.stub thread watched (cut_of from.now thread) reason)) }
    {
        self.speak();
        self.last(thread);
        let points = watch_points(hands.alloc(), thread, self.watches_if(watched))?;
        if points.is_empty() {
            return Ok(None);
        }
        let to = from.position(thread as usize) + 1;
        let points = points.as_slice();
        let hit = self.debugger.search_up_to(hands, from, thread, to, points)?;
        Ok(reason_of_hit(self.watches_if(watched), hit))
    }

    // One step.
    fn step<H: Hands>(
        &mut self,
        hands: &H,
        thread: u32,
        watched: bool,
    ) -> Result<Stopped, AllocError>
        requires { thread < threads_of self.old.stub.desk.fitted }
        ensures stub { self.new.stub ≡ stub_spoken self.old.stub }
        ensures stops { IfOk result (λ to. EachRun self.old.stub.desk.fitted (λ run. StepsTo run self.old.stub thread watched to)) }
        ensures within { IfOk result (λ to. to.position ≤ last_of self.old.stub.desk.fitted thread) }
    {
        self.speak();
        let position = self.position(thread);
        if position == self.last(thread) {
            let reason = Reason::End;
            return Ok(Stopped { position, reason });
        }
        let here = self.here()?;
        if let Some(reason) = self.watch_next(hands, &here, thread, watched)? {
            return Ok(Stopped { position, reason });
        }
        Ok(Stopped {
            position: position + 1,
            reason: Reason::Step,
        })
    }

    // The pc of a thread, where all threads are at a cut.
    pub(crate) fn pc_in<H: Hands>(
        &mut self,
        hands: &H,
        cut: &Cut,
        thread: u32,
    ) -> Result<u32, AllocError>
        requires thread { thread < threads_of self.old.stub.desk.fitted }
        requires cut { IsCutOf self.old.stub.desk.fitted cut.now }
        ensures stub { self.new.stub ≡ stub_spoken self.old.stub }
        ensures pc { IfOk result (λ pc. EachRun self.old.stub.desk.fitted (λ run. pc ≡ (thread_at self.old.stub.desk.fitted run thread (cut_of cut.now thread)).core.pc)) }
    {
        self.debugger.visit(hands, cut)?;
        let pc = self.visited(cut, thread).mach().pc();
        Ok(pc)
    }

    // The pc of a thread at a position that isn't below its own.
    pub(crate) fn pc_at<H: Hands>(
        &mut self,
        hands: &H,
        thread: u32,
        position: u64,
    ) -> Result<u32, AllocError>
        requires thread { thread < threads_of self.old.stub.desk.fitted }
        requires within { (position_of self.old.stub thread ≤ position) × (position ≤ last_of self.old.stub.desk.fitted thread) }
        ensures stub { self.new.stub ≡ stub_spoken self.old.stub }
        ensures pc { IfOk result (λ pc. EachRun self.old.stub.desk.fitted (λ run. pc ≡ (thread_at self.old.stub.desk.fitted run thread position).core.pc)) }
    {
        self.speak();
        let here = self.here()?;
        let cut = self.cut_on(hands.alloc(), &here, thread, position)?;
        self.pc_in(hands, &cut, thread)
    }

    // The first position above a thread's own at which its pc isn't in a range, if there is one. Each cut is found from the one
    // before: found from the thread's own, each would take time linear in all entries up to it.
    fn leaves<H: Hands>(
        &mut self,
        hands: &H,
        thread: u32,
        low: u32,
        high: u32,
    ) -> Result<Option<u64>, AllocError>
        requires { thread < threads_of self.old.stub.desk.fitted }
        ensures stub { self.new.stub ≡ stub_spoken self.old.stub }
        ensures leaves { IfOk result (λ left. EachRun self.old.stub.desk.fitted (λ run. Leaves run self.old.stub thread low high left)) }
    {
        self.speak();
        let last = self.last(thread);
        let mut position = self.position(thread);
        let mut at = self.here()?;
        'steps: while position < last {
            position += 1;
            at = self.cut_on(hands.alloc(), &at, thread, position)?;
            let pc = self.pc_in(hands, &at, thread)?;
            if pc < low || high <= pc {
                return Ok(Some(position));
            }
        }
        Ok(None)
    }

    // Steps until pc isn't in a range, or a stop; at least one.
    fn range<H: Hands>(
        &mut self,
        hands: &H,
        thread: u32,
        low: u32,
        high: u32,
        watched: bool,
    ) -> Result<Stopped, AllocError>
        requires { thread < threads_of self.old.stub.desk.fitted }
        ensures stub { self.new.stub ≡ stub_spoken self.old.stub }
        ensures stops { IfOk result (λ to. EachRun self.old.stub.desk.fitted (λ run. RangesTo run self.old.stub thread low high watched to)) }
        ensures within { IfOk result (λ to. to.position ≤ last_of self.old.stub.desk.fitted thread) }
    {
        self.has_run();
        self.position(thread);
        let last = self.last(thread);
        let left = self.leaves(hands, thread, low, high)?;
        let end = after_range(last, left);
        let hit = self.next_stop(hands, thread, end.position, watched)?;
        let halts = self.halts(watched);
        Ok(stop_or_end(halts.watches, halts.breaks, end, hit))
    }

    // To the next stop.
    fn above<H: Hands>(
        &mut self,
        hands: &H,
        thread: u32,
        watched: bool,
    ) -> Result<Stopped, AllocError>
        requires { thread < threads_of self.old.stub.desk.fitted }
        ensures stub { self.new.stub ≡ stub_spoken self.old.stub }
        ensures stops { IfOk result (λ to. EachRun self.old.stub.desk.fitted (λ run. ContinuesTo run self.old.stub thread watched to)) }
        ensures within { IfOk result (λ to. to.position ≤ last_of self.old.stub.desk.fitted thread) }
    {
        self.has_run();
        let last = self.last(thread);
        let hit = self.first_stop_above(hands, thread, watched)?;
        let halts = self.halts(watched);
        Ok(end_above(halts.watches, halts.breaks, last, hit))
    }

    // Why a thread that isn't at 0 stays where it is when it moves back: a watch hits it there.
    fn watch_here<H: Hands>(
        &mut self,
        hands: &H,
        thread: u32,
        watched: bool,
    ) -> Result<Option<Reason>, AllocError>
        requires thread { thread < threads_of self.old.stub.desk.fitted }
        requires above { 0 < position_of self.old.stub thread }
        ensures stub { self.new.stub ≡ stub_spoken self.old.stub }
        ensures watch { IfOk result (λ reason. EachRun self.old.stub.desk.fitted (λ run. WatchNext run self.old.stub thread watched (position_of self.old.stub thread - 1) reason)) }
    {
        self.speak();
        if self.watches_if(watched).is_empty() {
            return Ok(None);
        }
        let before = self.position(thread) - 1;
        let cut = self.cut_behind(hands.alloc(), thread, before)?;
        self.watch_next(hands, &cut, thread, watched)
    }

    // One step back.
    fn back<H: Hands>(
        &mut self,
        hands: &H,
        thread: u32,
        watched: bool,
    ) -> Result<Stopped, AllocError>
        requires { thread < threads_of self.old.stub.desk.fitted }
        ensures stub { self.new.stub ≡ stub_spoken self.old.stub }
        ensures stops { IfOk result (λ to. EachRun self.old.stub.desk.fitted (λ run. StepsBackTo run self.old.stub thread watched to)) }
        ensures within { IfOk result (λ to. to.position ≤ last_of self.old.stub.desk.fitted thread) }
    {
        let position = self.position(thread);
        if position == 0 {
            self.speak();
            let reason = Reason::Begin;
            return Ok(Stopped { position, reason });
        }
        if let Some(reason) = self.watch_here(hands, thread, watched)? {
            return Ok(Stopped { position, reason });
        }
        Ok(Stopped {
            position: position - 1,
            reason: Reason::Step,
        })
    }

    // The stop that is found downwards.
    fn found_below<H: Hands>(
        &mut self,
        hands: &H,
        thread: u32,
        watched: bool,
    ) -> Result<Stopped, AllocError>
        requires { thread < threads_of self.old.stub.desk.fitted }
        ensures stub { self.new.stub ≡ stub_spoken self.old.stub }
        ensures stops { IfOk result (λ to. EachRun self.old.stub.desk.fitted (λ run. StopsBelow run self.old.stub thread watched to)) }
        ensures within { IfOk result (λ to. to.position ≤ last_of self.old.stub.desk.fitted thread) }
    {
        self.has_run();
        self.position(thread);
        let hit = self.last_stop_below(hands, thread, watched)?;
        let halts = self.halts(watched);
        Ok(end_below(halts.watches, halts.breaks, hit))
    }

    // Back to the stop before.
    fn below<H: Hands>(
        &mut self,
        hands: &H,
        thread: u32,
        watched: bool,
    ) -> Result<Stopped, AllocError>
        requires { thread < threads_of self.old.stub.desk.fitted }
        ensures stub { self.new.stub ≡ stub_spoken self.old.stub }
        ensures stops { IfOk result (λ to. EachRun self.old.stub.desk.fitted (λ run. ContinuesBackTo run self.old.stub thread watched to)) }
        ensures within { IfOk result (λ to. to.position ≤ last_of self.old.stub.desk.fitted thread) }
    {
        let position = self.position(thread);
        if position == 0 {
            self.speak();
            let reason = Reason::Begin;
            return Ok(Stopped { position, reason });
        }
        if let Some(reason) = self.watch_here(hands, thread, watched)? {
            return Ok(Stopped { position, reason });
        }
        self.found_below(hands, thread, watched)
    }

    // Where a thread stops that continues in a direction.
    pub fn continued<H: Hands>(
        &mut self,
        hands: &H,
        thread: u32,
        direction: Direction,
        watched: bool,
    ) -> Result<Stopped, AllocError>
        requires { thread < threads_of self.old.stub.desk.fitted }
        ensures stub { self.new.stub ≡ stub_spoken self.old.stub }
        ensures stops { IfOk result (λ to. EachRun self.old.stub.desk.fitted (λ run. StopsInDirection direction run self.old.stub thread watched to)) }
        ensures within { IfOk result (λ to. to.position ≤ last_of self.old.stub.desk.fitted thread) }
    {
        match direction {
            Direction::Forwards => self.above(hands, thread, watched),
            Direction::Backwards => self.below(hands, thread, watched),
        }
    }

    // Where a thread stops that moves alone.
    pub fn stop_of<H: Hands>(
        &mut self,
        hands: &H,
        thread: u32,
        motion: Motion,
    ) -> Result<Stopped, AllocError>
        requires { thread < threads_of self.old.stub.desk.fitted }
        ensures stub { self.new.stub ≡ stub_spoken self.old.stub }
        ensures stops { IfOk result (λ to. EachRun self.old.stub.desk.fitted (λ run. MovesTo run self.old.stub thread motion to)) }
        ensures within { IfOk result (λ to. to.position ≤ last_of self.old.stub.desk.fitted thread) }
    {
        match motion {
            Motion::Step => self.step(hands, thread, true),
            Motion::Range(low, high) => self.range(hands, thread, low, high, true),
            Motion::Continue => self.above(hands, thread, true),
            Motion::StepBack => self.back(hands, thread, true),
            Motion::ContinueBack => self.below(hands, thread, true),
        }
    }
}
