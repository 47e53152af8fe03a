//! A step of one thread alone, such as gdb makes over a breakpoint.

ghost use Rattle.std.specs.Prelude.{◌≡◌, ◌<◌, ◌≤◌, OnOk, OnErr, IfOk, length};
ghost use Rattle.ir_cut.specs.Positions.{EachRun, cut_of, threads_of, last_of};
ghost use Rattle.ir_timeline.specs.Hand.{IsCutOf};
ghost use Rattle.ir_gdb.specs.Stub.{stub_spoken};
ghost use Rattle.ir_gdb.specs.Stops.{position_of};
ghost use Rattle.ir_gdb.specs.Together.{Halt};
ghost use Rattle.ir_gdb.specs.Over.{pc_here, HasHit, OtherHasHit, PassesHit, reason_over, StepsOver, is_waiting, is_step, waits, no_more, LeadsAlone, after_motion, after_alone};
ghost use Rattle.ir_gdb.specs.Moves.{all_at_stop};

use crate::numbered::points_with;
use crate::remote::Remote;
use crate::stopped::Stopped;
use ir_command::Direction;
use ir_cut::Cut;
use ir_object::Hands;
use ir_packet::{Motion, Reason};
use std::alloc::AllocError;

// Gdb lets a thread that waits go on freely, also where it was asked for one step: alone it makes no more than this.
fn no_more(motion: Motion) -> Motion
    ensures { result ≡ no_more motion }
{
    match motion {
        Motion::Continue => Motion::Step,
        _ => motion,
    }
}

// Whether gdb moves the threads together, as a move of one alone says: one step says nothing of the others.
fn after_motion(together: bool, motion: Motion) -> bool
    ensures { result ≡ after_motion together motion }
{
    match motion {
        Motion::Step | Motion::StepBack => together,
        _ => false,
    }
}

// Whether a motion is one step forwards.
fn is_step(motion: Motion) -> bool
    ensures { result ≡ is_step motion }
{
    matches!(motion, Motion::Step)
}

// Whether a stop says that a thread waits.
fn is_waiting(reason: Reason) -> bool
    ensures { result ≡ is_waiting reason }
{
    matches!(reason, Reason::Waits)
}

impl Remote {
    // Whether a thread has a hit on its way to a cut, a breakpoint at this address counted.
    fn has_hit<H: Hands>(
        &mut self,
        hands: &H,
        thread: u32,
        pc: u32,
        cut: &Cut,
    ) -> Result<bool, AllocError>
        requires thread { thread < threads_of self.old.stub.desk.fitted }
        requires cut { IsCutOf self.old.stub.desk.fitted cut.now }
        ensures stub { self.new.stub ≡ stub_spoken self.old.stub }
        ensures hit { IfOk result (λ is. EachRun self.old.stub.desk.fitted (λ run. HasHit is run self.old.stub pc cut.now thread)) }
    {
        self.has_run();
        self.speak();
        let to = cut.position(thread as usize);
        if to <= self.position(thread) {
            return Ok(false);
        }
        let here = self.here()?;
        let points = points_with(hands.alloc(), thread, self.halts(false), pc)?;
        let points = points.as_slice();
        let hit = self
            .debugger
            .search_up_to(hands, &here, thread, to, points)?;
        Ok(hit.is_some())
    }

    // Whether another thread has a hit on its way to a cut, a breakpoint where this one is counted.
    fn other_has_hit<H: Hands>(
        &mut self,
        hands: &H,
        thread: u32,
        cut: &Cut,
    ) -> Result<bool, AllocError>
        requires thread { thread < threads_of self.old.stub.desk.fitted }
        requires cut { IsCutOf self.old.stub.desk.fitted cut.now }
        ensures stub { self.new.stub ≡ stub_spoken self.old.stub }
        ensures hit { IfOk result (λ is. EachRun self.old.stub.desk.fitted (λ run. OtherHasHit is run self.old.stub (pc_here run self.old.stub thread) cut.now thread)) }
    {
        let position = self.position(thread);
        let pc = self.pc_at(hands, thread, position)?;
        let count = self.count();
        'threads: for other in 0..count {
            if other == thread {
                continue;
            }
            if self.has_hit(hands, other, pc, cut)? {
                return Ok(true);
            }
        }
        Ok(false)
    }

    // Whether a step of a thread alone to a cut would pass a hit of another that has to be shown.
    fn passes_hit<H: Hands>(
        &mut self,
        hands: &H,
        thread: u32,
        cut: &Cut,
    ) -> Result<bool, AllocError>
        requires thread { thread < threads_of self.old.stub.desk.fitted }
        requires cut { IsCutOf self.old.stub.desk.fitted cut.now }
        ensures stub { self.new.stub ≡ stub_spoken self.old.stub }
        ensures hit { IfOk result (λ is. EachRun self.old.stub.desk.fitted (λ run. PassesHit self.old.stub.together is run self.old.stub cut.now thread)) }
    {
        if self.together {
            let found = self.other_has_hit(hands, thread, cut)?;
            return Ok(found);
        }
        self.speak();
        Ok(false)
    }

    // Why a thread stops there that steps alone: at its last position it waits for ever.
    fn reason_over(&self, thread: u32, to: Stopped) -> Reason
        requires { thread < threads_of self.now.stub.desk.fitted }
        ensures { result ≡ reason_over (last_of self.now.stub.desk.fitted thread) to }
    {
        if to.position == self.last(thread) {
            return Reason::Waits;
        }
        to.reason
    }

    // One step of a thread alone.
    fn step_over<H: Hands>(&mut self, hands: &H, thread: u32) -> Result<(), AllocError>
        requires { thread < threads_of self.old.stub.desk.fitted }
        ensures ok { OnOk result ((h : Halt) × EachRun self.old.stub.desk.fitted (λ run. StepsOver run self.old.stub thread h) × (self.new.stub ≡ all_at_stop self.old.stub h)) }
        ensures err { OnErr result (self.new.stub ≡ stub_spoken self.old.stub) }
    {
        let to = self.stop_of(hands, thread, Motion::Step)?;
        let alloc = hands.alloc();
        let cut = self.cut_to(alloc, thread, Direction::Forwards, to.position)?;
        if self.passes_hit(hands, thread, &cut)? {
            let here = self.here()?;
            return self.settle(hands, here, thread, Reason::Waits);
        }
        let reason = self.reason_over(thread, to);
        self.settle(hands, cut, thread, reason)
    }

    // Whether the last stop says that a thread waits.
    fn waits(&self, thread: u32) -> bool
        ensures { result ≡ waits self.now.stub thread }
    {
        self.told.thread == thread && is_waiting(self.told.reason)
    }

    // A move of a thread alone.
    pub(crate) fn lead_alone<H: Hands>(
        &mut self,
        hands: &H,
        thread: u32,
        motion: Motion,
    ) -> Result<(), AllocError>
        requires { thread < threads_of self.old.stub.desk.fitted }
        ensures ok { OnOk result ((h : Halt) × EachRun self.old.stub.desk.fitted (λ run. LeadsAlone run self.old.stub thread motion h) × (self.new.stub ≡ all_at_stop self.old.stub h)) }
        ensures err { OnErr result (self.new.stub ≡ stub_spoken self.old.stub) }
    {
        if self.waits(thread) {
            return self.move_alone(hands, thread, no_more(motion));
        }
        if is_step(motion) {
            return self.step_over(hands, thread);
        }
        self.move_alone(hands, thread, motion)
    }

    // Whether gdb moves the threads together, after a move of one alone.
    pub(crate) fn after_alone(&self, thread: u32, motion: Motion) -> bool
        ensures { result ≡ after_alone self.now.stub thread motion }
    {
        if self.waits(thread) {
            return false;
        }
        after_motion(self.together, motion)
    }
}
