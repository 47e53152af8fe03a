//! Moves of one thread, in which the others may be stopped at their hits.

ghost use Rattle.std.specs.Prelude.{◌≡◌, ◌<◌, true, OnOk, OnErr, IfOk, IfSome};
ghost use Rattle.ir_cut.specs.Positions.{EachRun, threads_of};
ghost use Rattle.ir_timeline.specs.Hand.{IsCutOf};
ghost use Rattle.ir_gdb.specs.Stub.{stub_spoken};
ghost use Rattle.ir_gdb.specs.Stops.{reason_at_end};
ghost use Rattle.ir_gdb.specs.Together.{Halt, halt, AreWithin, MetBy, StopsAmong, FirstStop, first_met, furthest, StepsAmong, ContinuesAmong, MovesAmong};
ghost use Rattle.ir_gdb.specs.Moves.{all_at_stop};

use crate::remote::Remote;
use crate::remote::moves::direction_of;
use crate::stopped::{Stopped, is_hit};
use ir_command::Direction;
use ir_cut::Cut;
use ir_object::Hands;
use ir_packet::{Motion, Reason};
use ir_timeline::{first_cut, last_cut};
use std::alloc::{AllocError, Global};

// Why all threads stop that have no hit in a direction.
fn end_of(direction: Direction) -> Reason
    ensures { result ≡ reason_at_end direction }
{
    match direction {
        Direction::Forwards => Reason::End,
        Direction::Backwards => Reason::Begin,
    }
}

impl Remote {
    // The first that is met on the way to a cut stops, or a thread at its own stop.
    fn settle_first<H: Hands>(
        &mut self,
        hands: &H,
        cut: Cut,
        thread: u32,
        direction: Direction,
        reason: Reason,
    ) -> Result<(), AllocError>
        requires cut { IsCutOf self.old.stub.desk.fitted cut }
        requires thread { thread < threads_of self.old.stub.desk.fitted }
        ensures ok { OnOk result
            ((h : Halt) × EachRun self.old.stub.desk.fitted (λ run. MetBy true run self.old.stub direction cut (halt thread cut reason) h)
            × (self.new.stub ≡ all_at_stop self.old.stub h)) }
        ensures err { OnErr result (self.new.stub ≡ stub_spoken self.old.stub) }
    {
        let each = self.stops(hands, thread, direction)?;
        let each = each.as_slice();
        match self.first_met(hands.alloc(), direction, each, &cut, thread)? {
            Some((other, own)) => self.settle(hands, own, other, each[other as usize].reason),
            None => self.settle(hands, cut, thread, reason),
        }
    }

    // A few steps of one thread, which a hit of another may stop on its way.
    fn step_among<H: Hands>(
        &mut self,
        hands: &H,
        thread: u32,
        motion: Motion,
    ) -> Result<(), AllocError>
        requires { thread < threads_of self.old.stub.desk.fitted }
        ensures ok { OnOk result ((h : Halt) × EachRun self.old.stub.desk.fitted (λ run. StepsAmong run self.old.stub thread motion h) × (self.new.stub ≡ all_at_stop self.old.stub h)) }
        ensures err { OnErr result (self.new.stub ≡ stub_spoken self.old.stub) }
    {
        let to = self.stop_of(hands, thread, motion)?;
        let direction = direction_of(motion);
        let alloc = hands.alloc();
        let cut = self.cut_to(alloc, thread, direction, to.position)?;
        if self.moves_other(&cut, thread) {
            return self.settle_first(hands, cut, thread, direction, to.reason);
        }
        self.settle(hands, cut, thread, to.reason)
    }

    // The stop where a thread continues: that of a thread that has a hit on the way, or its own hit. None where there is none.
    fn stop_among(
        &self,
        alloc: Global,
        direction: Direction,
        each: &[Stopped],
        thread: u32,
    ) -> Result<Option<(u32, Cut)>, AllocError>
        requires within { AreWithin self.now.stub each.now }
        requires thread { thread < threads_of self.now.stub.desk.fitted }
        ensures stops { IfOk result (λ stop. EachRun self.now.stub.desk.fitted (λ run. StopsAmong run self.now.stub direction each.now thread (first_met each.now stop))) }
        ensures cuts { IfOk result (λ stop. IfSome stop (λ m. IsCutOf self.now.stub.desk.fitted m.1)) }
        ensures threads { IfOk result (λ stop. IfSome stop (λ m. m.0 < threads_of self.now.stub.desk.fitted)) }
    {
        let to = each[thread as usize];
        let cut = self.cut_to(alloc, thread, direction, to.position)?;
        if let Some(met) = self.first_met(alloc, direction, each, &cut, thread)? {
            return Ok(Some(met));
        }
        if is_hit(to.reason) {
            return Ok(Some((thread, cut)));
        }
        Ok(None)
    }

    // The stop of the first thread that has one, of this thread and then the others by their numbers.
    fn first_stop(
        &self,
        alloc: Global,
        direction: Direction,
        each: &[Stopped],
        thread: u32,
    ) -> Result<Option<(u32, Cut)>, AllocError>
        requires within { AreWithin self.now.stub each.now }
        requires thread { thread < threads_of self.now.stub.desk.fitted }
        ensures stops { IfOk result (λ stop. EachRun self.now.stub.desk.fitted (λ run. FirstStop run self.now.stub direction each.now thread (first_met each.now stop))) }
        ensures cuts { IfOk result (λ stop. IfSome stop (λ m. IsCutOf self.now.stub.desk.fitted m.1)) }
        ensures threads { IfOk result (λ stop. IfSome stop (λ m. m.0 < threads_of self.now.stub.desk.fitted)) }
    {
        if let Some(stop) = self.stop_among(alloc, direction, each, thread)? {
            return Ok(Some(stop));
        }
        let count = self.count();
        'threads: for other in 0..count {
            if other == thread {
                continue;
            }
            if let Some(stop) = self.stop_among(alloc, direction, each, other)? {
                return Ok(Some(stop));
            }
        }
        Ok(None)
    }

    // The cut at which all threads are that have no hit in a direction.
    fn furthest(&self, alloc: Global, direction: Direction) -> Result<Cut, AllocError>
        ensures value { IfOk result (λ cut. cut ≡ furthest self.now.stub direction) }
        ensures cut { IfOk result (λ cut. IsCutOf self.now.stub.desk.fitted cut) }
    {
        match direction {
            Direction::Forwards => last_cut(alloc, self.debugger.fitted()),
            Direction::Backwards => first_cut(alloc, self.debugger.fitted()),
        }
    }

    // All threads continue, and the first hit stops them.
    fn continue_all<H: Hands>(
        &mut self,
        hands: &H,
        thread: u32,
        direction: Direction,
    ) -> Result<(), AllocError>
        requires { thread < threads_of self.old.stub.desk.fitted }
        ensures ok { OnOk result ((h : Halt) × EachRun self.old.stub.desk.fitted (λ run. ContinuesAmong run self.old.stub thread direction h) × (self.new.stub ≡ all_at_stop self.old.stub h)) }
        ensures err { OnErr result (self.new.stub ≡ stub_spoken self.old.stub) }
    {
        let alloc = hands.alloc();
        let each = self.stops(hands, thread, direction)?;
        let each = each.as_slice();
        match self.first_stop(alloc, direction, each, thread)? {
            Some((other, cut)) => self.settle(hands, cut, other, each[other as usize].reason),
            None => {
                let cut = self.furthest(alloc, direction)?;
                self.settle(hands, cut, thread, end_of(direction))
            }
        }
    }

    // A move of one thread, in which the others may be stopped at their hits.
    pub(crate) fn move_among<H: Hands>(
        &mut self,
        hands: &H,
        thread: u32,
        motion: Motion,
    ) -> Result<(), AllocError>
        requires { thread < threads_of self.old.stub.desk.fitted }
        ensures ok { OnOk result ((h : Halt) × EachRun self.old.stub.desk.fitted (λ run. MovesAmong run self.old.stub thread motion h) × (self.new.stub ≡ all_at_stop self.old.stub h)) }
        ensures err { OnErr result (self.new.stub ≡ stub_spoken self.old.stub) }
    {
        match motion {
            Motion::Continue => self.continue_all(hands, thread, Direction::Forwards),
            Motion::ContinueBack => self.continue_all(hands, thread, Direction::Backwards),
            Motion::Step | Motion::Range(_, _) | Motion::StepBack => {
                self.step_among(hands, thread, motion)
            }
        }
    }
}
