//! Which thread stops where a move of one brings others along that have hits on their way.

ghost use Rattle.std.specs.Prelude.{◌≡◌, ◌≤◌, ◌<◌, ◌||◌, ◌==◌, length, IfOk, IfSome};
ghost use Rattle.ir_cut.specs.Positions.{EachRun, threads_of};
ghost use Rattle.ir_timeline.specs.Hand.{IsCutOf};
ghost use Rattle.ir_gdb.specs.Stub.{stub_spoken};
ghost use Rattle.ir_gdb.specs.Together.{AreStops, AreWithin, meets, passes, is_free, is_all_free, moves, moves_other, MetAt, FirstMet, first_met};

use crate::remote::Remote;
use crate::stopped::{Stopped, is_hit};
use ir_command::Direction;
use ir_cut::Cut;
use ir_object::Hands;
use std::alloc::{AllocError, Global};

impl Remote {
    // How many threads there are.
    #[tactic(auto, using(ir_image::proofs::CallerLemmas::guest_threads_within))]
    pub(crate) fn count(&self) -> u32
        ensures value { result ≡ threads_of self.now.stub.desk.fitted }
        ensures few { result ≤ 16 }
    {
        self.debugger.fitted().image().entries().len() as u32
    }

    // Where each thread stops that continues alone in a direction. Watches of private memory count for one thread.
    pub fn stops<H: Hands>(
        &mut self,
        hands: &H,
        mover: u32,
        direction: Direction,
    ) -> Result<Vec<Stopped>, AllocError>
        ensures stub { self.new.stub ≡ stub_spoken self.old.stub }
        ensures stops { IfOk result (λ each. EachRun self.old.stub.desk.fitted (λ run. AreStops run self.old.stub direction mover each.items)) }
        ensures within { IfOk result (λ each. AreWithin self.old.stub each.items) }
    {
        self.speak();
        let count = self.count();
        let mut stops = Vec::with_capacity(hands.alloc(), count as usize)?;
        'threads: for thread in 0..count {
            let stopped = self.continued(hands, thread, direction, thread == mover)?;
            stops.push(stopped)?;
        }
        Ok(stops)
    }

    // Whether a thread has a hit on its way to a cut.
    fn meets(&self, direction: Direction, each: &[Stopped], cut: &Cut, thread: u32) -> bool
        requires thread { thread < threads_of self.now.stub.desk.fitted }
        requires count { length each.now ≡ threads_of self.now.stub.desk.fitted }
        requires cut { length cut.now ≡ threads_of self.now.stub.desk.fitted }
        ensures { result ≡ meets self.now.stub direction each.now cut.now thread }
    {
        let here = self.position(thread);
        let there = cut.position(thread as usize);
        let to = each[thread as usize];
        if here == there || !is_hit(to.reason) {
            return false;
        }
        match direction {
            Direction::Forwards => to.position <= there,
            Direction::Backwards => there <= to.position,
        }
    }

    // Whether a thread is the one that moves, or has no hit on its way to a cut.
    fn passes(
        &self,
        direction: Direction,
        each: &[Stopped],
        cut: &Cut,
        thread: u32,
        other: u32,
    ) -> bool
        requires other { other < threads_of self.now.stub.desk.fitted }
        requires count { length each.now ≡ threads_of self.now.stub.desk.fitted }
        requires cut { length cut.now ≡ threads_of self.now.stub.desk.fitted }
        ensures { result ≡ passes self.now.stub direction each.now cut.now thread other }
    {
        if other == thread {
            return true;
        }
        !self.meets(direction, each, cut, other)
    }

    // Whether no other thread than this one has a hit on its way to a cut.
    #[tactic(auto, using(crate::proofs::Together::is_free_of_no_threads, crate::proofs::Together::is_free_if_next_passes, crate::proofs::Together::not_free_by_one))]
    fn is_free(&self, direction: Direction, each: &[Stopped], cut: &Cut, thread: u32) -> bool
        requires count { length each.now ≡ threads_of self.now.stub.desk.fitted }
        requires cut { length cut.now ≡ threads_of self.now.stub.desk.fitted }
        ensures { result ≡ is_all_free self.now.stub direction each.now cut.now thread }
    {
        let count = self.count();
        'threads: for other in 0..count {
            if !self.passes(direction, each, cut, thread, other) {
                return false;
            }
        }
        true
    }

    // Whether a thread is another than this one, and isn't where it is in a cut.
    fn moves(&self, cut: &Cut, thread: u32, other: u32) -> bool
        requires other { other < threads_of self.now.stub.desk.fitted }
        requires cut { length cut.now ≡ threads_of self.now.stub.desk.fitted }
        ensures { result ≡ moves self.now.stub cut.now thread other }
    {
        if other == thread {
            return false;
        }
        self.position(other) != cut.position(other as usize)
    }

    // Whether another thread than this one isn't where it is in a cut.
    #[tactic(auto, using(crate::proofs::Together::moves_other_nobody, crate::proofs::Together::moves_other_false_step, crate::proofs::Together::moves_other_by_one))]
    pub fn moves_other(&self, cut: &Cut, thread: u32) -> bool
        requires { length cut.now ≡ threads_of self.now.stub.desk.fitted }
        ensures { result ≡ moves_other self.now.stub cut.now thread (threads_of self.now.stub.desk.fitted) }
    {
        let count = self.count();
        'threads: for other in 0..count {
            if self.moves(cut, thread, other) {
                return true;
            }
        }
        false
    }

    // The cut at which a thread comes to its hit, if it has one on its way to a cut and no other has one on its way to that.
    fn met(
        &self,
        alloc: Global,
        direction: Direction,
        each: &[Stopped],
        cut: &Cut,
        thread: u32,
    ) -> Result<Option<Cut>, AllocError>
        requires within { AreWithin self.now.stub each.now }
        requires cut { length cut.now ≡ threads_of self.now.stub.desk.fitted }
        requires thread { thread < threads_of self.now.stub.desk.fitted }
        ensures met { IfOk result (λ met. EachRun self.now.stub.desk.fitted (λ run. MetAt run self.now.stub direction each.now cut.now thread met)) }
        ensures cuts { IfOk result (λ met. IfSome met (λ own. IsCutOf self.now.stub.desk.fitted own)) }
    {
        if !self.meets(direction, each, cut, thread) {
            return Ok(None);
        }
        let position = each[thread as usize].position;
        let own = self.cut_to(alloc, thread, direction, position)?;
        if self.is_free(direction, each, &own, thread) {
            return Ok(Some(own));
        }
        Ok(None)
    }

    // The lowest other thread that has a hit on its way to a cut, and comes to that hit with no hit of another on the way; and the cut
    // where it does.
    pub fn first_met(
        &self,
        alloc: Global,
        direction: Direction,
        each: &[Stopped],
        cut: &Cut,
        thread: u32,
    ) -> Result<Option<(u32, Cut)>, AllocError>
        requires within { AreWithin self.now.stub each.now }
        requires cut { length cut.now ≡ threads_of self.now.stub.desk.fitted }
        ensures met { IfOk result (λ met. EachRun self.now.stub.desk.fitted (λ run. FirstMet run self.now.stub direction each.now cut.now thread (first_met each.now met))) }
        ensures cuts { IfOk result (λ met. IfSome met (λ m. IsCutOf self.now.stub.desk.fitted m.1)) }
        ensures threads { IfOk result (λ met. IfSome met (λ m. m.0 < threads_of self.now.stub.desk.fitted)) }
    {
        let count = self.count();
        'threads: for other in 0..count {
            if other == thread {
                continue;
            }
            if let Some(own) = self.met(alloc, direction, each, cut, other)? {
                return Ok(Some((other, own)));
            }
        }
        Ok(None)
    }
}
