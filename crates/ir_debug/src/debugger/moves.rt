//! Moves: to the cut to which a command leads, and to a hit.

ghost use Rattle.std.specs.Prelude.{◌≡◌, List, ℕ, None, length, IfOk, OnOk, OnErr};
ghost use Rattle.ir_cut.specs.Positions.{EachRun, IsConsistentCut, threads_of};
ghost use Rattle.ir_command.specs.declared.command.Command.TheVariants as command;
ghost use Rattle.ir_debug.specs.Machine.{moved_to, spoken, refusal_of, Leads, Continues, AnswersBy};
ghost use Rattle.ir_debug.specs.Debugging.{IsLast, answer_text};

use crate::answer::Answer;
use crate::debugger::Debugger;
use crate::destinations::{destination, stop};
use ir_command::{Direction, Hit, Move, Refusal};
use ir_cut::Cut;
use ir_object::Hands;
use std::alloc::AllocError;

impl Debugger {
    /// Brings all threads to a cut, which is the debugger's then.
    ///
    /// # Errors
    /// Out of memory. The debugger's cut stays as it was.
    pub fn go_to<H: Hands>(&mut self, hands: &H, to: Cut) -> Result<(), AllocError>
        requires size { length to ≡ threads_of self.old.desk.fitted }
        requires consistent { IsConsistentCut self.old.desk.fitted to }
        ensures ok { OnOk result (self.new.desk ≡ moved_to self.old.desk to) }
        ensures err { OnErr result (self.new.desk ≡ spoken self.old.desk) }
    {
        self.fresh = false;
        self.timeline.go_to(hands, &to)?;
        self.at = to;
        self.fresh = true;
        Ok(())
    }

    // Finds the cut to which a move leads, and goes there.
    fn carry_out<H: Hands>(&mut self, hands: &H, to: Move) -> Result<(), AllocError>
        requires { refusal_of self.old.desk (command.Move to) ≡ None }
        ensures ok { OnOk result ((cut : List ℕ) × EachRun self.old.desk.fitted (λ run. Leads run self.old.desk.fitted self.old.desk.at to cut) × (self.new.desk ≡ moved_to self.old.desk cut)) }
        ensures err { OnErr result (self.new.desk ≡ spoken self.old.desk) }
    {
        self.fresh = false;
        let cut = destination(hands.alloc(), self.timeline.fitted(), &self.at, to)?;
        self.go_to(hands, cut)
    }

    // The answer to a move that isn't refused.
    pub(crate) fn answer_move<H: Hands>(&mut self, hands: &H, to: Move) -> Answer
        requires { refusal_of self.old.desk (command.Move to) ≡ None }
        ensures fitted { self.new.desk.fitted ≡ self.old.desk.fitted }
        ensures answers { EachRun self.old.desk.fitted (λ run. AnswersBy None run self.old.desk (command.Move to) (answer_text run self.new.desk result) self.new.desk) }
        ensures last { IsLast self.new result }
    {
        match self.carry_out(hands, to) {
            Ok(()) => Answer::Moved(to),
            Err(AllocError) => self.refuse(Refusal::NoMemory),
        }
    }

    // Takes a thread to the hit that it finds in this direction, or to the end of its steps there.
    fn go_on<H: Hands>(
        &mut self,
        hands: &H,
        thread: u32,
        direction: Direction,
    ) -> Result<Option<Hit>, AllocError>
        requires { refusal_of self.old.desk (command.Continue thread direction) ≡ None }
        ensures ok { IfOk result (λ hit. (cut : List ℕ) × EachRun self.old.desk.fitted (λ run. Continues run self.old.desk thread direction hit cut) × (self.new.desk ≡ moved_to self.old.desk cut)) }
        ensures err { OnErr result (self.new.desk ≡ spoken self.old.desk) }
    {
        self.fresh = false;
        let points = self.points.as_slice();
        let hit = self
            .timeline
            .search(hands, &self.at, thread, direction, points)?;
        let fitted = self.timeline.fitted();
        let t = thread as usize;
        let cut = stop(hands.alloc(), fitted, &self.at, t, direction, hit)?;
        self.go_to(hands, cut)?;
        Ok(hit)
    }

    // The answer to `cont` or `rcont` that isn't refused.
    pub(crate) fn answer_continue<H: Hands>(
        &mut self,
        hands: &H,
        thread: u32,
        direction: Direction,
    ) -> Answer
        requires { refusal_of self.old.desk (command.Continue thread direction) ≡ None }
        ensures fitted { self.new.desk.fitted ≡ self.old.desk.fitted }
        ensures answers { EachRun self.old.desk.fitted (λ run. AnswersBy None run self.old.desk (command.Continue thread direction) (answer_text run self.new.desk result) self.new.desk) }
        ensures last { IsLast self.new result }
    {
        match self.go_on(hands, thread, direction) {
            Ok(hit) => Answer::Continued(thread, hit),
            Err(AllocError) => self.refuse(Refusal::NoMemory),
        }
    }
}
