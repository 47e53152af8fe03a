//! Cuts are kept, gone back to, and kept no longer.

ghost use Rattle.std.specs.Prelude.{◌≡◌, ◌+◌, List, ℕ, None, Some, IfOk, OnOk, OnErr};
ghost use Rattle.ir_cut.specs.Positions.{EachRun};
ghost use Rattle.ir_command.specs.declared.command.Command.TheVariants as command;
ghost use Rattle.ir_command.specs.declared.command.Keeping.TheVariants as keeping;
ghost use Rattle.ir_debug.specs.Machine.{moved_to, spoken, kept_cut, refusal_of, AnswersBy};
ghost use Rattle.ir_debug.specs.Debugging.{IsLast, answer_text, with_kept, without_kept};

use crate::answer::Answer;
use crate::debugger::Debugger;
use crate::kept::{KeptCut, forget, kept_cut};
use ir_command::{Keeping, Refusal};
use ir_object::Hands;
use ir_timeline::Timeline;
use std::alloc::AllocError;

// Gives up the state at the cut of this number, if it is kept.
fn give_up(timeline: &mut Timeline, kept: &[KeptCut], number: u32)
    ensures { timeline.new ≡ timeline.old }
{
    if let Some(cut) = kept_cut(kept, number) {
        timeline.drop_kept(cut);
    }
}

impl Debugger {
    // Keeps the cut and the state in hand, and answers the cut's number.
    fn keep_here(&mut self) -> Result<u32, AllocError>
        requires { refusal_of self.old.desk (command.Keeping keeping.Keep) ≡ None }
        ensures number { IfOk result (λ n. n ≡ self.old.desk.last_kept + 1) }
        ensures ok { OnOk result (self.new.desk ≡ with_kept self.old.desk) }
        ensures err { OnErr result (self.new.desk ≡ spoken self.old.desk) }
    {
        self.fresh = false;
        let number = self.last_kept + 1;
        let cut = self.at.copy()?;
        self.timeline.keep()?;
        self.kept.push(KeptCut::new(number, cut))?;
        self.last_kept = number;
        Ok(number)
    }

    // Keeps the cut and the state there.
    fn keep<H: Hands>(&mut self, hands: &H) -> Result<u32, AllocError>
        requires { refusal_of self.old.desk (command.Keeping keeping.Keep) ≡ None }
        ensures number { IfOk result (λ n. n ≡ self.old.desk.last_kept + 1) }
        ensures ok { OnOk result (self.new.desk ≡ with_kept self.old.desk) }
        ensures err { OnErr result (self.new.desk ≡ spoken self.old.desk) }
    {
        self.bring_here(hands)?;
        self.keep_here()
    }

    // Goes to a kept cut.
    fn load<H: Hands>(&mut self, hands: &H, number: u32) -> Result<(), AllocError>
        requires { refusal_of self.old.desk (command.Keeping (keeping.Load number)) ≡ None }
        ensures ok { OnOk result ((cut : List ℕ) × (kept_cut self.old.desk.kept number ≡ Some cut) × (self.new.desk ≡ moved_to self.old.desk cut)) }
        ensures err { OnErr result (self.new.desk ≡ spoken self.old.desk) }
    {
        self.fresh = false;
        let cut = kept_cut(self.kept.as_slice(), number).unwrap().copy()?;
        self.go_to(hands, cut)
    }

    // Keeps a cut no longer.
    fn drop_kept(&mut self, number: u32)
        ensures { self.new.desk ≡ without_kept self.old.desk number }
    {
        self.fresh = false;
        give_up(&mut self.timeline, self.kept.as_slice(), number);
        forget(&mut self.kept, number);
    }

    // The answer to a command about kept cuts that isn't refused.
    pub(crate) fn answer_keeping<H: Hands>(&mut self, hands: &H, asked: Keeping) -> Answer
        requires { refusal_of self.old.desk (command.Keeping asked) ≡ None }
        ensures fitted { self.new.desk.fitted ≡ self.old.desk.fitted }
        ensures answers { EachRun self.old.desk.fitted (λ run. AnswersBy None run self.old.desk (command.Keeping asked) (answer_text run self.new.desk result) self.new.desk) }
        ensures last { IsLast self.new result }
    {
        match asked {
            Keeping::Keep => match self.keep(hands) {
                Ok(number) => Answer::Kept(number),
                Err(AllocError) => self.refuse(Refusal::NoMemory),
            },
            Keeping::Load { number } => match self.load(hands, number) {
                Ok(()) => Answer::Position,
                Err(AllocError) => self.refuse(Refusal::NoMemory),
            },
            Keeping::Drop { number } => {
                self.drop_kept(number);
                Answer::Dropped(number)
            }
            Keeping::Kept => {
                self.fresh = false;
                Answer::KeptCuts
            }
        }
    }
}
