//! `!`, `vRun` and `vKill`: the program is run again, from 0 or from a kept cut on.

ghost use Rattle.std.specs.Prelude.{◌≡◌, ◌≤◌, ◌+◌, ◌++◌, List, ℕ, true, OnOk, OnErr, IfOk, IfSome, MatchOption, Some, None, vec_len, vec_capacity};
ghost use Rattle.ir_cut.specs.Positions.{EachRun};
ghost use Rattle.ir_timeline.specs.Hand.{IsCutOf};
ghost use Rattle.ir_gdb.specs.Stub.{stub_spoken};
ghost use Rattle.ir_gdb.specs.Restarts.{with_extension, end_reply, restart_cut, RepliesToRestart};

use crate::remote::Remote;
use ir_cut::Cut;
use ir_object::Hands;
use ir_packet::{Reason, Reply, put_text, reply_text};
use ir_timeline::first_cut;
use std::alloc::{AllocError, Global};

impl Remote {
    /// `!`: gdb may run the program again.
    pub fn extend(&mut self) -> Reply
        ensures reply { result ≡ Reply.Done }
        ensures stub { self.new.stub ≡ with_extension self.old.stub }
    {
        self.extended = true;
        Reply::Done
    }

    /// `vKill`: the program is left before it is run again.
    pub fn end_process(&self) -> Reply
        ensures { result ≡ end_reply self.now.stub }
    {
        if self.extended {
            return Reply::Done;
        }
        Reply::Nothing
    }

    // The cut from which the program is run again: the start, or the kept cut of a number, if there is one.
    fn restart_cut(&self, alloc: Global, number: Option<u32>) -> Result<Option<Cut>, AllocError>
        ensures value { IfOk result (λ cut. cut ≡ restart_cut self.now.stub number) }
        ensures cuts { IfOk result (λ cut. IfSome cut (IsCutOf self.now.stub.desk.fitted)) }
    {
        let Some(number) = number else {
            return Ok(Some(first_cut(alloc, self.debugger.fitted())?));
        };
        match self.debugger.kept_cut(number) {
            Some(cut) => Ok(Some(cut.copy()?)),
            None => Ok(None),
        }
    }

    /// `vRun`: all threads go to 0, or to the kept cut of a number; and the stop there is put at the end.
    ///
    /// # Errors
    /// Out of memory, and nothing has moved.
    pub fn restart<H: Hands>(
        &mut self,
        hands: &H,
        number: Option<u32>,
        out: &mut Vec<u8>,
    ) -> Result<(), AllocError>
        requires { vec_len out.old + 96 ≤ vec_capacity out.old }
        ensures ok { OnOk result ((text : List ℕ) × EachRun self.old.stub.desk.fitted (λ run. RepliesToRestart run self.old.stub number text self.new.stub) × (out.new.items ≡ out.old.items ++ text)) }
        ensures err { OnErr result ((self.new.stub ≡ stub_spoken self.old.stub) × (out.new.items ≡ out.old.items)) }
        ensures capacity { vec_capacity out.new ≡ vec_capacity out.old }
    {
        self.has_run();
        self.speak();
        if !self.extended {
            return Ok(());
        }
        let Some(cut) = self.restart_cut(hands.alloc(), number)? else {
            put_text(out, reply_text(Reply::NotPermitted));
            return Ok(());
        };
        self.settle(hands, cut, 0, Reason::Step)?;
        self.put_stop_here(hands, out);
        Ok(())
    }
}
