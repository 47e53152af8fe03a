//! Lines of a session, which gdb's `monitor` sends.

ghost use Rattle.std.specs.Prelude.{◌≡◌, Ok, None, IfNone, IfSome};
ghost use Rattle.std.specs.Io.KnownBytes.{Appends};
ghost use Rattle.ir_stream.specs.Answers.{AppendsPrefix};
ghost use Rattle.ir_stream.specs.Writing.{WritesOrFails};
ghost use Rattle.ir_debug.specs.Debugging.{IsAnswer};
ghost use Rattle.ir_gdb.specs.Serving.{debugging_of};
ghost use Rattle.ir_gdb.specs.Connection.{RespondsInSession, with_desk};

use crate::remote::Remote;
use ir_command::{Command, Refusal, parse_line};
use ir_debug::{Answer, write_answer};
use ir_object::Hands;
use ir_stream::{DeviceErr, Sink};

impl Remote {
    // Carries out what a line asks, if it has words.
    #[tactic(auto, using(crate::proofs::Stubs::stub_with_other_desk))]
    fn consult<H: Hands>(
        &mut self,
        hands: &H,
        asked: &Result<Option<Command>, Refusal>,
    ) -> Option<Answer>
        ensures none { IfNone result ((asked.now ≡ Ok None) × (self.new ≡ self.old)) }
        ensures some { IfSome result (IsAnswer asked.now (debugging_of self.old) (debugging_of self.new)) }
        ensures stub { IfSome result (λ _. self.new.stub ≡ with_desk self.old.stub self.new.stub.desk) }
    {
        match asked {
            Ok(None) => None,
            Ok(Some(command)) => Some(self.debugger.command(hands, command)),
            Err(refusal) => Some(self.debugger.refuse(*refusal)),
        }
    }

    /// Answers a line as a session does.
    ///
    /// # Errors
    /// The writer failed, and took a prefix of the answer.
    pub fn respond<H: Hands, W: Sink>(
        &mut self,
        hands: &H,
        line: &[u8],
        writer: &mut W,
    ) -> Result<(), DeviceErr>
        ensures { WritesOrFails W.broken writer.old writer.new
            (RespondsInSession self.old.stub line.now self.new.stub (Appends (W.written writer.old) (W.written writer.new)))
            (RespondsInSession self.old.stub line.now self.new.stub (AppendsPrefix (W.written writer.old) (W.written writer.new))) result }
    {
        let asked = parse_line(line);
        let Some(answer) = self.consult(hands, &asked) else {
            return Ok(());
        };
        write_answer(&self.debugger, &answer, writer)
    }
}
