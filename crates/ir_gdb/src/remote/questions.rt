//! Lines that gdb's `monitor` sends: questions of the run, and the lines of a session.

ghost use Rattle.std.specs.Prelude.{◌≡◌, ◌<◌, ◌⊎◌, ⊤, false, IfErr, OnOk, OnErr};
ghost use Rattle.std.specs.Io.KnownBytes.{Appends};
ghost use Rattle.ir_cut.specs.Positions.{threads_of};
ghost use Rattle.ir_files.specs.Writers.{writer_of};
ghost use Rattle.ir_monitor.specs.Answers.{IsAnswerTo};
ghost use Rattle.ir_monitor.specs.Telling.{HasSaid, HasNotSaid};
ghost use Rattle.ir_gdb.specs.Connection.{Responds};
ghost use Rattle.ir_gdb.specs.Questions.{here_of};

use crate::remote::Remote;
use ir_monitor::{Asked, Here, answer, asked_of};
use ir_object::Hands;
use ir_past::PastErr;
use ir_stream::Sink;
use std::alloc::Global;

impl Remote {
    // The current thread, and its position.
    fn asking(&self) -> Here
        ensures value { result ≡ here_of self.now.stub }
        ensures thread { result.thread < threads_of self.now.stub.desk.fitted }
    {
        Here {
            thread: self.current,
            position: self.position(self.current),
        }
    }

    // Answers a question of the run.
    fn answer_question<W: Sink>(
        &self,
        alloc: Global,
        asked: Asked,
        writer: &mut W,
    ) -> Result<(), PastErr>
        requires { W.broken writer.old ≡ false }
        ensures ok { OnOk result (HasSaid (IsAnswerTo self.now.stub.desk.fitted (here_of self.now.stub) asked)
            (writer_of (W.written writer.old) (W.written writer.new) (W.broken writer.new))) }
        ensures fails { IfErr result (λ e. HasNotSaid (IsAnswerTo self.now.stub.desk.fitted (here_of self.now.stub) asked) e
            (writer_of (W.written writer.old) (W.written writer.new) (W.broken writer.new))) }
    {
        answer(alloc, self.debugger.fitted(), self.asking(), asked, writer)
    }

    /// Answers a line that `monitor` sends: a question of the run, or a line of a session.
    ///
    /// # Errors
    /// Memory ran out or the writer failed. A question leaves all as it is; a line of a session may have been carried out.
    pub fn hear<H: Hands, W: Sink>(
        &mut self,
        hands: &H,
        line: &[u8],
        writer: &mut W,
    ) -> Result<(), PastErr>
        requires { W.broken writer.old ≡ false }
        ensures ok { OnOk result (Responds self.old.stub line.now self.new.stub (Appends (W.written writer.old) (W.written writer.new))) }
        ensures err { OnErr result ((self.new.stub ≡ self.old.stub) ⊎ Responds self.old.stub line.now self.new.stub (λ text. ⊤)) }
    {
        match asked_of(line) {
            Some(asked) => self.answer_question(hands.alloc(), asked, writer),
            None => match self.respond(hands, line, writer) {
                Ok(()) => Ok(()),
                Err(_) => Err(PastErr::Write),
            },
        }
    }
}
