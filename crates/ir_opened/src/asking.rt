//! A question about a run of a guest with a trace, and how it is answered.

ghost use Rattle.std.specs.Prelude.{◌≡◌, ◌≢◌, ◌⊎◌, ℕ, List, IfOk, IfErr, true, false};
ghost use Rattle.ir_fit.specs.Fit.{FittedTrace};
ghost use Rattle.ir_files.specs.Writers.{writer_of, Reports, fault_text};
ghost use Rattle.ir_files.specs.declared.exit_status.ExitStatus.{ExitStatus};
ghost use Rattle.ir_files.specs.declared.exit_status.ExitStatus.TheVariants as status;
ghost use Rattle.ir_past.specs.Answers.{Answered};
ghost use Rattle.ir_past.specs.Replies.{IsUnsaid, ask_status, ask_words, is_of_answer};
ghost use Rattle.ir_past.specs.declared.absent.Absent.{Absent};
ghost use Rattle.ir_past.specs.declared.ask_err.AskErr.{AskErr};
ghost use Rattle.ir_opened.specs.Answers.{IsRunReply, IsRunReplyless};

use crate::opened::Opened;
use crate::opening::{open_fit, refuse};
use ir_files::{ExitStatus, tell};
use ir_fit::Fitted;
use ir_past::{AskErr, Printed};
use ir_stream::Sink;
use std::alloc::Global;

/// What is asked about a guest and a trace of one of its runs.
pub trait RunQuestion {
    /// What is an answer: a status and a text.
    ghost is_answer: { Self → FittedTrace → ExitStatus → List ℕ → Type 0 };

    /// The run doesn't have what it is about.
    ghost is_absent: { Self → FittedTrace → Absent → Type 0 };

    /// Writes the answer; its exit status.
    ///
    /// # Errors
    /// The run doesn't have what the question is about, and nothing was written; or memory ran out or the writer failed, and a prefix of the
    /// answer was written.
    fn print<O: Sink>(&self, alloc: Global, fitted: &Fitted, out: &mut O) -> Printed
        requires { O.broken out.old ≡ false }
        ensures ok { IfOk result (λ s. Answered (is_answer self.now fitted.now) s (writer_of (O.written out.old) (O.written out.new) (O.broken out.new))) }
        ensures fails { IfErr result (λ e. IsUnsaid (is_answer self.now fitted.now) (is_absent self.now fitted.now) e (writer_of (O.written out.old) (O.written out.new) (O.broken out.new))) }
        ensures status { IfOk result (λ s. is_of_answer s ≡ true) };
}

// Writes what a question about the bytes of an image and of a trace is answered.
fn reply<Q: RunQuestion, O: Sink>(
    alloc: Global,
    image: &[u8],
    trace: &[u8],
    question: &Q,
    out: &mut O,
) -> Result<ExitStatus, AskErr>
    requires { O.broken out.old ≡ false }
    ensures ok { IfOk result
        (λ s. Answered (IsRunReply (Q.is_answer question.now) image.now trace.now) s (writer_of (O.written out.old) (O.written out.new) (O.broken out.new))) }
    ensures fails { IfErr result
        (λ e. IsRunReplyless (Q.is_answer question.now) (Q.is_absent question.now) image.now trace.now e
        (writer_of (O.written out.old) (O.written out.new) (O.broken out.new))) }
    ensures status { IfOk result (λ s. is_of_answer s ≡ true) }
{
    match open_fit(alloc, image, trace)? {
        Opened::Fits(fitted) => question.print(alloc, &fitted, out),
        Opened::Refused(why) => Ok(refuse(&why, out)?),
    }
}

/// Answers a question about the run of an image's guest with a trace: writes the answer, or the line or the lines that say why there is no such
/// run. The exit status is that of the answer, `Refused` if the bytes are no image or no trace, and `NotFit` if no run of the guest has the
/// trace. It is `BadArguments` if the run doesn't have what the question is about; nothing was written then. It is `Failed` if memory ran out or
/// the writer failed, with a prefix written at most. In both cases the fault is reported in one line.
pub fn ask_run<Q: RunQuestion, O: Sink, E: Sink>(
    alloc: Global,
    image: &[u8],
    trace: &[u8],
    question: &Q,
    out: &mut O,
    faults: &mut E,
) -> ExitStatus
    requires writes { O.broken out.old ≡ false }
    requires reports { E.broken faults.old ≡ false }
    // The answer was written, and no fault reported.
    ensures done { result ≢ status.Failed → result ≢ status.BadArguments
        → Answered (IsRunReply (Q.is_answer question.now) image.now trace.now) result (writer_of (O.written out.old) (O.written out.new) (O.broken out.new)) × (faults.new ≡ faults.old) }
    // Else why there is none, what that leaves, and that it is reported.
    ensures failed { (result ≡ status.Failed) ⊎ (result ≡ status.BadArguments) → (e : AskErr)
        × (result ≡ ask_status e)
        × IsRunReplyless (Q.is_answer question.now) (Q.is_absent question.now) image.now trace.now e (writer_of (O.written out.old) (O.written out.new) (O.broken out.new))
        × Reports (writer_of (E.written faults.old) (E.written faults.new) (E.broken faults.new)) (fault_text (ask_words e)) }
{
    match reply(alloc, image, trace, question, out) {
        Ok(status) => status,
        Err(why) => {
            tell(faults, why.words());
            why.status()
        }
    }
}
