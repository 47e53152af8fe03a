//! A question about the bytes of a trace, and how it is answered.

ghost use Rattle.std.specs.Prelude.{◌≡◌, ◌≢◌, ◌⊎◌, ℕ, List, IfOk, IfErr, true, false};
ghost use Rattle.ir_trace.specs.Recorded.{Recorded, recorded_at};
ghost use Rattle.ir_files.specs.Writers.{writer_of, Reports, fault_text};
ghost use Rattle.ir_files.specs.declared.exit_status.ExitStatus.{ExitStatus};
ghost use Rattle.ir_files.specs.declared.exit_status.ExitStatus.TheVariants as status;
ghost use Rattle.ir_past.specs.Answers.{AreCoherent, Answered};
ghost use Rattle.ir_past.specs.Replies.{IsTraceReply, IsTraceReplyless, IsUnsaid, ask_status, ask_words, is_of_answer};
ghost use Rattle.ir_past.specs.declared.absent.Absent.{Absent};
ghost use Rattle.ir_past.specs.declared.ask_err.AskErr.{AskErr};

use crate::ask_err::{AskErr, Printed};
use crate::opened::Opened;
use crate::opening::{open_trace, refuse};
use ir_files::{ExitStatus, tell};
use ir_stream::Sink;
use ir_trace::Trace;
use std::alloc::Global;

/// What is asked about a coherent trace.
pub trait TraceQuestion {
    /// What is an answer: a status and a text.
    ghost is_answer: { Self → Recorded → ExitStatus → List ℕ → Type 0 };

    /// The trace doesn't have what it is about.
    ghost is_absent: { Self → Recorded → Absent → Type 0 };

    /// Writes the answer; its exit status.
    ///
    /// # Errors
    /// The trace doesn't have what the question is about, and nothing was written; or memory ran out or the writer failed, and a prefix of the
    /// answer was written.
    fn print<O: Sink>(&self, alloc: Global, trace: &Trace, out: &mut O) -> Printed
        requires works { O.broken out.old ≡ false }
        requires coherent { AreCoherent trace.now }
        ensures ok { IfOk result (λ s. Answered (is_answer self.now trace.now) s (writer_of (O.written out.old) (O.written out.new) (O.broken out.new))) }
        ensures fails { IfErr result (λ e. IsUnsaid (is_answer self.now trace.now) (is_absent self.now trace.now) e (writer_of (O.written out.old) (O.written out.new) (O.broken out.new))) }
        ensures status { IfOk result (λ s. is_of_answer s ≡ true) };
}

// Writes what a question about bytes is answered.
fn reply<Q: TraceQuestion, O: Sink>(
    alloc: Global,
    bytes: &[u8],
    question: &Q,
    out: &mut O,
) -> Result<ExitStatus, AskErr>
    requires { O.broken out.old ≡ false }
    ensures ok { IfOk result
        (λ s. Answered (IsTraceReply (Q.is_answer question.now) (recorded_at bytes.now)) s (writer_of (O.written out.old) (O.written out.new) (O.broken out.new))) }
    ensures fails { IfErr result
        (λ e. IsTraceReplyless (Q.is_answer question.now) (Q.is_absent question.now) (recorded_at bytes.now) e
        (writer_of (O.written out.old) (O.written out.new) (O.broken out.new))) }
    ensures status { IfOk result (λ s. is_of_answer s ≡ true) }
{
    match open_trace(alloc, bytes)? {
        Opened::Coherent(trace) => question.print(alloc, &trace, out),
        Opened::Refused(why) => Ok(refuse(alloc, &why, out)?),
    }
}

/// Answers a question about the bytes of a trace: writes the answer about the trace, or the line that says why it is none that is coherent. The
/// exit status is that of the answer, `Refused` if the bytes are no trace, and `NotFit` if the trace is incoherent. It is `BadArguments` if the
/// trace doesn't have what the question is about; nothing was written then. It is `Failed` if memory ran out or the writer failed, with a
/// prefix written at most. In both cases the fault is reported in one line.
pub fn ask_trace<Q: TraceQuestion, O: Sink, E: Sink>(
    alloc: Global,
    bytes: &[u8],
    question: &Q,
    out: &mut O,
    faults: &mut E,
) -> ExitStatus
    requires writes { O.broken out.old ≡ false }
    requires reports { E.broken faults.old ≡ false }
    // The answer was written, and no fault reported.
    ensures done { result ≢ status.Failed → result ≢ status.BadArguments
        → Answered (IsTraceReply (Q.is_answer question.now) (recorded_at bytes.now)) result (writer_of (O.written out.old) (O.written out.new) (O.broken out.new)) × (faults.new ≡ faults.old) }
    // Else why there is none, what that leaves, and that it is reported.
    ensures failed { (result ≡ status.Failed) ⊎ (result ≡ status.BadArguments) → (e : AskErr)
        × (result ≡ ask_status e)
        × IsTraceReplyless (Q.is_answer question.now) (Q.is_absent question.now) (recorded_at bytes.now) e (writer_of (O.written out.old) (O.written out.new) (O.broken out.new))
        × Reports (writer_of (E.written faults.old) (E.written faults.new) (E.broken faults.new)) (fault_text (ask_words e)) }
{
    match reply(alloc, bytes, question, out) {
        Ok(status) => status,
        Err(why) => {
            tell(faults, why.words());
            why.status()
        }
    }
}
