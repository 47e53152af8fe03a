//! Questions about files are answered, and what is refused is explained.

ghost use Rattle.std.specs.Prelude.{◌≡◌, false};
ghost use Rattle.ir_files.specs.Writers.{writer_of};
ghost use Rattle.ir_files.specs.declared.exit_status.ExitStatus.TheVariants as status;
ghost use Rattle.ir_commands.specs.Printing.{AnswersFiles, AnswersRun, AnswersTrace};

use crate::explaining::{NO_RUN, RunFiles, explain_alone, explain_run};
use crate::files::{bytes_of, image_in};
use ir_files::{ExitStatus, Folder, MOST_FILE_BYTES};
use ir_opened::{RunQuestion, ask_run};
use ir_past::{TraceQuestion, ask_trace};
use ir_stream::Sink;
use std::alloc::Global;

/// What is said if the answer to a question is that no run has the trace.
#[derive(Clone, Copy)]
pub struct NoRun {
    /// If the question is about a trace alone.
    pub of_trace: Option<&'static str>,
    /// If it is about an image too.
    pub of_image: &'static str,
}

/// The image may be the wrong one; of a trace alone the answer says all.
pub const WRONG_IMAGE: NoRun = NoRun {
    of_trace: None,
    of_image: NO_RUN,
};

/// The files that a question is about.
#[derive(Clone, Copy)]
pub struct AskedFiles<'a, 'b, D> {
    /// Where they are.
    pub folder: &'a D,
    /// The path of the trace.
    pub trace: &'b String,
    /// The path of an image of its run, if one is named.
    pub image: &'b Option<String>,
    /// What is said if no run has the trace.
    pub no_run: NoRun,
}

// Prints the answer to a question about a trace.
fn answer_of_trace<Q: TraceQuestion, O: Sink, E: Sink>(
    alloc: Global,
    question: &Q,
    trace: &[u8],
    no_run: Option<&str>,
    out: &mut O,
    faults: &mut E,
) -> ExitStatus
    requires writes { O.broken out.old ≡ false }
    requires reports { E.broken faults.old ≡ false }
    ensures prints { AnswersTrace (Q.is_answer question.now) (Q.is_absent question.now) trace.now result
        (writer_of (O.written out.old) (O.written out.new) (O.broken out.new)) (writer_of (E.written faults.old) (E.written faults.new) (E.broken faults.new)) }
    ensures quiet { result ≡ status.Done → faults.new ≡ faults.old }
{
    let status = ask_trace(alloc, trace, question, out, faults);
    explain_alone(alloc, trace, no_run, status, faults);
    status
}

/// Prints the answer to a question about a run of the image.
pub fn answer_of_run<Q: RunQuestion, O: Sink, E: Sink>(
    alloc: Global,
    question: &Q,
    files: RunFiles<'_>,
    out: &mut O,
    faults: &mut E,
) -> ExitStatus
    requires writes { O.broken out.old ≡ false }
    requires reports { E.broken faults.old ≡ false }
    ensures prints { AnswersRun (Q.is_answer question.now) (Q.is_absent question.now) files.entry.image.now files.entry.trace.now result
        (writer_of (O.written out.old) (O.written out.new) (O.broken out.new)) (writer_of (E.written faults.old) (E.written faults.new) (E.broken faults.new)) }
    ensures quiet { result ≡ status.Done → faults.new ≡ faults.old }
{
    let status = ask_run(alloc, files.image, files.trace, question, out, faults);
    explain_run(alloc, files, status, faults);
    status
}

/// Prints the answer to a question about the trace in a file, or, if an image is named, to a question about its run. If there is none, a line of
/// `faults` says why.
pub fn answer_of_files<D: Folder, Q: TraceQuestion, F: RunQuestion, O: Sink, E: Sink>(
    alloc: Global,
    files: AskedFiles<'_, '_, D>,
    of_trace: &Q,
    of_run: &F,
    out: &mut O,
    faults: &mut E,
) -> ExitStatus
    requires writes { O.broken out.old ≡ false }
    requires reports { E.broken faults.old ≡ false }
    ensures prints { AnswersFiles (D.bytes_at files.entry.folder.now) files.entry.trace.now files.entry.image.now
        (AnswersTrace (Q.is_answer of_trace.now) (Q.is_absent of_trace.now)) (AnswersRun (F.is_answer of_run.now) (F.is_absent of_run.now)) result
        (writer_of (O.written out.old) (O.written out.new) (O.broken out.new)) (writer_of (E.written faults.old) (E.written faults.new) (E.broken faults.new))
        (out.new ≡ out.old) }
    ensures quiet { result ≡ status.Done → faults.new ≡ faults.old }
{
    let (folder, no_run) = (files.folder, files.no_run);
    let path = files.trace.as_str();
    let Some(trace) = bytes_of(alloc, folder, faults, path, MOST_FILE_BYTES) else {
        return ExitStatus::Failed;
    };
    let trace = trace.as_slice();
    let Some(image) = files.image else {
        return answer_of_trace(alloc, of_trace, trace, no_run.of_trace, out, faults);
    };
    match image_in(alloc, folder, faults, image.as_str()) {
        Ok(image) => {
            let files = RunFiles {
                image: image.as_slice(),
                trace,
                no_run: no_run.of_image,
            };
            answer_of_run(alloc, of_run, files, out, faults)
        }
        Err(status) => status,
    }
}
