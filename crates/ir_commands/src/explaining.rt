//! Why files are refused, in words.

ghost use Rattle.std.specs.Prelude.{◌≡◌, ◌≢◌};
ghost use Rattle.ir_files.specs.declared.exit_status.ExitStatus.TheVariants as exit;

use crate::files::say;
use ir_files::ExitStatus;
use ir_image::read_image;
use ir_stream::Sink;
use ir_trace::read_trace;
use std::alloc::{AllocError, Global};

// What is said if no run of an image has a trace.
pub const NO_RUN: &str =
    "no run of this image has this trace: it may be another image's, or the image was changed";

// The bytes of an image and of a trace, and what is said if no run of the image has the trace.
#[derive(Clone, Copy)]
pub struct RunFiles<'a> {
    pub image: &'a [u8],
    pub trace: &'a [u8],
    pub no_run: &'a str,
}

impl RunFiles<'_> {
    // Whether each begins as the other should.
    fn are_exchanged(self) -> bool {
        self.image.starts_with(b"IRT") && self.trace.starts_with(b"IRI")
    }

    // Why the image, or else the trace, is refused, in words.
    fn refusal(self, alloc: Global) -> Result<String, AllocError> {
        let Err(why) = read_image(alloc, self.image) else {
            return match read_trace(alloc, self.trace) {
                Ok(_) => Ok(String::new(alloc)),
                Err(why) => format!(in alloc; "the trace is refused: {why}"),
            };
        };
        format!(in alloc; "the image is refused: {why}")
    }
}

// Says in words why the image or the trace is refused.
fn explain_refusal<E: Sink>(alloc: Global, files: RunFiles<'_>, faults: &mut E) {
    if files.are_exchanged() {
        say(faults, "IMAGE and TRACE are exchanged", "", "");
    } else if let Ok(why) = files.refusal(alloc) {
        say(faults, why.as_str(), "", "");
    }
}

// Says in words why an image and a trace opened nothing, if they didn't.
pub fn explain_run<E: Sink>(alloc: Global, files: RunFiles<'_>, status: ExitStatus, faults: &mut E)
    ensures { status ≢ exit.Refused → status ≢ exit.NotFit → faults.new ≡ faults.old }
{
    match status {
        ExitStatus::Refused => explain_refusal(alloc, files, faults),
        ExitStatus::NotFit => say(faults, files.no_run, "", ""),
        _ => {}
    }
}

// The name of the one trace that there is.
pub const THE_TRACE: &str = "the trace";

// Says in words why a trace alone is refused, if it is. The name says which trace it is.
pub fn explain_trace<E: Sink>(
    alloc: Global,
    name: &str,
    trace: &[u8],
    status: ExitStatus,
    faults: &mut E,
)
    ensures { status ≢ exit.Refused → faults.new ≡ faults.old }
{
    if status != ExitStatus::Refused {
        return;
    }
    let Err(why) = read_trace(alloc, trace) else {
        return;
    };
    if let Ok(words) = format!(in alloc; "{name} is refused: {why}") {
        say(faults, words.as_str(), "", "");
    }
}

// Says in words why a trace isn't answered, if it isn't; if no run has it, in the words that are given for that.
pub fn explain_alone<E: Sink>(
    alloc: Global,
    trace: &[u8],
    no_run: Option<&str>,
    status: ExitStatus,
    faults: &mut E,
)
    ensures { status ≢ exit.Refused → status ≢ exit.NotFit → faults.new ≡ faults.old }
{
    if status != ExitStatus::NotFit {
        explain_trace(alloc, THE_TRACE, trace, status, faults);
    } else if let Some(words) = no_run {
        say(faults, words, "", "");
    }
}

// The same, where the words say that no run of the image has the trace.
pub fn explain_files<E: Sink>(
    alloc: Global,
    image: &[u8],
    trace: &[u8],
    status: ExitStatus,
    faults: &mut E,
)
    ensures { status ≢ exit.Refused → status ≢ exit.NotFit → faults.new ≡ faults.old }
{
    let no_run = NO_RUN;
    let files = RunFiles {
        image,
        trace,
        no_run,
    };
    explain_run(alloc, files, status, faults);
}
