//! Bytes that are opened as a coherent trace, and the line that says why they are none.

ghost use Rattle.std.specs.Prelude.{◌≡◌, OnOk, IfOk, IfErr, false};
ghost use Rattle.std.specs.String.{string_bytes};
ghost use Rattle.std.specs.Io.KnownBytes.{Appends};
ghost use Rattle.ir_trace.specs.Recorded.{recorded_at};
ghost use Rattle.ir_files.specs.Writers.{writer_of};
ghost use Rattle.ir_past.specs.Answers.{IsOpened, refused_line, incoherent_line, trace_refusal_text, refusal_status, Stops};

use crate::opened::{Opened, Refusal};
use crate::past_err::PastErr;
use ir_coherence::{Incoherence, first_incoherence};
use ir_files::ExitStatus;
use ir_stream::{Sink, write_all};
use ir_trace::{Trace, read_trace};
use std::alloc::{AllocError, Global};

// A trace, if it is coherent.
fn checked(alloc: Global, trace: Trace) -> Result<Opened, AllocError>
    ensures { IfOk result (IsOpened (Ok trace)) }
{
    match first_incoherence(alloc, &trace)? {
        None => Ok(Opened::Coherent(trace)),
        Some(first) => Ok(Opened::Refused(Refusal::Incoherent(first))),
    }
}

/// What bytes are: a coherent trace, or why they are none. It takes memory for the trace and for the counts of its entries.
///
/// # Errors
/// Out of memory.
pub fn open_trace(alloc: Global, bytes: &[u8]) -> Result<Opened, AllocError>
    ensures { IfOk result (IsOpened (recorded_at bytes.now)) }
{
    match read_trace(alloc, bytes) {
        Ok(trace) => checked(alloc, trace),
        Err(error) => match error.number() {
            None => Err(AllocError),
            Some(fault) => Ok(Opened::Refused(Refusal::NoTrace(fault))),
        },
    }
}

// The line that refuses bytes for the fault of a number.
fn refused_line(alloc: Global, fault: u8) -> Result<String, AllocError>
    ensures { IfOk result (λ s. string_bytes s ≡ refused_line fault) }
{
    format!(in alloc; "trace refused {fault}\n")
}

// The line of the first event that breaks coherence.
fn incoherent_line(alloc: Global, first: &Incoherence) -> Result<String, AllocError>
    ensures { IfOk result (λ s. string_bytes s ≡ incoherent_line first.now) }
{
    let thread = first.thread;
    let event = first.event;
    let cause = first.cause.number();
    format!(in alloc; "incoherent thread {thread} event {event} cause {cause}\n")
}

// The line that says why bytes are no coherent trace.
fn refusal_line(alloc: Global, why: &Refusal) -> Result<String, AllocError>
    ensures { IfOk result (λ s. string_bytes s ≡ trace_refusal_text why.now) }
{
    match why {
        Refusal::NoTrace(fault) => refused_line(alloc, *fault),
        Refusal::Incoherent(first) => incoherent_line(alloc, first),
    }
}

/// Writes the line that says why bytes are no coherent trace; the exit status.
///
/// # Errors
/// Out of memory, or the writer failed; then a prefix of the line was written.
pub fn refuse<O: Sink>(alloc: Global, why: &Refusal, out: &mut O) -> Result<ExitStatus, PastErr>
    requires { O.broken out.old ≡ false }
    ensures status { IfOk result (λ status. status ≡ refusal_status why.now) }
    ensures ok { OnOk result (Appends (O.written out.old) (O.written out.new) (trace_refusal_text why.now)) }
    ensures works { OnOk result (O.broken out.new ≡ false) }
    ensures fails { IfErr result (λ e. Stops e (writer_of (O.written out.old) (O.written out.new) (O.broken out.new)) (trace_refusal_text why.now)) }
{
    let line = refusal_line(alloc, why)?;
    write_all(out, line.as_bytes())?;
    match why {
        Refusal::NoTrace(_) => Ok(ExitStatus::Refused),
        Refusal::Incoherent(_) => Ok(ExitStatus::NotFit),
    }
}
