//! `ir diff`: what two traces have in common.

ghost use Rattle.std.specs.Prelude.{◌≡◌, IfOk, IfErr, OnOk, length, false};
ghost use Rattle.std.specs.Io.KnownBytes.{Appends};
ghost use Rattle.ir_trace.specs.Recorded.{recorded_at};
ghost use Rattle.ir_files.specs.Writers.{writer_of};
ghost use Rattle.ir_files.specs.declared.exit_status.ExitStatus.TheVariants as status;
ghost use Rattle.ir_past.specs.Answers.{AreCoherent, Answered, NotAnswered, Stops};
ghost use Rattle.ir_diff.specs.Lines.{differing_header_line, IsDiff, IsPairAnswer, IsSecondAnswer};

use crate::common::common_part;
use crate::lines::header_line;
use crate::texts::{Side, diff_text};
use ir_files::ExitStatus;
use ir_past::{Opened, PastErr, Printed, TraceQuestion, makers_of, open_trace, refuse};
use ir_stream::{Sink, write_all};
use ir_trace::Trace;
use std::alloc::{AllocError, Global};

// The lines of two coherent traces of as many threads.
fn compared(alloc: Global, a: &Trace, b: &Trace) -> Result<Vec<u8>, AllocError>
    requires first { AreCoherent a.now }
    requires second { AreCoherent b.now }
    requires same { length a.now.threads ≡ length b.now.threads }
    ensures { IfOk result (λ v. IsDiff a.now b.now v.items) }
{
    let first = makers_of(alloc, a)?;
    let second = makers_of(alloc, b)?;
    let part = common_part(alloc, a, b)?;
    diff_text(
        alloc,
        Side {
            trace: a,
            makers: &first,
        },
        Side {
            trace: b,
            makers: &second,
        },
        &part,
    )
}

// Writes the line of headers that differ.
fn put_header<O: Sink>(alloc: Global, cause: u8, out: &mut O) -> Result<ExitStatus, PastErr>
    requires { O.broken out.old ≡ false }
    ensures status { IfOk result (λ answered. answered ≡ status.NotFit) }
    ensures ok { OnOk result (Appends (O.written out.old) (O.written out.new) (differing_header_line cause)) }
    ensures works { OnOk result (O.broken out.new ≡ false) }
    ensures fails { IfErr result (λ e. Stops e (writer_of (O.written out.old) (O.written out.new) (O.broken out.new)) (differing_header_line cause)) }
{
    let line = header_line(alloc, cause)?;
    write_all(out, line.as_bytes())?;
    Ok(ExitStatus::NotFit)
}

// Writes the answer about two coherent traces.
fn show_pair<O: Sink>(
    alloc: Global,
    a: &Trace,
    b: &Trace,
    out: &mut O,
) -> Result<ExitStatus, PastErr>
    requires works { O.broken out.old ≡ false }
    requires first { AreCoherent a.now }
    requires second { AreCoherent b.now }
    ensures ok { IfOk result (λ answered. Answered (IsPairAnswer a.now b.now) answered (writer_of (O.written out.old) (O.written out.new) (O.broken out.new))) }
    ensures fails { IfErr result (λ e. NotAnswered (IsPairAnswer a.now b.now) e (writer_of (O.written out.old) (O.written out.new) (O.broken out.new))) }
{
    if a.threads().len() != b.threads().len() {
        return put_header(alloc, 1, out);
    }
    if a.objects() != b.objects() {
        return put_header(alloc, 2, out);
    }
    let text = compared(alloc, a, b)?;
    write_all(out, &text)?;
    Ok(ExitStatus::Done)
}

// Writes the answer about a coherent trace and the bytes of a second one.
fn show_second<O: Sink>(
    alloc: Global,
    a: &Trace,
    bytes: &[u8],
    out: &mut O,
) -> Result<ExitStatus, PastErr>
    requires works { O.broken out.old ≡ false }
    requires coherent { AreCoherent a.now }
    ensures ok { IfOk result (λ answered. Answered (IsSecondAnswer a.now (recorded_at bytes.now)) answered (writer_of (O.written out.old) (O.written out.new) (O.broken out.new))) }
    ensures fails { IfErr result (λ e. NotAnswered (IsSecondAnswer a.now (recorded_at bytes.now)) e (writer_of (O.written out.old) (O.written out.new) (O.broken out.new))) }
{
    match open_trace(alloc, bytes)? {
        Opened::Coherent(b) => show_pair(alloc, a, &b, out),
        Opened::Refused(why) => refuse(alloc, &why, out),
    }
}

/// What a trace and the bytes of a second one have in common: it is answered by how many events of each thread, and for each thread that differs what
/// each trace has there; or by the line that says why the second one is no coherent trace, or that the traces have another number of threads
/// or objects.
#[derive(Clone, Copy)]
pub struct Difference<'a> {
    /// The bytes of the second trace.
    pub second: &'a [u8],
}

impl<'a> TraceQuestion for Difference<'a> {
    ghost is_answer = { λ asked a. IsSecondAnswer a (recorded_at asked.second.now) };

    ghost is_absent = { λ _ _ _. ⊥ };

    fn print<O: Sink>(&self, alloc: Global, trace: &Trace, out: &mut O) -> Printed {
        Ok(show_second(alloc, trace, self.second, out)?)
    }
}
