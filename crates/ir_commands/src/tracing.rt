//! The bytes of a trace in, its lines out.

ghost use Rattle.std.specs.Prelude.{◌≡◌, ◌≢◌, OnOk, IfOk, IfErr, false};
ghost use Rattle.std.specs.Io.KnownBytes.{Appends};
ghost use Rattle.ir_trace.specs.Recorded.{recorded_at};
ghost use Rattle.ir_commands.specs.Listing.{shown_trace, listing_status};
ghost use Rattle.ir_past.specs.Answers.{Stops, fault_words};
ghost use Rattle.ir_files.specs.Writers.{writer_of, Took, Reports, fault_text};
ghost use Rattle.ir_files.specs.declared.exit_status.ExitStatus.TheVariants.{Failed};
ghost use Rattle.ir_past.specs.declared.past_err.PastErr.{PastErr};

use crate::listing::{write_listing, write_refusal};
use ir_files::{ExitStatus, tell};
use ir_past::PastErr;
use ir_stream::Sink;
use ir_trace::{TraceErr, read_trace};
use std::alloc::Global;

// Writes what the bytes of a trace show; the status.
fn show<W: Sink>(alloc: Global, trace: &[u8], out: &mut W) -> Result<ExitStatus, PastErr>
    requires { W.broken out.old ≡ false }
    ensures ok { IfOk result (λ status. (status ≡ listing_status (recorded_at trace.now)) × Appends (W.written out.old) (W.written out.new) (shown_trace (recorded_at trace.now))) }
    ensures works { OnOk result (W.broken out.new ≡ false) }
    ensures fails { IfErr result (λ e. Stops e (writer_of (W.written out.old) (W.written out.new) (W.broken out.new)) (shown_trace (recorded_at trace.now))) }
{
    match read_trace(alloc, trace) {
        Ok(trace) => {
            write_listing(alloc, &trace, out)?;
            Ok(ExitStatus::Done)
        }
        Err(TraceErr::NoMem) => Err(PastErr::NoMem),
        Err(error) => {
            write_refusal(alloc, &error, out)?;
            Ok(ExitStatus::Refused)
        }
    }
}

/// Lists the bytes of a trace: writes its lines, or the line that refuses it. The exit status is `Done`
/// if all lines were written, and `Refused` if the trace is refused, which was written. It is `Failed` if memory ran out or
/// the writer failed, with a prefix written at most and the fault reported in one line.
pub fn trace_run<W: Sink, E: Sink>(
    alloc: Global,
    trace: &[u8],
    out: &mut W,
    faults: &mut E,
) -> ExitStatus
    requires writes { W.broken out.old ≡ false }
    requires reports { E.broken faults.old ≡ false }
    // All was written, by what the bytes are, and no fault reported.
    ensures done { result ≢ Failed → (result ≡ listing_status (recorded_at trace.now))
        × Took (writer_of (W.written out.old) (W.written out.new) (W.broken out.new)) (shown_trace (recorded_at trace.now))
        × (W.broken out.new ≡ false) × (faults.new ≡ faults.old) }
    // Else what stopped it, what that leaves, and that it is reported.
    ensures stopped { result ≡ Failed → (e : PastErr)
        × Stops e (writer_of (W.written out.old) (W.written out.new) (W.broken out.new)) (shown_trace (recorded_at trace.now))
        × Reports (writer_of (E.written faults.old) (E.written faults.new) (E.broken faults.new)) (fault_text (fault_words e)) }
{
    match show(alloc, trace, out) {
        Ok(status) => status,
        Err(why) => {
            tell(faults, why.words());
            ExitStatus::Failed
        }
    }
}
