//! `ir trace`: the trace in a file is printed.

ghost use Rattle.std.specs.Prelude.{◌≡◌, ◌⊎◌, false};
ghost use Rattle.ir_files.specs.Writers.{writer_of};
ghost use Rattle.ir_files.specs.declared.exit_status.ExitStatus.TheVariants as status;
ghost use Rattle.ir_commands.specs.Printing.{PrintsTrace, LeavesUnread};

use crate::explaining::{THE_TRACE, explain_trace};
use crate::files::bytes_of;
use crate::tracing::trace_run;
use ir_arguments::TraceArguments;
use ir_files::{ExitStatus, Folder, MOST_FILE_BYTES};
use ir_stream::Sink;
use std::alloc::Global;

// Prints the trace in a file. It is reported why it is refused, if it is.
pub fn trace_file<D: Folder, O: Sink, E: Sink>(
    alloc: Global,
    folder: &D,
    arguments: &TraceArguments,
    out: &mut O,
    faults: &mut E,
) -> ExitStatus
    requires writes { O.broken out.old ≡ false }
    requires reports { E.broken faults.old ≡ false }
    ensures prints { PrintsTrace (D.bytes_at folder.now) arguments.now result
        (writer_of (O.written out.old) (O.written out.new) (O.broken out.new)) (writer_of (E.written faults.old) (E.written faults.new) (E.broken faults.new))
        ⊎ LeavesUnread (result ≡ status.Failed) (out.new ≡ out.old)
        (writer_of (E.written faults.old) (E.written faults.new) (E.broken faults.new)) }
    ensures quiet { result ≡ status.Done → faults.new ≡ faults.old }
{
    let Some(bytes) = bytes_of(
        alloc,
        folder,
        faults,
        arguments.trace.as_str(),
        MOST_FILE_BYTES,
    ) else {
        return ExitStatus::Failed;
    };
    let status = trace_run(alloc, bytes.as_slice(), out, faults);
    explain_trace(alloc, THE_TRACE, bytes.as_slice(), status, faults);
    status
}
