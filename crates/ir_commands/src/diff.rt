//! `ir diff`: what two recordings have in common is printed.

ghost use Rattle.std.specs.Prelude.{◌≡◌, ◌⊎◌, false};
ghost use Rattle.ir_files.specs.Writers.{writer_of};
ghost use Rattle.ir_files.specs.declared.exit_status.ExitStatus.TheVariants as status;
ghost use Rattle.ir_trace.specs.Recorded.{recorded_at};
ghost use Rattle.ir_diff.specs.Lines.{IsDiffAnswer};
ghost use Rattle.ir_commands.specs.Printing.{IsPrinted, PrintsDiff, LeavesUnread};

use crate::explaining::explain_trace;
use crate::files::bytes_of;
use ir_arguments::DiffArguments;
use ir_diff::Difference;
use ir_files::{ExitStatus, Folder, MOST_FILE_BYTES};
use ir_past::ask_trace;
use ir_stream::Sink;
use std::alloc::Global;

// Prints what two traces have in common. It is reported which of them is refused, and why.
fn of_traces<O: Sink, E: Sink>(
    alloc: Global,
    first: &[u8],
    second: &[u8],
    out: &mut O,
    faults: &mut E,
) -> ExitStatus
    requires writes { O.broken out.old ≡ false }
    requires reports { E.broken faults.old ≡ false }
    ensures prints { IsPrinted (IsDiffAnswer (recorded_at first.now) (recorded_at second.now)) result
        (writer_of (O.written out.old) (O.written out.new) (O.broken out.new)) (writer_of (E.written faults.old) (E.written faults.new) (E.broken faults.new)) }
    ensures quiet { result ≡ status.Done → faults.new ≡ faults.old }
{
    let status = ask_trace(alloc, first, &Difference { second }, out, faults);
    explain_trace(alloc, "the first trace", first, status, faults);
    explain_trace(alloc, "the second trace", second, status, faults);
    status
}

/// Prints what the traces in two files have in common. If there is no answer, a line of `faults` says why.
pub fn diff_files<D: Folder, O: Sink, E: Sink>(
    alloc: Global,
    folder: &D,
    arguments: &DiffArguments,
    out: &mut O,
    faults: &mut E,
) -> ExitStatus
    requires writes { O.broken out.old ≡ false }
    requires reports { E.broken faults.old ≡ false }
    ensures prints { PrintsDiff (D.bytes_at folder.now) arguments.now result
        (writer_of (O.written out.old) (O.written out.new) (O.broken out.new)) (writer_of (E.written faults.old) (E.written faults.new) (E.broken faults.new))
        ⊎ LeavesUnread (result ≡ status.Failed) (out.new ≡ out.old)
        (writer_of (E.written faults.old) (E.written faults.new) (E.broken faults.new)) }
    ensures quiet { result ≡ status.Done → faults.new ≡ faults.old }
{
    let path = arguments.first.as_str();
    let Some(first) = bytes_of(alloc, folder, faults, path, MOST_FILE_BYTES) else {
        return ExitStatus::Failed;
    };
    let path = arguments.second.as_str();
    let Some(second) = bytes_of(alloc, folder, faults, path, MOST_FILE_BYTES) else {
        return ExitStatus::Failed;
    };
    of_traces(alloc, first.as_slice(), second.as_slice(), out, faults)
}
