//! `ir stale`: the stale writes of a recording are printed.

ghost use Rattle.std.specs.Prelude.{◌≡◌, ◌⊎◌, false};
ghost use Rattle.ir_files.specs.Writers.{writer_of};
ghost use Rattle.ir_files.specs.declared.exit_status.ExitStatus.TheVariants as status;
ghost use Rattle.ir_commands.specs.Files.{IsUnread};
ghost use Rattle.ir_commands.specs.Printing.{LeavesUnread, PrintsStale};

use crate::asking::{AskedFiles, WRONG_IMAGE, answer_of_files};
use ir_arguments::StaleArguments;
use ir_files::{ExitStatus, Folder};
use ir_past::StaleQuestion;
use ir_stale_run::RestsQuestion;
use ir_stream::Sink;
use std::alloc::Global;

/// Prints the stale writes of the trace in a file, with an image those that rest on what was read. If there is no answer, a line of
/// `faults` says why.
pub fn stale_file<D: Folder, O: Sink, E: Sink>(
    alloc: Global,
    folder: &D,
    arguments: &StaleArguments,
    out: &mut O,
    faults: &mut E,
) -> ExitStatus
    requires writes { O.broken out.old ≡ false }
    requires reports { E.broken faults.old ≡ false }
    ensures prints { PrintsStale (D.bytes_at folder.now) arguments.now result
        (writer_of (O.written out.old) (O.written out.new) (O.broken out.new)) (writer_of (E.written faults.old) (E.written faults.new) (E.broken faults.new))
        ⊎ LeavesUnread (IsUnread (D.bytes_at folder.now) arguments.now.image result) (out.new ≡ out.old)
        (writer_of (E.written faults.old) (E.written faults.new) (E.broken faults.new)) }
    ensures quiet { result ≡ status.Done → faults.new ≡ faults.old }
{
    let files = AskedFiles {
        folder,
        trace: &arguments.trace,
        image: &arguments.image,
        no_run: WRONG_IMAGE,
    };
    answer_of_files(alloc, files, &StaleQuestion, &RestsQuestion, out, faults)
}
