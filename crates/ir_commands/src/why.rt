//! `ir why`: why an event of a recording came when it did is printed.

ghost use Rattle.std.specs.Prelude.{◌≡◌, ◌⊎◌, false};
ghost use Rattle.ir_files.specs.Writers.{writer_of};
ghost use Rattle.ir_files.specs.declared.exit_status.ExitStatus.TheVariants as status;
ghost use Rattle.ir_commands.specs.Files.{IsUnread};
ghost use Rattle.ir_commands.specs.Printing.{LeavesUnread, PrintsWhy};

use crate::asking::{AskedFiles, WRONG_IMAGE, answer_of_files};
use ir_arguments::WhyArguments;
use ir_files::{ExitStatus, Folder};
use ir_stream::Sink;
use ir_why::{FitQuestion, Question};
use std::alloc::Global;

/// Prints why an event of the trace in a file came when it did, with an image by which steps; the cut that is asked about is taken out of the
/// arguments. If there is no answer, a line of `faults` says why.
pub fn why_file<D: Folder, O: Sink, E: Sink>(
    alloc: Global,
    folder: &D,
    arguments: &mut WhyArguments,
    out: &mut O,
    faults: &mut E,
) -> ExitStatus
    requires writes { O.broken out.old ≡ false }
    requires reports { E.broken faults.old ≡ false }
    ensures prints { PrintsWhy (D.bytes_at folder.now) arguments.old result
        (writer_of (O.written out.old) (O.written out.new) (O.broken out.new)) (writer_of (E.written faults.old) (E.written faults.new) (E.broken faults.new))
        ⊎ LeavesUnread (IsUnread (D.bytes_at folder.now) arguments.old.image result) (out.new ≡ out.old)
        (writer_of (E.written faults.old) (E.written faults.new) (E.broken faults.new)) }
    ensures quiet { result ≡ status.Done → faults.new ≡ faults.old }
{
    let what = Question {
        thread: arguments.thread,
        event: arguments.event,
        most: arguments.lines,
    };
    let asked = FitQuestion {
        what,
        at: arguments.at.take(),
    };
    let files = AskedFiles {
        folder,
        trace: &arguments.trace,
        image: &arguments.image,
        no_run: WRONG_IMAGE,
    };
    answer_of_files(alloc, files, &asked.what, &asked, out, faults)
}
