//! `ir who`: the versions of an object of a recording are printed.

ghost use Rattle.std.specs.Prelude.{◌≡◌, ◌⊎◌, false};
ghost use Rattle.ir_files.specs.Writers.{writer_of};
ghost use Rattle.ir_files.specs.declared.exit_status.ExitStatus.TheVariants as status;
ghost use Rattle.ir_commands.specs.Files.{IsUnread};
ghost use Rattle.ir_commands.specs.Printing.{LeavesUnread, PrintsWho};

use crate::asking::{AskedFiles, WRONG_IMAGE, answer_of_files};
use ir_arguments::WhoArguments;
use ir_files::{ExitStatus, Folder};
use ir_stream::Sink;
use ir_who::Question;
use std::alloc::Global;

/// Prints the versions of an object of the trace in a file, with an image their steps too, or those in which a word of it changed. If there is
/// no answer, a line of `faults` says why.
pub fn who_file<D: Folder, O: Sink, E: Sink>(
    alloc: Global,
    folder: &D,
    arguments: &WhoArguments,
    out: &mut O,
    faults: &mut E,
) -> ExitStatus
    requires writes { O.broken out.old ≡ false }
    requires reports { E.broken faults.old ≡ false }
    ensures prints { PrintsWho (D.bytes_at folder.now) arguments.now result
        (writer_of (O.written out.old) (O.written out.new) (O.broken out.new)) (writer_of (E.written faults.old) (E.written faults.new) (E.broken faults.new))
        ⊎ LeavesUnread (IsUnread (D.bytes_at folder.now) arguments.now.image result) (out.new ≡ out.old)
        (writer_of (E.written faults.old) (E.written faults.new) (E.broken faults.new)) }
    ensures quiet { result ≡ status.Done → faults.new ≡ faults.old }
{
    let versions = Question {
        object: arguments.object,
        version: arguments.version,
    };
    let files = AskedFiles {
        folder,
        trace: &arguments.trace,
        image: &arguments.image,
        no_run: WRONG_IMAGE,
    };
    match arguments.word {
        None => answer_of_files(alloc, files, &versions, &versions, out, faults),
        Some(word) => {
            let changes = ir_who_word::Question {
                object: arguments.object,
                word,
            };
            answer_of_files(alloc, files, &versions, &changes, out, faults)
        }
    }
}
