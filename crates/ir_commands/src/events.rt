//! `ir events`: the events of a recorded run are printed with their places.

ghost use Rattle.std.specs.Prelude.{◌≡◌, ◌⊎◌, false};
ghost use Rattle.ir_files.specs.Writers.{writer_of};
ghost use Rattle.ir_files.specs.declared.exit_status.ExitStatus.TheVariants as status;
ghost use Rattle.ir_opened.specs.Answers.{IsFitAnswerOf};
ghost use Rattle.ir_listing.specs.Events.{AreEventLines};
ghost use Rattle.ir_commands.specs.Printing.{IsPrinted, PrintsEvents, IsStatusOfNoImage, LeavesUnread};

use crate::asking::answer_of_run;
use crate::explaining::{NO_RUN, RunFiles};
use crate::files::bytes_of;
use crate::maps::named_image;
use ir_arguments::EventsArguments;
use ir_files::{ExitStatus, Folder, MOST_FILE_BYTES};
use ir_listing::EventsQuestion;
use ir_stream::Sink;
use ir_symbols::SymbolTable;
use std::alloc::Global;

// Prints the events of a run of the image.
fn of_run<O: Sink, E: Sink>(
    alloc: Global,
    image: &[u8],
    trace: &[u8],
    symbols: &SymbolTable,
    out: &mut O,
    faults: &mut E,
) -> ExitStatus
    requires writes { O.broken out.old ≡ false }
    requires reports { E.broken faults.old ≡ false }
    ensures prints { IsPrinted (IsFitAnswerOf (AreEventLines symbols.now) image.now trace.now) result
        (writer_of (O.written out.old) (O.written out.new) (O.broken out.new)) (writer_of (E.written faults.old) (E.written faults.new) (E.broken faults.new)) }
    ensures quiet { result ≡ status.Done → faults.new ≡ faults.old }
{
    let no_run = NO_RUN;
    let files = RunFiles {
        image,
        trace,
        no_run,
    };
    answer_of_run(alloc, &EventsQuestion { symbols }, files, out, faults)
}

// Prints the events of the run in two files, with the names of a map or of an ELF file. It is reported why there is none.
pub fn events_file<D: Folder, O: Sink, E: Sink>(
    alloc: Global,
    folder: &D,
    arguments: &EventsArguments,
    out: &mut O,
    faults: &mut E,
) -> ExitStatus
    requires writes { O.broken out.old ≡ false }
    requires reports { E.broken faults.old ≡ false }
    ensures prints { PrintsEvents (D.bytes_at folder.now) arguments.now result
        (writer_of (O.written out.old) (O.written out.new) (O.broken out.new)) (writer_of (E.written faults.old) (E.written faults.new) (E.broken faults.new))
        ⊎ LeavesUnread (IsStatusOfNoImage (D.bytes_at folder.now) arguments.now.image arguments.now.map result) (out.new ≡ out.old)
        (writer_of (E.written faults.old) (E.written faults.new) (E.broken faults.new)) }
    ensures quiet { result ≡ status.Done → faults.new ≡ faults.old }
{
    let path = arguments.trace.as_str();
    let Some(trace) = bytes_of(alloc, folder, faults, path, MOST_FILE_BYTES) else {
        return ExitStatus::Failed;
    };
    match named_image(alloc, folder, faults, &arguments.image, &arguments.map) {
        Ok(named) => {
            let (image, trace) = (named.image.as_slice(), trace.as_slice());
            of_run(alloc, image, trace, &named.names, out, faults)
        }
        Err(status) => status,
    }
}
