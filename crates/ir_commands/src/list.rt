//! `ir list`: the code of an image is printed.

ghost use Rattle.std.specs.Prelude.{◌≡◌, ◌⊎◌, false};
ghost use Rattle.ir_files.specs.Writers.{writer_of};
ghost use Rattle.ir_files.specs.declared.exit_status.ExitStatus.TheVariants as status;
ghost use Rattle.ir_commands.specs.Printing.{PrintsCode, IsStatusOfNoImage, LeavesUnread};

use crate::maps::named_image;
use ir_arguments::ListArguments;
use ir_files::{ExitStatus, Folder};
use ir_listing::list_report;
use ir_stream::Sink;
use std::alloc::Global;

// Prints the code of the image in a file, with the names of a map or of an ELF file.
pub fn list_file<D: Folder, O: Sink, E: Sink>(
    alloc: Global,
    folder: &D,
    arguments: &ListArguments,
    out: &mut O,
    faults: &mut E,
) -> ExitStatus
    requires writes { O.broken out.old ≡ false }
    requires reports { E.broken faults.old ≡ false }
    ensures prints { PrintsCode (D.bytes_at folder.now) arguments.now result
        (writer_of (O.written out.old) (O.written out.new) (O.broken out.new)) (writer_of (E.written faults.old) (E.written faults.new) (E.broken faults.new))
        ⊎ LeavesUnread (IsStatusOfNoImage (D.bytes_at folder.now) arguments.now.image arguments.now.map result) (out.new ≡ out.old)
        (writer_of (E.written faults.old) (E.written faults.new) (E.broken faults.new)) }
    ensures quiet { result ≡ status.Done → faults.new ≡ faults.old }
{
    match named_image(alloc, folder, faults, &arguments.image, &arguments.map) {
        Ok(named) => list_report(alloc, named.image.as_slice(), &named.names, out, faults),
        Err(status) => status,
    }
}
