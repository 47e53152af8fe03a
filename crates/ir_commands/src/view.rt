//! `ir view`: a picture of a recording is printed.

ghost use Rattle.std.specs.Prelude.{◌≡◌, ◌⊎◌, false};
ghost use Rattle.ir_files.specs.Writers.{writer_of};
ghost use Rattle.ir_files.specs.declared.exit_status.ExitStatus.TheVariants as status;
ghost use Rattle.ir_commands.specs.Files.{IsUnread};
ghost use Rattle.ir_commands.specs.Printing.{LeavesUnread, PrintsView, form_asked, view_asked};

use crate::asking::{AskedFiles, NoRun, answer_of_files};
use ir_arguments::ViewArguments;
use ir_files::{ExitStatus, Folder};
use ir_picture::{Around, Asked, Form};
use ir_run_picture::RunView;
use ir_stream::Sink;
use std::alloc::Global;

// Why there is no picture, in words: the line that was printed says which of these it is.
const NO_PICTURE: NoRun = NoRun {
    of_trace: Some(
        "no run has this trace, or a page would have too many boxes (--around T E shows a part): see the line that was printed",
    ),
    of_image: "no run of this image has this trace, or a page would have too many boxes (--around T E shows a part): see the line that was printed",
};

// The form that the arguments ask for.
fn form_asked(arguments: &ViewArguments) -> Form
    ensures { result ≡ form_asked arguments.now.json arguments.now.chrome }
{
    if arguments.json {
        Form::Data
    } else if arguments.chrome {
        Form::Chrome
    } else {
        Form::Page
    }
}

// What the arguments ask of a picture.
fn picture_asked(arguments: &ViewArguments) -> Asked
    ensures { result ≡ view_asked arguments.now }
{
    let form = form_asked(arguments);
    match arguments.part {
        None => Asked { form, around: None },
        Some(part) => Asked {
            form,
            around: Some(Around {
                thread: part.thread,
                event: part.event,
                span: part.span,
            }),
        },
    }
}

/// Prints a picture of the trace in a file, with an image of its run. If there is none, a line of `faults` says why.
pub fn view_file<D: Folder, O: Sink, E: Sink>(
    alloc: Global,
    folder: &D,
    arguments: &ViewArguments,
    out: &mut O,
    faults: &mut E,
) -> ExitStatus
    requires writes { O.broken out.old ≡ false }
    requires reports { E.broken faults.old ≡ false }
    ensures prints { PrintsView (D.bytes_at folder.now) arguments.now result
        (writer_of (O.written out.old) (O.written out.new) (O.broken out.new)) (writer_of (E.written faults.old) (E.written faults.new) (E.broken faults.new))
        ⊎ LeavesUnread (IsUnread (D.bytes_at folder.now) arguments.now.image result) (out.new ≡ out.old)
        (writer_of (E.written faults.old) (E.written faults.new) (E.broken faults.new)) }
    ensures quiet { result ≡ status.Done → faults.new ≡ faults.old }
{
    let asked = picture_asked(arguments);
    let of_run = RunView { asked: &asked };
    let files = AskedFiles {
        folder,
        trace: &arguments.trace,
        image: &arguments.image,
        no_run: NO_PICTURE,
    };
    answer_of_files(alloc, files, &asked, &of_run, out, faults)
}
