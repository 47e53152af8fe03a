//! `ir elf`: a program in an ELF file is made the image of a guest in another.

ghost use Rattle.std.specs.Prelude.{◌≡◌, ◌≢◌, false};
ghost use Rattle.ir_files.specs.Writers.{writer_of};
ghost use Rattle.ir_files.specs.declared.exit_status.ExitStatus.TheVariants as exit;
ghost use Rattle.ir_commands.specs.Writing.{Converts, Makes, RefusesElf, storing};

use crate::files::{bytes_of, is_lost, say, shown_path, told_of_file};
use ir_arguments::ElfArguments;
use ir_elf::own_bytes;
use ir_files::{ExitStatus, Folder, MOST_FILE_BYTES, WholeFile};
use ir_make::elf_run;
use ir_stream::Sink;
use std::alloc::Global;

// Reports how many bytes of variables each thread of a guest has for itself, if it has any.
fn tell_own_bytes<E: Sink>(
    alloc: Global,
    elf: &str,
    file: &[u8],
    status: ExitStatus,
    explains: bool,
    faults: &mut E,
)
    ensures { status ≢ exit.Done → faults.new ≡ faults.old }
{
    if status != ExitStatus::Done || !explains {
        return;
    }
    if let Ok(count) = own_bytes(alloc, file)
        && count > 0
        && let Ok(what) = format!(in alloc;
            "{count} bytes of variables, and each thread has its own"
        )
    {
        say(faults, elf, ": ", what.as_str());
    }
}

// Makes an image of an ELF file, which is in its place only once it is whole.
pub fn convert_file<D: Folder, E: Sink>(
    alloc: Global,
    folder: &D,
    arguments: &ElfArguments,
    explains: bool,
    faults: &mut E,
) -> ExitStatus
    requires reports { E.broken faults.old ≡ false }
    ensures { Makes (Converts (D.bytes_at folder.now) (storing D.known D.known_closed (D.knows folder.now) (D.was_put folder.now)) arguments.now)
        (RefusesElf (D.bytes_at folder.now) arguments.now (writer_of (E.written faults.old) (E.written faults.new) (E.broken faults.new))) result
        (writer_of (E.written faults.old) (E.written faults.new) (E.broken faults.new)) }
{
    let elf = arguments.elf.as_str();
    let image = arguments.image.as_str();
    let mut file = WholeFile::new(alloc, folder, image);
    if is_lost(
        folder,
        faults,
        "IMAGE would be written over ELF",
        elf,
        image,
    ) {
        return ExitStatus::BadArguments;
    }
    let Some(bytes) = bytes_of(alloc, folder, faults, elf, MOST_FILE_BYTES) else {
        return ExitStatus::Failed;
    };
    let explained = (explains || arguments.explain).then_some(shown_path(elf, "ELF"));
    let status = elf_run(alloc, bytes.as_slice(), explained, &mut file, faults);
    let status = told_of_file(&file, status, elf, faults);
    let file = bytes.as_slice();
    tell_own_bytes(alloc, elf, file, status, explained.is_some(), faults);
    status
}
