//! `ir asm`: a source in a file is assembled into another.

ghost use Rattle.std.specs.Prelude.{◌≡◌, ◌≢◌, ◌⊎◌, List, true, false};
ghost use Rattle.ir_files.specs.declared.exit_status.ExitStatus.TheVariants as exit;
ghost use Rattle.ir_make.specs.Mapping.{label_symbols};
ghost use Rattle.ir_symbols.specs.Maps.{map_text};
ghost use Rattle.ir_symbols.specs.Symbols.{Symbol};
ghost use Rattle.ir_symbols.specs.Tables.{IsSortOf};
ghost use Rattle.std.specs.List.{All};
ghost use Rattle.ir_files.specs.Given.{IsStored};
ghost use Rattle.ir_make.specs.Mapping.{IsNamed};
ghost use Rattle.ir_files.specs.Writers.{writer_of};
ghost use Rattle.ir_commands.specs.Files.{IsTold, TellsFault};
ghost use Rattle.ir_commands.specs.Writing.{Assembles, Makes, RefusesSource, storing};

use crate::files::{bytes_of, is_lost, shown_path, tells_failed, told_of_file};
use crate::maps::labels_into;
use ir_arguments::AssembleArguments;
use ir_asm::Labels;
use ir_files::{ExitStatus, Folder, MOST_FILE_BYTES, WholeFile};
use ir_make::asm_run;
use ir_stream::Sink;
use std::alloc::Global;

// Whether a file would be written over one that is read, or over another that is written, which is reported.
fn loses_file<D: Folder, E: Sink>(folder: &D, faults: &mut E, arguments: &AssembleArguments) -> bool
    ensures kept { result ≡ false → faults.new ≡ faults.old }
    ensures told { result ≡ true → E.broken faults.old ≡ false → TellsFault (writer_of (E.written faults.old) (E.written faults.new) (E.broken faults.new)) }
{
    let source = arguments.source.as_str();
    let image = arguments.image.as_str();
    let would = "IMAGE would be written over SOURCE";
    if is_lost(folder, faults, would, source, image) {
        return true;
    }
    let Some(map) = &arguments.map else {
        return false;
    };
    let map = map.as_str();
    let would = "MAP would be written over SOURCE";
    if is_lost(folder, faults, would, source, map) {
        return true;
    }
    let would = "MAP would be written over IMAGE";
    is_lost(folder, faults, would, image, map)
}

// Writes the labels to a file, once the image is in its place: only then two names of a file that wasn't there are known to be of one.
fn put_labels<D: Folder, E: Sink>(
    alloc: Global,
    folder: &D,
    labels: &Labels,
    image: &str,
    map: &str,
    faults: &mut E,
) -> ExitStatus
    requires names { All IsNamed labels.now }
    requires reports { E.broken faults.old ≡ false }
    ensures status { (result ≡ exit.Done) ⊎ ((result ≡ exit.Failed) ⊎ (result ≡ exit.BadArguments)) }
    ensures told { result ≢ exit.Done → IsTold (writer_of (E.written faults.old) (E.written faults.new) (E.broken faults.new)) }
    ensures done { result ≡ exit.Done → (table : List Symbol) × IsSortOf (label_symbols labels.now) table × IsStored D.known (D.knows folder.now) (D.was_put folder.now) map.now (map_text table) }
{
    let would = "MAP would be written over IMAGE";
    if is_lost(folder, faults, would, image, map) {
        return ExitStatus::BadArguments;
    }
    labels_into(alloc, folder, labels, map, faults)
}

// Assembles a file into another, and its labels into a third if one is named; each is in its place only once it is whole.
pub fn assemble_file<D: Folder, E: Sink>(
    alloc: Global,
    folder: &D,
    arguments: &AssembleArguments,
    explains: bool,
    faults: &mut E,
) -> ExitStatus
    requires reports { E.broken faults.old ≡ false }
    ensures { Makes (Assembles (D.bytes_at folder.now) (storing D.known D.known_closed (D.knows folder.now) (D.was_put folder.now)) arguments.now)
        (RefusesSource (D.bytes_at folder.now) arguments.now (writer_of (E.written faults.old) (E.written faults.new) (E.broken faults.new))) result
        (writer_of (E.written faults.old) (E.written faults.new) (E.broken faults.new)) }
{
    if loses_file(folder, faults, arguments) {
        return ExitStatus::BadArguments;
    }
    let source = arguments.source.as_str();
    let Some(bytes) = bytes_of(alloc, folder, faults, source, MOST_FILE_BYTES) else {
        return ExitStatus::Failed;
    };
    let mut file = WholeFile::new(alloc, folder, arguments.image.as_str());
    let explained = (explains || arguments.explain).then_some(shown_path(source, "SOURCE"));
    let labels = match asm_run(alloc, bytes.as_slice(), explained, &mut file, faults) {
        Ok(labels) => labels,
        Err(status) => return told_of_file(&file, status, source, faults),
    };
    if tells_failed(&file, faults) {
        return ExitStatus::Failed;
    }
    match &arguments.map {
        Some(map) => {
            let image = arguments.image.as_str();
            put_labels(alloc, folder, &labels, image, map.as_str(), faults)
        }
        None => ExitStatus::Done,
    }
}
