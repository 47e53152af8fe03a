//! Maps of names: those that are read, and the one of a source's labels.

ghost use Rattle.std.specs.Prelude.{◌≡◌, ◌⊎◌, List, [], OnOk, OnErr, IfOk, IfErr, false, if◌then◌else◌};
ghost use Rattle.std.specs.List.{All};
ghost use Rattle.ir_symbols.specs.Tables.{IsSortOf};
ghost use Rattle.ir_elf_symbols.specs.Symbols.{elf_symbols};
ghost use Rattle.ir_files.specs.Given.{IsStored};
ghost use Rattle.ir_make.specs.Mapping.{IsNamed, label_symbols};
ghost use Rattle.ir_symbols.specs.Maps.{map_text};
ghost use Rattle.ir_symbols.specs.Symbols.{Symbol};
ghost use Rattle.ir_make.specs.Opening.{is_elf};
ghost use Rattle.ir_files.specs.Writers.{writer_of};
ghost use Rattle.ir_files.specs.declared.exit_status.ExitStatus.TheVariants as exit;
ghost use Rattle.ir_commands.specs.Files.{AreNames, IsStatusOfNoNames, IsTold, OfNamedImage, map_status, TellsFault};
ghost use Rattle.ir_commands.specs.Printing.{IsStatusOfNoImage};

use crate::files::{bytes_of, image_of_file, out_of_memory, say, told_of_file};
use ir_asm::Labels;
use ir_elf_symbols::elf_symbols;
use ir_files::{ExitStatus, Folder, MOST_FILE_BYTES, WholeFile};
use ir_make::{is_elf, map_run};
use ir_stream::Sink;
use ir_symbols::{MapErr, SymbolTable, read_map};
use std::alloc::Global;

// Says why a map isn't read; the status.
fn refused<E: Sink>(alloc: Global, faults: &mut E, path: &str, why: MapErr) -> ExitStatus
    ensures status { result ≡ map_status why }
    ensures told { E.broken faults.old ≡ false → TellsFault (writer_of (E.written faults.old) (E.written faults.new) (E.broken faults.new)) }
{
    let MapErr::Line(number) = why else {
        return out_of_memory(faults);
    };
    match format!(in alloc; "line {number} is no symbol as nm prints it") {
        Ok(why) => say(faults, path, ": ", why.as_str()),
        Err(_) => say(faults, path, ": ", "a line is no symbol as nm prints it"),
    }
    ExitStatus::Refused
}

// The names of addresses that a file has itself: the symbols of an ELF file, and none of any other.
fn own_names<E: Sink>(alloc: Global, faults: &mut E, file: &[u8]) -> Result<SymbolTable, ExitStatus>
    ensures kept { OnOk result (faults.new ≡ faults.old) }
    ensures symbols { IfOk result (λ table. IsSortOf (if is_elf file.now then elf_symbols file.now else []) table) }
    ensures status { IfErr result (λ answered. answered ≡ exit.Failed) }
    ensures told { OnErr result (E.broken faults.old ≡ false → TellsFault (writer_of (E.written faults.old) (E.written faults.new) (E.broken faults.new))) }
{
    let symbols = if is_elf(file) {
        elf_symbols(alloc, file)
    } else {
        SymbolTable::of(alloc, Vec::new(alloc))
    };
    match symbols {
        Ok(symbols) => Ok(symbols),
        Err(_) => Err(out_of_memory(faults)),
    }
}

// The names of addresses in a map, or those that the guest's file has itself if no map is named. If the map can't be read, the reason is
// reported.
pub fn names_in<D: Folder, E: Sink>(
    alloc: Global,
    folder: &D,
    faults: &mut E,
    file: &[u8],
    map: &Option<String>,
) -> Result<SymbolTable, ExitStatus>
    ensures kept { OnOk result (faults.new ≡ faults.old) }
    ensures names { IfOk result (λ table. AreNames (D.bytes_at folder.now) map.now file.now table) }
    ensures status { IfErr result (IsStatusOfNoNames (D.bytes_at folder.now) map.now) }
    ensures told { OnErr result (E.broken faults.old ≡ false → TellsFault (writer_of (E.written faults.old) (E.written faults.new) (E.broken faults.new))) }
{
    let Some(path) = map else {
        return own_names(alloc, faults, file);
    };
    let path = path.as_str();
    let Some(bytes) = bytes_of(alloc, folder, faults, path, MOST_FILE_BYTES) else {
        return Err(ExitStatus::Failed);
    };
    match read_map(alloc, bytes.as_slice()) {
        Ok(symbols) => Ok(symbols),
        Err(why) => Err(refused(alloc, faults, path, why)),
    }
}

// The bytes of an image, and the names for its addresses.
#[derive(Drop)]
pub struct NamedImage {
    pub image: Vec<u8>,
    pub names: SymbolTable,
}

// The image in a file, which may be an ELF file, and the names for its addresses. If there are none, the reason is reported.
pub fn named_image<D: Folder, E: Sink>(
    alloc: Global,
    folder: &D,
    faults: &mut E,
    path: &String,
    map: &Option<String>,
) -> Result<NamedImage, ExitStatus>
    ensures kept { OnOk result (faults.new ≡ faults.old) }
    ensures named { IfOk result (λ named. OfNamedImage (D.bytes_at folder.now) path.now map.now (λ image names. (image ≡ named.image.items) × (names ≡ named.names))) }
    ensures status { IfErr result (IsStatusOfNoImage (D.bytes_at folder.now) path.now map.now) }
    ensures told { OnErr result (E.broken faults.old ≡ false → TellsFault (writer_of (E.written faults.old) (E.written faults.new) (E.broken faults.new))) }
{
    let path = path.as_str();
    let Some(file) = bytes_of(alloc, folder, faults, path, MOST_FILE_BYTES) else {
        return Err(ExitStatus::Failed);
    };
    let names = match names_in(alloc, folder, faults, &file, map) {
        Ok(names) => names,
        Err(status) => return Err(status),
    };
    match image_of_file(alloc, faults, path, file) {
        Ok(image) => Ok(NamedImage { image, names }),
        Err(status) => Err(status),
    }
}

// Writes the labels of a source into a file, which is in its place only once it is whole.
pub fn labels_into<D: Folder, E: Sink>(
    alloc: Global,
    folder: &D,
    labels: &Labels,
    path: &str,
    faults: &mut E,
) -> ExitStatus
    requires { All IsNamed labels.now }
    ensures status { (result ≡ exit.Done) ⊎ (result ≡ exit.Failed) }
    ensures told { result ≡ exit.Failed → IsTold (writer_of (E.written faults.old) (E.written faults.new) (E.broken faults.new)) }
    ensures done { result ≡ exit.Done → (table : List Symbol) × IsSortOf (label_symbols labels.now) table × IsStored D.known (D.knows folder.now) (D.was_put folder.now) path.now (map_text table) }
{
    let mut file = WholeFile::new(alloc, folder, path);
    let status = map_run(alloc, labels, &mut file);
    told_of_file(&file, status, path, faults)
}
