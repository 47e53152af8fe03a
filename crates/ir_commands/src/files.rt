//! Files that commands read, places that they write, and what is said of both.

ghost use Rattle.std.specs.Prelude.{◌≡◌, ◌≢◌, ◌⊎◌, OnSome, OnOk, OnErr, IfSome, IfOk, IfErr, Ok, None, true, false};
ghost use Rattle.ir_files.specs.Writers.{writer_of};
ghost use Rattle.ir_files.specs.declared.exit_status.ExitStatus.TheVariants as exit;
ghost use Rattle.ir_commands.specs.Files.{GoesOn, IsImageIn, IsFileIn, IsNoGuest, IsStatusOfNone, IsTold, TellsFault};
ghost use Rattle.ir_make.specs.Opening.{image_bytes};

use ir_elf::ElfErr;
use ir_files::{ExitStatus, Folder, MOST_FILE_BYTES, WholeSink, loses, read_file, tell_of};
use ir_make::image_bytes;
use ir_stream::Sink;
use std::alloc::Global;

// Reports what failed, or is wrong, and why, in one line; if faults can't be reported any more, nothing is.
pub fn say<E: Sink>(faults: &mut E, name: &str, what: &str, why: &str)
    ensures told { E.broken faults.old ≡ false → TellsFault (writer_of (E.written faults.old) (E.written faults.new) (E.broken faults.new)) }
    ensures kept { E.broken faults.old ≡ true → faults.new ≡ faults.old }
    ensures says { IsTold (writer_of (E.written faults.old) (E.written faults.new) (E.broken faults.new)) }
    ensures grows { GoesOn (E.written faults.old) (E.written faults.new) }
{
    if !faults.failed() {
        tell_of(faults, "", name, what, why);
    }
}

// Reports that memory ran out; the exit status.
pub fn out_of_memory<E: Sink>(faults: &mut E) -> ExitStatus
    ensures status { result ≡ exit.Failed }
    ensures told { E.broken faults.old ≡ false → TellsFault (writer_of (E.written faults.old) (E.written faults.new) (E.broken faults.new)) }
{
    say(faults, "memory ran out", "", "");
    ExitStatus::Failed
}

// The bytes of a file; if there are none, the reason is reported.
pub fn bytes_of<D: Folder, E: Sink>(
    alloc: Global,
    folder: &D,
    faults: &mut E,
    path: &str,
    most: u32,
) -> Option<Vec<u8>>
    ensures kept { OnSome result (faults.new ≡ faults.old) }
    ensures bytes { IfSome result (λ v. IsFileIn (D.bytes_at folder.now path.now) v.items) }
    ensures told { result ≡ None → E.broken faults.old ≡ false → TellsFault (writer_of (E.written faults.old) (E.written faults.new) (E.broken faults.new)) }
{
    match read_file(alloc, folder, path, most) {
        Ok(bytes) => Some(bytes),
        Err(why) => {
            match format!(in alloc; "{why}") {
                Ok(why) => say(faults, path, " ", why.as_str()),
                Err(_) => say(faults, path, " ", "doesn't fit into memory"),
            }
            None
        }
    }
}

// The bytes of the image that a file of this name holds, which may be an ELF file: then they are those of its guest's image. If there are none,
// the reason is reported.
pub fn image_of_file<E: Sink>(
    alloc: Global,
    faults: &mut E,
    path: &str,
    file: Vec<u8>,
) -> Result<Vec<u8>, ExitStatus>
    ensures kept { OnOk result (faults.new ≡ faults.old) }
    ensures bytes { IfOk result (λ v. image_bytes file.items ≡ Ok v.items) }
    ensures status { IfErr result (λ answered. (answered ≡ exit.Failed) ⊎ ((answered ≡ exit.Refused) × IsNoGuest file.items)) }
    ensures told { OnErr result (E.broken faults.old ≡ false → TellsFault (writer_of (E.written faults.old) (E.written faults.new) (E.broken faults.new))) }
{
    match image_bytes(alloc, file) {
        Ok(bytes) => Ok(bytes),
        Err(ElfErr::Refused(why)) => {
            say(
                faults,
                path,
                ": this ELF file is no guest, because ",
                why.words(),
            );
            Err(ExitStatus::Refused)
        }
        Err(ElfErr::NoMem) => {
            say(faults, path, " ", "doesn't fit into memory");
            Err(ExitStatus::Failed)
        }
    }
}

// The bytes of the image in a file, in the same way.
pub fn image_in<D: Folder, E: Sink>(
    alloc: Global,
    folder: &D,
    faults: &mut E,
    path: &str,
) -> Result<Vec<u8>, ExitStatus>
    ensures kept { OnOk result (faults.new ≡ faults.old) }
    ensures bytes { IfOk result (λ v. IsImageIn (D.bytes_at folder.now path.now) v.items) }
    ensures status { IfErr result (IsStatusOfNone (D.bytes_at folder.now path.now)) }
    ensures told { OnErr result (E.broken faults.old ≡ false → TellsFault (writer_of (E.written faults.old) (E.written faults.new) (E.broken faults.new))) }
{
    match bytes_of(alloc, folder, faults, path, MOST_FILE_BYTES) {
        Some(file) => image_of_file(alloc, faults, path, file),
        None => Err(ExitStatus::Failed),
    }
}

// Says in words what the file of a refused image is, if its first bytes tell.
pub fn explain_image<D: Folder, E: Sink>(
    alloc: Global,
    folder: &D,
    path: &str,
    status: ExitStatus,
    faults: &mut E,
)
    ensures kept { status ≢ exit.Refused → faults.new ≡ faults.old }
    ensures grows { GoesOn (E.written faults.old) (E.written faults.new) }
{
    if status != ExitStatus::Refused {
        return;
    }
    let Ok(bytes) = read_file(alloc, folder, path, MOST_FILE_BYTES) else {
        return;
    };
    if bytes.starts_with(b"IRT") {
        say(faults, path, ": ", "this is a trace, and no image");
    }
}

// Whether the file that is read would be lost by writing to a path, which is reported.
pub fn is_lost<D: Folder, E: Sink>(
    folder: &D,
    faults: &mut E,
    would: &str,
    read: &str,
    written: &str,
) -> bool
    ensures kept { result ≡ false → faults.new ≡ faults.old }
    ensures told { result ≡ true → E.broken faults.old ≡ false → TellsFault (writer_of (E.written faults.old) (E.written faults.new) (E.broken faults.new)) }
{
    let is_lost = loses(
        written,
        folder.found_at(written),
        read,
        folder.found_at(read),
    );
    if is_lost {
        say(faults, written, ": ", would);
    }
    is_lost
}

// A path as it is shown in a line: one that would part the line, or lead a terminal, is called by what it is.
pub fn shown_path<'a>(path: &'a str, called: &'a str) -> &'a str {
    if path.chars().any(|c| c.is_control()) {
        called
    } else {
        path
    }
}

// Whether writing a file failed, which is told.
pub fn tells_failed<W: WholeSink, E: Sink>(file: &W, faults: &mut E) -> bool
    ensures failed { result ≡ W.broken file.now }
    ensures told { result ≡ true → IsTold (writer_of (E.written faults.old) (E.written faults.new) (E.broken faults.new)) }
    ensures kept { result ≡ false → faults.new ≡ faults.old }
    ensures stays { E.broken faults.old ≡ true → E.broken faults.new ≡ true }
{
    let has_failed = file.failed();
    if has_failed {
        say(faults, file.name(), " can't be written: ", file.why());
    }
    has_failed
}

// Says what failed of writing a file; the exit status.
pub fn told_of_file<W: WholeSink, E: Sink>(
    file: &W,
    status: ExitStatus,
    read: &str,
    faults: &mut E,
) -> ExitStatus
    ensures status { (result ≡ status) ⊎ (result ≡ exit.Failed) }
    ensures done { result ≡ exit.Done → status ≡ exit.Done }
    ensures refused { result ≡ exit.Refused → status ≡ exit.Refused }
    ensures failed { result ≡ exit.Failed → status ≢ exit.Failed → W.broken file.now ≡ true }
    ensures told { result ≡ exit.Failed → IsTold (writer_of (E.written faults.old) (E.written faults.new) (E.broken faults.new)) }
    ensures kept { result ≢ exit.Failed → faults.new ≡ faults.old }
    ensures stays { E.broken faults.old ≡ true → E.broken faults.new ≡ true }
{
    if tells_failed(file, faults) {
        return ExitStatus::Failed;
    }
    if status == ExitStatus::Failed {
        say(faults, read, ": ", "memory ran out");
    }
    status
}
