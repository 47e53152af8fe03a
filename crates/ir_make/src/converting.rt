//! An ELF file in, the image of its guest or why there is none out.

ghost use Rattle.std.specs.Prelude.{◌≡◌, ◌⊎◌, ℕ, List, false, IfOk, Ok, Err, true};
ghost use Rattle.std.specs.Option.{option_map};
ghost use Rattle.std.specs.String.{string_bytes};
ghost use Rattle.std.specs.Io.KnownBytes.{Appends};
ghost use Rattle.ir_elf.specs.Refusal.{YieldsOrRefuses};
ghost use Rattle.ir_elf.specs.declared.refusal.Refusal.{Refusal};
ghost use Rattle.ir_files.specs.Writers.{writer_of, Failed};
ghost use Rattle.ir_files.specs.declared.exit_status.ExitStatus.TheVariants as status;
ghost use Rattle.ir_make.specs.Opening.{AreOfGuest};
ghost use Rattle.ir_make.specs.Converting.{elf_image_bytes, refusal_line, refusal_explained, refusal_report, StopsElf};

use crate::writing::{write_bytes, write_report};
use ir_elf::{ElfErr, Refusal, read_elf};
use ir_files::{ExitStatus, WholeSink};
use ir_image::{encoding_is_read, write_image};
use ir_stream::Sink;
use std::alloc::{AllocError, Global};

// The bytes of the image of the file's guest.
pub fn image_of(alloc: Global, file: &[u8]) -> Result<Vec<u8>, ElfErr>
    ensures bytes { YieldsOrRefuses (λ v. v.items) result (elf_image_bytes file.now) }
    ensures read { IfOk result (λ v. AreOfGuest file.now v.items) }
{
    let image = read_elf(alloc, file)?;
    image.form();
    encoding_is_read();
    Ok(write_image(alloc, &image)?)
}

fn refusal_line(alloc: Global, refusal: Refusal) -> Result<String, AllocError>
    ensures { IfOk result (λ s. string_bytes s ≡ refusal_line refusal) }
{
    let number = refusal.number();
    format!(in alloc; "elf refused {number}\n")
}

fn refusal_explained(alloc: Global, name: &str, refusal: Refusal) -> Result<String, AllocError>
    ensures { IfOk result (λ s. string_bytes s ≡ refusal_explained name.now refusal) }
{
    let words = refusal.words();
    format!(in alloc; "{name}: {words}\n")
}

// What reports a refusal.
fn refusal_report(
    alloc: Global,
    explained: Option<&str>,
    refusal: Refusal,
) -> Result<String, AllocError>
    ensures { IfOk result (λ s. string_bytes s ≡ refusal_report (option_map (λ s. s.now) explained.entry) refusal) }
{
    let mut report = refusal_line(alloc, refusal)?;
    if let Some(name) = explained {
        report.push_str(refusal_explained(alloc, name, refusal)?.as_str())?;
    }
    Ok(report)
}

// Writes the report of a refusal; the status.
fn tell_refusal<E: Sink>(
    alloc: Global,
    explained: Option<&str>,
    refusal: Refusal,
    faults: &mut E,
) -> ExitStatus
    ensures status { (result ≡ status.Failed) ⊎ (result ≡ status.Refused) }
    ensures reported { result ≡ status.Refused → Appends (E.written faults.old) (E.written faults.new) (refusal_report (option_map (λ s. s.now) explained.entry) refusal) }
    ensures failed { result ≡ status.Failed → (faults.new ≡ faults.old)
        ⊎ Failed (writer_of (E.written faults.old) (E.written faults.new) (E.broken faults.new)) (refusal_report (option_map (λ s. s.now) explained.entry) refusal) }
{
    match refusal_report(alloc, explained, refusal) {
        Ok(report) => write_report(faults, report.as_str()),
        Err(_) => ExitStatus::Failed,
    }
}

/// Makes a guest of an ELF file: writes its image, which is in its place then, or reports why there is none as a line `elf refused N`, with the number of
/// the refusal. If the file is named, to have a refusal explained, a second line has that name and the refusal in words. The
/// exit status is `Done` if all of the image was written; `Refused` if the file is no guest, which was reported and nothing
/// written; `Failed` if memory ran out, with nothing written, or a writer failed.
pub fn elf_run<W: WholeSink, E: Sink>(
    alloc: Global,
    file: &[u8],
    explained: Option<&str>,
    image: &mut W,
    faults: &mut E,
) -> ExitStatus
    requires writes { W.broken image.old ≡ false }
    requires reports { E.broken faults.old ≡ false }
    ensures status { (result ≡ status.Done) ⊎ (result ≡ status.Failed) ⊎ (result ≡ status.Refused) }
    // The image was written, and nothing reported.
    ensures done { result ≡ status.Done → (bytes : List ℕ) × (elf_image_bytes file.now ≡ Ok bytes) × Appends (W.written image.old) (W.written image.new) bytes × (faults.new ≡ faults.old) }
    ensures whole { result ≡ status.Done → W.whole image.new ≡ true }
    ensures home { W.home image.new ≡ W.home image.old }
    // The first test that fails was reported.
    ensures refused { result ≡ status.Refused → (refusal : Refusal) × (elf_image_bytes file.now ≡ Err refusal)
        × Appends (E.written faults.old) (E.written faults.new) (refusal_report (option_map (λ s. s.now) explained.entry) refusal) }
    // Of a file that is no guest nothing is written.
    ensures unwritten { (refusal : Refusal) → elf_image_bytes file.now ≡ Err refusal → image.new ≡ image.old }
    // Memory ran out and nothing was written or reported, or a writer failed in what it was to take.
    ensures stopped { result ≡ status.Failed → StopsElf (option_map (λ s. s.now) explained.entry) file.now
        (writer_of (W.written image.old) (W.written image.new) (W.broken image.new)) (image.new ≡ image.old)
        (writer_of (E.written faults.old) (E.written faults.new) (E.broken faults.new)) (faults.new ≡ faults.old) }
{
    match image_of(alloc, file) {
        Ok(bytes) => write_bytes(image, bytes.as_slice()),
        Err(ElfErr::Refused(refusal)) => tell_refusal(alloc, explained, refusal, faults),
        Err(ElfErr::NoMem) => ExitStatus::Failed,
    }
}
