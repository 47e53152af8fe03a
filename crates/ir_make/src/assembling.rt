//! A source in, its image and its labels or its first fault out.

ghost use Rattle.std.specs.Prelude.{◌≡◌, ◌⊎◌, ◌<◌, ℕ, List, false, true, map, IfOk, IfErr, OnOk, Ok, Err};
ghost use Rattle.std.specs.List.{All};
ghost use Rattle.std.specs.Option.{option_map};
ghost use Rattle.std.specs.String.{string_bytes};
ghost use Rattle.std.specs.Io.KnownBytes.{Appends};
ghost use Rattle.ir_asm.specs.Answered.{AnswersSource};
ghost use Rattle.ir_asm.specs.Source.{Fault};
ghost use Rattle.ir_asm.specs.Passes.{assembled, labels_of};
ghost use Rattle.ir_make.specs.Assembling.{masked, spelled, image_bytes, report, StopsAssembling};
ghost use Rattle.ir_make.specs.Mapping.{IsNamed};
ghost use Rattle.ir_files.specs.Writers.{writer_of, Failed};
ghost use Rattle.ir_files.specs.declared.exit_status.ExitStatus.TheVariants as status;

use crate::reporting::report;
use crate::writing::{write_bytes, write_report};
use ir_asm::{AsmErr, Assembly, Cause, Labels, assemble_with_labels};
use ir_files::{ExitStatus, WholeSink};
use ir_image::write_image;
use ir_stream::Sink;
use std::alloc::{AllocError, Global};

fn masked(byte: u8) -> u8
    ensures exact { result ≡ masked byte }
    ensures ascii { result < 128 }
{
    if byte > 0x7e { 1 } else { byte }
}

// The source as text, bytes that it may not hold among it.
fn text_of(alloc: Global, source: &[u8]) -> Result<String, AllocError>
    ensures { IfOk result (λ s. string_bytes s ≡ map masked source.now) }
{
    let mut text = String::with_capacity(alloc, source.len())?;
    for byte in source {
        text.push(masked(*byte) as char)?;
    }
    Ok(text)
}

// The bytes of the image of a text, and its labels.
#[tactic(auto, using(crate::proofs::LabelNames::source_labels_are_named))]
fn assembly_of(alloc: Global, text: &str) -> Result<(Vec<u8>, Labels), AsmErr>
    ensures image { AnswersSource (λ a. a.0.items) result (spelled (assembled text.now)) }
    ensures labels { IfOk result (λ a. labels_of text.now ≡ Ok a.1) }
    ensures named { IfOk result (λ a. All IsNamed a.1) }
{
    let Assembly { image, labels } = assemble_with_labels(alloc, text)?;
    Ok((write_image(alloc, &image)?, labels))
}

// Writes the report of a fault; the status.
fn tell_place<E: Sink>(
    alloc: Global,
    explained: Option<&str>,
    text: &str,
    line: usize,
    cause: Cause,
    faults: &mut E,
) -> ExitStatus
    requires { E.broken faults.old ≡ false }
    ensures status { (result ≡ status.Failed) ⊎ (result ≡ status.Refused) }
    ensures reported { result ≡ status.Refused
        → Appends (E.written faults.old) (E.written faults.new)
        (report (option_map (λ s. s.now) explained.entry) text.now (record { line = line; cause = cause })) }
    ensures failed { result ≡ status.Failed → (faults.new ≡ faults.old)
        ⊎ Failed (writer_of (E.written faults.old) (E.written faults.new) (E.broken faults.new)) (report (option_map (λ s. s.now) explained.entry) text.now (record { line = line; cause = cause })) }
{
    match report(alloc, explained, text, line, cause) {
        Ok(report) => write_report(faults, report.as_str()),
        Err(_) => ExitStatus::Failed,
    }
}

/// Assembles a source: writes its image, which is in its place then, and hands back its labels, or reports its first fault as a line `line L error C`. If
/// the source's file is named, to have a fault explained, a second line has that name, the line's number, the cause in words
/// and the line's text. A byte of the source above 0x7E counts as the byte 1.
///
/// # Errors
/// The exit status: `Refused` if the source has a fault, which was reported and nothing written; `Failed` if memory ran out,
/// with nothing written, or a writer failed.
pub fn asm_run<W: WholeSink, E: Sink>(
    alloc: Global,
    source: &[u8],
    explained: Option<&str>,
    image: &mut W,
    faults: &mut E,
) -> Result<Labels, ExitStatus>
    requires writes { W.broken image.old ≡ false }
    requires reports { E.broken faults.old ≡ false }
    ensures status { IfErr result (λ e. (e ≡ status.Failed) ⊎ (e ≡ status.Refused)) }
    // The image was written, and no fault reported.
    ensures done { IfOk result (λ _. (bytes : List ℕ) × (image_bytes source.now ≡ Ok bytes) × Appends (W.written image.old) (W.written image.new) bytes × (faults.new ≡ faults.old)) }
    ensures whole { OnOk result (W.whole image.new ≡ true) }
    ensures home { W.home image.new ≡ W.home image.old }
    ensures labels { IfOk result (λ labels. labels_of (map masked source.now) ≡ Ok labels) }
    ensures named { IfOk result (λ labels. All IsNamed labels) }
    // The first fault was reported.
    ensures refused { IfErr result (λ e. e ≡ status.Refused → (fault : Fault) × (image_bytes source.now ≡ Err fault)
        × Appends (E.written faults.old) (E.written faults.new) (report (option_map (λ s. s.now) explained.entry) (map masked source.now) fault)) }
    // Of a source with a fault nothing is written.
    ensures unwritten { (fault : Fault) → image_bytes source.now ≡ Err fault → image.new ≡ image.old }
    // Memory ran out and nothing was written or reported, or a writer failed in what it was to take.
    ensures stopped { IfErr result (λ e. e ≡ status.Failed → StopsAssembling (option_map (λ s. s.now) explained.entry) source.now
        (writer_of (W.written image.old) (W.written image.new) (W.broken image.new)) (image.new ≡ image.old)
        (writer_of (E.written faults.old) (E.written faults.new) (E.broken faults.new)) (faults.new ≡ faults.old)) }
{
    let Ok(text) = text_of(alloc, source) else {
        return Err(ExitStatus::Failed);
    };
    match assembly_of(alloc, text.as_str()) {
        Ok((bytes, labels)) => match write_bytes(image, bytes.as_slice()) {
            ExitStatus::Done => Ok(labels),
            status => Err(status),
        },
        Err(AsmErr::At { line, cause }) => {
            Err(tell_place(alloc, explained, text.as_str(), line, cause, faults))
        }
        Err(AsmErr::NoMem) => Err(ExitStatus::Failed),
    }
}
