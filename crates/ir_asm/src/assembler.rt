//! The assembler.

ghost use Rattle.std.specs.Prelude.{◌≡◌, IfOk, Ok};
ghost use Rattle.std.specs.List.{AllByRecursion};
ghost use Rattle.ir_image.specs.Bounds.{IsByte, IsWord};
ghost use Rattle.ir_asm.specs.Forms.{stated};
ghost use Rattle.ir_asm.specs.Passes.{assembled_guest, assembled, labels_of};
ghost use Rattle.ir_asm.specs.Answered.{AnswersSource};
ghost use Rattle.ir_asm.specs.Bounds.{HaveFewWords, HasLimits};

use crate::asm_err::AsmErr;
use crate::cause::Cause;
use crate::first_pass::first_pass;
use crate::labels::Labels;
use crate::parts::Parts;
use crate::scan::Scan;
use crate::second_pass::second_pass;
use ir_image::{Code, Image};
use std::alloc::{AllocError, Global};

// Words fit their type.
fn are_words(words: &[u32])
    ensures { AllByRecursion IsWord words.now }
{}

// Bytes fit theirs.
fn are_bytes(bytes: &[u8])
    ensures { AllByRecursion IsByte bytes.now }
{}

// The image of parts that are within the limits.
fn image(alloc: Global, parts: Parts) -> Result<Image, AllocError>
    requires { HasLimits parts }
    ensures { IfOk result (λ i. i ≡ parts) }
{
    let Parts {
        form,
        entries,
        code,
        bytes,
        words,
    } = parts;
    are_words(code.as_slice());
    are_bytes(bytes.as_slice());
    are_words(words.as_slice());
    let code = Code::new(alloc, code)?;
    Ok(Image::new(form, entries, code, bytes, words))
}

// What was placed, and an entry where there is none.
fn parts_of(alloc: Global, scan: &Scan) -> Result<Parts, AsmErr>
    requires { HaveFewWords (stated scan.now.form) scan.now.placed }
    ensures { AnswersSource (λ p. p) result (assembled_guest scan.now) }
{
    let mut parts = Parts::new(alloc, scan.image_form(), scan.objects)?;
    second_pass(alloc, scan, scan.placed.as_slice(), &mut parts)?;
    parts.add_first_entry()?;
    Ok(parts)
}

/// What a source describes: an image, and where its labels are.
#[derive(Drop)]
pub struct Assembly {
    /// The image.
    pub image: Image,
    /// The labels with their places, in the order of their lines.
    pub labels: Labels,
}

/// The image that a source describes, and its labels.
///
/// # Errors
/// As of `assemble`.
pub fn assemble_with_labels(alloc: Global, source: &str) -> Result<Assembly, AsmErr>
    ensures image { AnswersSource (λ a. a.image) result (assembled source.now) }
    ensures labels { IfOk result (λ a. labels_of source.now ≡ Ok a.labels) }
{
    let mut scan = Scan::new(alloc);
    let line = first_pass(alloc, &mut scan, source.as_bytes())?;
    if !scan.has_code() {
        return Err(AsmErr::At {
            line,
            cause: Cause::BadSize,
        });
    }
    let parts = parts_of(alloc, &scan)?;
    let image = image(alloc, parts)?;
    let labels = scan.labels;
    Ok(Assembly { image, labels })
}

/// The image that a source describes.
///
/// A source is lines of labels, a statement and a comment each. The code begins at address 0x00010000 and the data at
/// 0x00100000; a source without `.thread` has one thread, at the start of its code. With `.large` before every other
/// statement the image is of the large form, else of the small one.
///
/// # Errors
/// The first fault: the line, counted from 1, and its cause. A first pass goes over the lines for what each line says
/// by itself, a second one for labels and objects; a source without code is at fault in the line after its last.
/// Or out of memory.
pub fn assemble(alloc: Global, source: &str) -> Result<Image, AsmErr>
    ensures { AnswersSource (λ i. i) result (assembled source.now) }
{
    match assemble_with_labels(alloc, source) {
        Ok(assembly) => Ok(assembly.image),
        Err(why) => Err(why),
    }
}
