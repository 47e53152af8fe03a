//! Making a guest of an ELF file.

ghost use Rattle.std.specs.Prelude.{◌≡◌, ◌≤◌, ◌*◌, length, map, IfOk};
ghost use Rattle.std.specs.List.{AllByRecursion};
ghost use Rattle.ir_image.specs.Guest.{most_code_words, memory_size};
ghost use Rattle.ir_image.specs.Bounds.{IsByte, IsWord};
ghost use Rattle.ir_elf.specs.Refusal.{YieldsOrRefuses};
ghost use Rattle.ir_elf.specs.Segments.{seen};
ghost use Rattle.ir_elf.specs.Reading.{code_memory, code_words, data_bytes, guest_of, elf_guest_at, own_bytes, own_bytes_at};

use crate::elf_err::ElfErr;
use crate::memory::{bytes_of_part, held_of_part, memory_of, size_of_part, table_of, words_of};
use crate::part::Part;
use crate::refusal::Refusal;
use crate::segment::Segment;
use crate::segments::segments;
use crate::table::{TableParts, table};
use ir_image::{Code, Image, ImageForm};
use std::alloc::Global;

// The form, entries, code, data and the objects' first words.
#[derive(Drop)]
struct Parts {
    form: ImageForm,
    entries: Vec<u32>,
    code: Vec<u32>,
    bytes: Vec<u8>,
    words: Vec<u32>,
}

// Words fit their type.
fn are_words(words: &[u32])
    ensures { AllByRecursion IsWord words.now }
{}

// Bytes fit theirs.
fn are_bytes(bytes: &[u8])
    ensures { AllByRecursion IsByte bytes.now }
{}

// The parts of the guest of segments.
#[tactic(auto, unfolding(crate::specs::Reading::guest_of))]
fn parts_of(alloc: Global, segments: &[Segment<'_>]) -> Result<Parts, ElfErr>
    ensures exact { YieldsOrRefuses
        (λ p. record { form = p.form; entries = p.entries.items; code = p.code.items; bytes = p.bytes.items; words = p.words.items }) result
        (guest_of (map seen segments.now)) }
    ensures short_code { IfOk result (λ _. code_words (map seen segments.now) ≤ most_code_words) }
    ensures short_data { IfOk result (λ _. data_bytes (map seen segments.now) ≤ memory_size) }
    ensures whole { IfOk result (λ _. length (code_memory (map seen segments.now)) ≡ 4 * most_code_words) }
{
    let code_words = size_of_part(Part::Code, segments).div_ceil(4);
    if code_words == 0 {
        return Err(ElfErr::Refused(Refusal::NoCode));
    }
    let Some(own) = table_of(segments) else {
        return Err(ElfErr::Refused(Refusal::NoTable));
    };
    let TableParts {
        form,
        entries,
        words,
    } = table(alloc, code_words, own)?;
    let code = memory_of(alloc, Part::Code, segments)?;
    let code = words_of(alloc, &code[..4 * code_words as usize])?;
    let mut bytes = memory_of(alloc, Part::Memory, segments)?;
    bytes.truncate(held_of_part(Part::Memory, segments) as usize);
    Ok(Parts {
        form,
        entries,
        code,
        bytes,
        words,
    })
}

// The image of the guest of segments.
fn image_of(alloc: Global, segments: &[Segment<'_>]) -> Result<Image, ElfErr>
    ensures { YieldsOrRefuses (λ i. i) result (guest_of (map seen segments.now)) }
{
    let Parts {
        form,
        entries,
        code,
        bytes,
        words,
    } = parts_of(alloc, segments)?;
    are_words(code.as_slice());
    are_bytes(bytes.as_slice());
    are_words(words.as_slice());
    let code = Code::new(alloc, code)?;
    Ok(Image::new(form, entries, code, bytes, words))
}

/// The guest of an ELF file, as an image.
///
/// Segments are read into the code from address 0x00010000, each thread's private memory from 0x00100000, and the table of
/// threads and objects at 0x00200000. Memory is taken only for these, so it doesn't grow with the file.
///
/// # Errors
/// The first test that fails: fields are read from the left, each whole and then tested; then the program headers, each
/// in turn; then the table. Or out of memory.
#[tactic(auto, unfolding(crate::specs::Reading::elf_guest_at))]
pub fn read_elf(alloc: Global, file: &[u8]) -> Result<Image, ElfErr>
    ensures { YieldsOrRefuses (λ image. image) result (elf_guest_at file.now) }
{
    let segments = segments(alloc, file)?;
    image_of(alloc, segments.as_slice())
}

/// How many bytes of variables each thread of the guest of an ELF file has for itself, the stack apart.
///
/// # Errors
/// As of `read_elf`, for the segments; or out of memory.
#[tactic(auto, unfolding(crate::specs::Reading::own_bytes_at))]
pub fn own_bytes(alloc: Global, file: &[u8]) -> Result<u32, ElfErr>
    ensures { YieldsOrRefuses (λ n. n) result (own_bytes_at file.now) }
{
    let segments = segments(alloc, file)?;
    Ok(bytes_of_part(Part::Memory, segments.as_slice()))
}
