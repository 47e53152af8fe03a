//! The reader of images.

ghost use Rattle.std.specs.Prelude.{◌≡◌, List, ℕ, length, IfOk, Ok, ◌<◌, ◌≤◌};
ghost use Rattle.ir_image.specs.Guest.{Guest, most_code_words, form_at, counts_at, body_at, guest_at};
ghost use Rattle.ir_image.specs.Bounds.{IsGuest};
ghost use Rattle.ir_image.specs.Fields.{entry_at, word_at};
ghost use Rattle.ir_image.specs.Encoding.{encoding};
ghost use Rattle.ir_bytes.specs.Reading.{bytes_at, fields_at};
ghost use Rattle.ir_image.specs.declared.image_err.ImageErr.TheVariants.{Short};
ghost use Rattle.ir_image.specs.Results.{YieldsImage};

use crate::code::Code;
use crate::counts::Counts;
use crate::form::ImageForm;
use crate::image::Image;
use crate::image_err::ImageErr;
use crate::layout::{CODE_START, MEMORY_SIZE, MOST_CODE_WORDS};
use byteorder::{ByteOrder, LittleEndian};
use ir_bytes::{byte_within, word, word_within};
use std::alloc::Global;

// What follows the counts of an image.
#[derive(Drop)]
struct Parts {
    entries: Vec<u32>,
    code: Vec<u32>,
    bytes: Vec<u8>,
    words: Vec<u32>,
}

// The form that the magic names.
#[tactic(auto, unfolding(crate::specs::Guest::form_at, ir_bytes::specs::Reading::field_at))]
fn form(bytes: &[u8]) -> Result<(ImageForm, &[u8]), ImageErr>
    ensures { YieldsImage (λ x. (x.0, x.1.now)) result (form_at bytes.now) }
{
    let (magic, rest) = word(bytes, ImageErr::Short)?;
    let form = ImageForm::of_magic(magic);
    if magic == form.magic() {
        Ok((form, rest))
    } else {
        Err(ImageErr::Magic)
    }
}

#[tactic(auto, unfolding(crate::specs::Guest::counts_at))]
fn counts(bytes: &[u8]) -> Result<(Counts, &[u8]), ImageErr>
    ensures exact { YieldsImage (λ x. (x.0, x.1.now)) result (counts_at bytes.now) }
    ensures short_code { IfOk result (λ x. x.0.words ≤ most_code_words) }
{
    let (form, rest) = form(bytes)?;
    let limits = form.limits();
    let (threads, rest) = byte_within(1, limits.threads, rest, ImageErr::Short, ImageErr::Count)?;
    let (objects, rest) = byte_within(0, limits.objects, rest, ImageErr::Short, ImageErr::Count)?;
    let (words, rest) = word_within(MOST_CODE_WORDS, rest, ImageErr::Short, ImageErr::Count)?;
    let (bytes, rest) = word_within(MEMORY_SIZE, rest, ImageErr::Short, ImageErr::Count)?;
    Ok((
        Counts {
            form,
            threads,
            objects,
            words,
            bytes,
        },
        rest,
    ))
}

#[tactic(auto, unfolding(ir_bytes::specs::Reading::field_at))]
fn entry(words: u32, bytes: &[u8]) -> Result<(u32, &[u8]), ImageErr>
    requires { words ≤ most_code_words }
    ensures { YieldsImage (λ x. (x.0, x.1.now)) result (entry_at words bytes.now) }
{
    let (entry, rest) = word(bytes, ImageErr::Short)?;
    if entry % 4 == 0 && entry >= CODE_START && entry < CODE_START + 4 * words {
        Ok((entry, rest))
    } else {
        Err(ImageErr::Entry)
    }
}

fn entries(
    alloc: Global,
    count: u8,
    words: u32,
    bytes: &[u8],
) -> Result<(Vec<u32>, &[u8]), ImageErr>
    requires { words ≤ most_code_words }
    ensures { YieldsImage (λ x. (x.0.items, x.1.now)) result (fields_at (entry_at words) count bytes.now) }
{
    let mut entries = Vec::new(alloc);
    let mut rest = bytes;
    for _ in 0..count {
        let (one, after) = entry(words, rest)?;
        entries.push(one)?;
        rest = after;
    }
    Ok((entries, rest))
}

// Room is taken once the words are known to be there.
fn words(alloc: Global, count: usize, bytes: &[u8]) -> Result<(Vec<u32>, &[u8]), ImageErr>
    requires { count ≤ most_code_words }
    ensures { YieldsImage (λ x. (x.0.items, x.1.now)) result (fields_at word_at count bytes.now) }
{
    let (own, rest) = ir_bytes::bytes(4 * count, bytes, ImageErr::Short)?;
    let mut words = vec![in alloc; 0u32; count]?;
    LittleEndian::read_u32_into(own, &mut words);
    Ok((words, rest))
}

fn data_bytes(alloc: Global, count: usize, bytes: &[u8]) -> Result<(Vec<u8>, &[u8]), ImageErr>
    ensures { YieldsImage (λ x. (x.0.items, x.1.now)) result (bytes_at Short count bytes.now) }
{
    let (own, rest) = ir_bytes::bytes(count, bytes, ImageErr::Short)?;
    let mut data = Vec::with_capacity(alloc, count)?;
    data.extend_from_slice(own)?;
    Ok((data, rest))
}

#[tactic(auto, unfolding(crate::specs::Guest::body_at))]
fn body(alloc: Global, counts: Counts, bytes: &[u8]) -> Result<Parts, ImageErr>
    requires { counts.words ≤ most_code_words }
    ensures { YieldsImage (λ p. record { form = counts.form; entries = p.entries.items; code = p.code.items; bytes = p.bytes.items; words = p.words.items }) result (body_at counts bytes.now) }
{
    let (entries, rest) = entries(alloc, counts.threads, counts.words, bytes)?;
    let (code, rest) = words(alloc, counts.words as usize, rest)?;
    let (bytes, rest) = data_bytes(alloc, counts.bytes as usize, rest)?;
    let (words, rest) = words(alloc, counts.form.words_of(counts.objects as u32), rest)?;
    if !rest.is_empty() {
        return Err(ImageErr::Trailing);
    }
    Ok(Parts {
        entries,
        code,
        bytes,
        words,
    })
}

#[tactic(auto, unfolding(crate::specs::Guest::guest_at))]
fn image(alloc: Global, bytes: &[u8]) -> Result<Image, ImageErr>
    ensures found { IfOk result (λ image. IsGuest image × (bytes.now ≡ encoding image)) }
    ensures exact { YieldsImage (λ image. image) result (guest_at bytes.now) }
{
    let (counts, rest) = counts(bytes)?;
    let Parts {
        entries,
        code,
        bytes,
        words,
    } = body(alloc, counts, rest)?;
    let code = Code::new(alloc, code)?;
    Ok(Image::new(counts.form, entries, code, bytes, words))
}

/// The image that the bytes encode, all of the bytes. Numbers are little-endian, and memory is taken only for what the bytes hold.
///
/// # Errors
/// The first fault from the left, each field being read whole and then tested; or out of memory.
pub fn read_image(alloc: Global, bytes: &[u8]) -> Result<Image, ImageErr>
    // What is read is a guest within its limits, and encoded so.
    ensures found { IfOk result (λ image. IsGuest image × (bytes.now ≡ encoding image)) }
    // What is encoded so is read, unless memory runs out.
    ensures only { (g : Guest) → IsGuest g → bytes.now ≡ encoding g → YieldsImage (λ image. image) result (Ok g) }
    // Which fault it is.
    ensures exact { YieldsImage (λ image. image) result (guest_at bytes.now) }
{
    image(alloc, bytes)
}
