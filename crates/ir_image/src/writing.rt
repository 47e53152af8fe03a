//! The writer of images.

ghost use Rattle.std.specs.Prelude.{◌≡◌, ◌++◌, length, IfOk, OnOk};
ghost use Rattle.byteorder.specs.Endian.{little_bytes};
ghost use Rattle.ir_image.specs.Encoding.{words_encoding, encoding};

use crate::image::Image;
use crate::layout::COUNTS_LENGTH;
use byteorder::{ByteOrder, LittleEndian};
use std::alloc::{AllocError, Global};

fn put_word(out: &mut Vec<u8>, word: u32) -> Result<(), AllocError>
    ensures { OnOk result (out.new.items ≡ out.old.items ++ little_bytes 4 word) }
{
    let mut bytes = [0; 4];
    LittleEndian::write_u32(&mut bytes, word);
    out.extend_from_slice(&bytes)
}

fn put_words(out: &mut Vec<u8>, words: &[u32]) -> Result<(), AllocError>
    ensures { OnOk result (out.new.items ≡ out.old.items ++ words_encoding words.now) }
{
    for word in words {
        put_word(out, *word)?;
    }
    Ok(())
}

/// The one encoding of the image, in its form.
///
/// # Errors
/// Out of memory.
#[tactic(auto, using(crate::proofs::Fields::bytes_of_magic_number, crate::proofs::Forms::guest_threads_within))]
pub fn write_image(alloc: Global, image: &Image) -> Result<Vec<u8>, AllocError>
    ensures { IfOk result (λ v. v.items ≡ encoding image.now) }
{
    let entries = image.entries();
    let code = image.code().words();
    let bytes = image.bytes();
    let words = image.words();
    let length = COUNTS_LENGTH + 4 * (entries.len() + code.len() + words.len()) + bytes.len();
    let mut out = Vec::with_capacity(alloc, length)?;
    put_word(&mut out, image.form().magic())?;
    out.push(entries.len() as u8)?;
    out.push(image.object_count() as u8)?;
    put_word(&mut out, code.len() as u32)?;
    put_word(&mut out, bytes.len() as u32)?;
    put_words(&mut out, entries)?;
    put_words(&mut out, code)?;
    out.extend_from_slice(bytes)?;
    put_words(&mut out, words)?;
    Ok(out)
}
