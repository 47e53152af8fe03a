//! Files that gcc made.

use crate::files::{BANK_ELF, BANK_IMAGE, OVER_ELF, WIDE_ELF, WIDE_IMAGE};
use crate::programs::refusal;
use ir_elf::read_elf;
use ir_image::{ImageForm, read_image, write_image};
use std::alloc::Global;
use std::test::Fail;

// The file with other bits at a place.
fn flip(file: &mut [u8], place: usize, bits: u8) {
    if let Some(byte) = file.get_mut(place) {
        *byte ^= bits;
    }
}

// Whether the file is read as the image of its segments, which is read again.
fn is_made_so(alloc: Global, file: &str, image: &str) -> Result<bool, Fail> {
    let file = hex::decode(alloc, file)?;
    let want = hex::decode(alloc, image)?;
    let found = write_image(alloc, &read_elf(alloc, file.as_slice())?)?;
    let again = write_image(alloc, &read_image(alloc, found.as_slice())?)?;
    Ok(found.as_slice() == want.as_slice() && again.as_slice() == want.as_slice())
}

#[test]
fn a_program_of_two_threads_is_read(rt: HostRuntime) -> Result<(), Fail> {
    assert!(rt; is_made_so(rt.alloc(), BANK_ELF, BANK_IMAGE)?);
    Ok(())
}

#[test]
fn a_program_of_sixteen_threads_is_read(rt: HostRuntime) -> Result<(), Fail> {
    assert!(rt; is_made_so(rt.alloc(), WIDE_ELF, WIDE_IMAGE)?);
    Ok(())
}

// 536 bytes of code, and a table of two threads and an object.
#[test]
fn code_and_table_are_read(rt: HostRuntime) -> Result<(), Fail> {
    let file = hex::decode(rt.alloc(), OVER_ELF)?;
    let image = read_elf(rt.alloc(), file.as_slice())?;
    assert_eq!(rt; image.form(), ImageForm::Small);
    assert!(rt; matches!(image.entries(), [0x0001_0000, 0x0001_0074]));
    assert_eq!(rt; image.code().words().len(), 134);
    assert_eq!(rt; image.object_count(), 1);
    Ok(())
}

// A stack of 16,384 bytes, and then twenty that the file holds. Their last word is an address, 0x00104014.
#[test]
fn variables_are_read(rt: HostRuntime) -> Result<(), Fail> {
    let file = hex::decode(rt.alloc(), OVER_ELF)?;
    let image = read_elf(rt.alloc(), file.as_slice())?;
    let bytes = image.bytes();
    assert_eq!(rt; bytes.len(), 16_404);
    assert!(rt; bytes.iter().take(16_400).all(|byte| *byte == 0));
    assert!(rt; matches!(bytes.get(16_400..), Some([0x14, 0x40, 0x10, 0x00])));
    Ok(())
}

// Nothing after byte 672, where the table ends, is read.
#[test]
fn each_prefix_is_short(rt: HostRuntime) -> Result<(), Fail> {
    let file = hex::decode(rt.alloc(), BANK_ELF)?;
    for length in 0..file.len() {
        let want = if length < 672 { 1 } else { 0 };
        assert_eq!(rt; refusal(rt.alloc(), &file[..length]), want, "at {length}");
    }
    Ok(())
}

// A number or an image, for each byte of the headers and of the table that is changed.
#[test]
fn each_changed_byte_has_an_answer(rt: HostRuntime) -> Result<(), Fail> {
    let mut file = hex::decode(rt.alloc(), BANK_ELF)?;
    for place in (0..180).chain(624..672) {
        for bits in [1u8, 0xfe] {
            flip(file.as_mut_slice(), place, bits);
            assert!(rt; refusal(rt.alloc(), file.as_slice()) <= 14, "at {place}");
            flip(file.as_mut_slice(), place, bits);
        }
    }
    Ok(())
}
