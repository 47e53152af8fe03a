//! The image in a file that is one, or an ELF file.

ghost use Rattle.std.specs.Prelude.{◌≡◌, true, IfOk};
ghost use Rattle.ir_elf.specs.Refusal.{YieldsOrRefuses};
ghost use Rattle.ir_make.specs.Opening.{is_elf, image_bytes, AreOfGuest};

use crate::converting::image_of;
use ir_elf::ElfErr;
use std::alloc::Global;

/// Whether a file begins as an ELF file does: with 7F, and the letters ELF.
pub fn is_elf(file: &[u8]) -> bool
    ensures { result ≡ is_elf file.now }
{
    file.starts_with(b"\x7FELF")
}

/// The bytes of the image in a file: of an ELF file, which begins with 7F and the letters ELF, the image of its guest as `elf_run` writes it,
/// else the file's own bytes, whether they are an image or not.
///
/// # Errors
/// The ELF file is no guest, or out of memory.
pub fn image_bytes(alloc: Global, file: Vec<u8>) -> Result<Vec<u8>, ElfErr>
    ensures bytes { YieldsOrRefuses (λ v. v.items) result (image_bytes file.items) }
    // Of an ELF file they are read as its guest.
    ensures read { is_elf file.items ≡ true → IfOk result (λ v. AreOfGuest file.items v.items) }
{
    if is_elf(&file) {
        image_of(alloc, &file)
    } else {
        Ok(file)
    }
}
