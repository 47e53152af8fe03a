//! Small ELF files, put together header by header.

use ir_elf::{ElfErr, read_elf};
use std::alloc::{AllocError, Global};

/// A program header: kind, place, address, physical address, bytes in the file, bytes in memory, flags, alignment.
pub type Header = [u32; 8];

/// Where the program headers begin.
pub const HEADERS: usize = 72;

/// Eight bytes of code.
pub const CODE: Header = [1, 52, 0x0001_0000, 0, 8, 8, 5, 4];

/// The table of one thread and no object.
pub const TABLE: Header = [1, 60, 0x0020_0000, 0, 12, 12, 4, 4];

/// Private memory of which the file holds nothing.
pub const MEMORY: Header = [1, 52, 0x0010_0000, 0, 0, 8, 6, 4];

// The header of the file up to the number of program headers.
const START: [u8; 44] = [
    0x7f, 0x45, 0x4c, 0x46, 1, 1, 1, 0, 0, 0, 0, 0, 0, 0, 0, 0, 2, 0, 243, 0, 1, 0, 0, 0, 0, 0, 0,
    0, 72, 0, 0, 0, 0, 0, 0, 0, 0, 0, 0, 0, 52, 0, 32, 0,
];

// `addi a7, zero, 1`, `ecall`; then the table: its form, one thread, and its entry.
const CONTENT: [u8; 20] = [
    0x93, 0x08, 0x10, 0x00, 0x73, 0x00, 0x00, 0x00, 1, 0, 0, 0, 1, 0, 0, 0, 0, 0, 1, 0,
];

/// A file of these program headers, 64 at most, and `more` bytes of 0 after them.
pub fn file(alloc: Global, headers: &[Header], more: usize) -> Result<Vec<u8>, AllocError> {
    let mut bytes = Vec::new(alloc);
    bytes.extend_from_slice(&START)?;
    bytes.extend_from_slice(&[headers.len().min(64) as u8, 0, 0, 0, 0, 0, 0, 0])?;
    bytes.extend_from_slice(&CONTENT)?;
    for header in headers {
        for word in header {
            bytes.extend_from_slice(&word.to_le_bytes())?;
        }
    }
    let zeros = vec![in alloc; 0u8; more]?;
    bytes.extend_from_slice(zeros.as_slice())?;
    Ok(bytes)
}

/// The number of the refusal, 0 if the file is read, or 255 where memory runs out.
pub fn refusal(alloc: Global, file: &[u8]) -> u8 {
    match read_elf(alloc, file) {
        Ok(_) => 0,
        Err(ElfErr::Refused(refusal)) => refusal.number(),
        Err(ElfErr::NoMem) => 255,
    }
}

/// The file with other bytes at a place.
pub fn put(file: &mut [u8], place: usize, bytes: &[u8]) {
    for (i, byte) in bytes.iter().enumerate() {
        if let Some(old) = file.get_mut(place.saturating_add(i)) {
            *old = *byte;
        }
    }
}
