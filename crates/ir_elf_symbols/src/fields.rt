//! Numbers and sections of an ELF file of 32 bits, little-endian.

ghost use Rattle.std.specs.Prelude.{◌≡◌, ◌<◌, ◌≤◌, ◌+◌, ◌^◌, None};
ghost use Rattle.ir_elf_symbols.specs.Sections.{section_byte, half_at, section_word, section_at, section_count, if_table, first_table, symbol_table};

use crate::section::Section;

// The kind of a section that is a table of symbols, and the size of a section's header.
const SYMBOLS: u32 = 2;

const HEADER: usize = 40;

/// The byte at a place; 0 past the end.
pub fn byte_at(file: &[u8], place: usize) -> u8
    ensures { result ≡ section_byte file.now place }
{
    match file.get(place) {
        Some(byte) => *byte,
        None => 0,
    }
}

/// The number that the two bytes at a place encode.
pub fn half_at(file: &[u8], place: usize) -> u32
    requires { place < 2 ^ 40 }
    ensures value { result ≡ half_at file.now place }
    ensures fits { result < 2 ^ 16 }
{
    let (low, high) = (byte_at(file, place), byte_at(file, place + 1));
    low as u32 + 256 * high as u32
}

/// The number that the four bytes at a place encode.
pub fn word_at(file: &[u8], place: usize) -> u32
    requires { place < 2 ^ 39 }
    ensures { result ≡ section_word file.now place }
{
    let (low, high) = (half_at(file, place), half_at(file, place + 2));
    low + 65536 * high
}

/// The section of a number.
pub fn section_at(file: &[u8], number: u32) -> Section
    ensures { result ≡ section_at file.now number }
{
    let header = word_at(file, 32) as usize + HEADER * number as usize;
    Section {
        kind: word_at(file, header + 4),
        place: word_at(file, header + 16),
        size: word_at(file, header + 20),
        link: word_at(file, header + 24),
    }
}

// How many sections there are.
fn section_count(file: &[u8]) -> u32
    ensures { result ≡ section_count file.now }
{
    if half_at(file, 46) == 40 {
        half_at(file, 48)
    } else {
        0
    }
}

// The section, if it is a table of symbols.
fn if_table(section: Section) -> Option<Section>
    ensures { result ≡ if_table section }
{
    if section.kind == SYMBOLS {
        Some(section)
    } else {
        None
    }
}

/// The table of the file's symbols, the first if there are several.
#[tactic(auto, unfolding(crate::specs::Sections::first_table))]
pub fn symbol_table(file: &[u8]) -> Option<Section>
    ensures { result ≡ symbol_table file.now }
{
    let mut found = None;
    for number in 0..section_count(file) {
        if found.is_none() {
            found = if_table(section_at(file, number));
        }
    }
    found
}
