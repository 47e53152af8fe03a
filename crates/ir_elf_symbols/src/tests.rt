//! The symbols of a small file, and of bytes that are none.

use crate::elf_symbols;
use std::alloc::{AllocError, Global};
use std::test::Fail;

// A file's header: the sections' headers at 52, of 40 bytes each, and three of them.
const HEADER: [u32; 13] = [
    0x464c_457f,
    0x0001_0101,
    0,
    0,
    0x00f3_0002,
    1,
    0x0001_0000,
    0,
    52,
    0,
    52,
    0x0028_0000,
    3,
];

// No section, the table of symbols, and the section of their names.
const SECTIONS: [u32; 30] = [
    0, 0, 0, 0, 0, 0, 0, 0, 0, 0, //
    0, 2, 0, 0, 172, 96, 2, 0, 4, 16, //
    0, 3, 0, 0, 268, 17, 0, 0, 1, 0,
];

// A function, a place in code, a label, a variable, a symbol of no section, and a file's name.
const SYMBOLS: [u32; 24] = [
    1,
    0x0001_0004,
    8,
    0x0001_0002, //
    6,
    0x0001_0000,
    0,
    0x0001_0000, //
    9,
    0x0001_0000,
    0,
    0x0001_0000, //
    13,
    0x0001_0000,
    4,
    0x0002_0001, //
    13,
    0x0001_0008,
    0,
    0x0000_0010, //
    1,
    0x0001_000c,
    0,
    0x0001_0004,
];

const NAMES: &[u8] = b"\0main\0$x\0.L1\0two\0";

fn put(file: &mut Vec<u8>, words: &[u32]) -> Result<(), AllocError> {
    for word in words {
        file.extend_from_slice(&word.to_le_bytes())?;
    }
    Ok(())
}

fn small_file(alloc: Global) -> Result<Vec<u8>, AllocError> {
    let mut file = Vec::new(alloc);
    put(&mut file, &HEADER)?;
    put(&mut file, &SECTIONS)?;
    put(&mut file, &SYMBOLS)?;
    file.extend_from_slice(NAMES)?;
    Ok(file)
}

#[test]
fn functions_and_variables_are_named(rt: HostRuntime) -> Result<(), Fail> {
    let file = small_file(rt.alloc())?;
    let table = elf_symbols(rt.alloc(), &file)?;
    let symbols = table.as_slice();
    assert_eq!(rt; symbols.len(), 2);
    assert_eq!(rt;
        (symbols[0].address(), symbols[0].kind(), symbols[0].name()),
        (0x0001_0000, 'D', "two")
    );
    assert_eq!(rt;
        (symbols[1].address(), symbols[1].kind(), symbols[1].name()),
        (0x0001_0004, 'T', "main")
    );
    Ok(())
}

#[test]
fn a_table_past_the_end_names_nothing(rt: HostRuntime) -> Result<(), Fail> {
    let mut file = small_file(rt.alloc())?;
    file.truncate(267);
    let cut = elf_symbols(rt.alloc(), &file)?;
    assert_eq!(rt; cut.as_slice().len(), 0);
    file.truncate(40);
    let none = elf_symbols(rt.alloc(), &file)?;
    assert_eq!(rt; none.as_slice().len(), 0);
    Ok(())
}
