//! Each refusal, at its limit and one beyond.

use crate::programs::{CODE, HEADERS, Header, MEMORY, TABLE, file, put, refusal};
use ir_elf::{ElfErr, Refusal, read_elf};
use std::alloc::{AllocError, Global};
use std::test::Fail;

const LENGTH: usize = 4;

const SIZE: usize = 5;

const ADDRESS: usize = 2;

// The header with another word at a place.
fn with(header: Header, place: usize, word: u32) -> Header {
    let mut header = header;
    if let Some(old) = header.get_mut(place) {
        *old = word;
    }
    header
}

// The refusal of a file of these headers, with enough bytes for any table.
fn of_headers(alloc: Global, headers: &[Header]) -> Result<u8, AllocError> {
    let bytes = file(alloc, headers, 4_400)?;
    Ok(refusal(alloc, bytes.as_slice()))
}

// The refusal of a file of code and table with other bytes at a place.
fn changed(alloc: Global, place: usize, bytes: &[u8]) -> Result<u8, AllocError> {
    let mut file = file(alloc, &[CODE, TABLE], 0)?;
    put(file.as_mut_slice(), place, bytes);
    Ok(refusal(alloc, file.as_slice()))
}

// The refusal of a table with these words, each of four bytes, and `more` bytes of 0 after them.
fn of_table(alloc: Global, words: &[u32], more: u32) -> Result<u8, AllocError> {
    let length = 4 * words.len().min(20) as u32 + more.min(5_000);
    let place = HEADERS as u32 + 64;
    let table = [1, place, 0x0020_0000, 0, length, length, 4, 4];
    let mut file = file(alloc, &[CODE, table], length as usize)?;
    for (i, word) in words.iter().enumerate() {
        put(
            file.as_mut_slice(),
            HEADERS
                .saturating_add(64)
                .saturating_add(i.saturating_mul(4)),
            &word.to_le_bytes(),
        );
    }
    Ok(refusal(alloc, file.as_slice()))
}

// A place in the header of the file, the byte that is put there, and the refusal.
const FAULTS: [(usize, u8, u8); 26] = [
    (0, 0x7e, 2),
    (3, 0x66, 2),
    (4, 2, 3), // 64 bits
    (5, 2, 3), // big-endian
    (6, 0, 3),
    (7, 1, 0), // not read
    (15, 1, 0),
    (16, 1, 4), // not linked
    (16, 3, 4), // to be placed by a loader
    (17, 1, 4),
    (18, 62, 4), // another machine
    (19, 1, 4),
    (20, 2, 4),
    (23, 1, 4),
    (24, 1, 0), // not read
    (32, 1, 0),
    (36, 1, 5), // compressed instructions
    (36, 2, 5), // floating-point registers
    (36, 8, 5), // RV32E
    (39, 1, 5),
    (40, 1, 0), // not read
    (42, 31, 6),
    (42, 33, 6),
    (44, 0, 6),
    (44, 65, 6),
    (44, 64, 1), // as many as there may be, and not there
];

#[test]
fn a_fault_of_the_header_is_named(rt: HostRuntime) -> Result<(), Fail> {
    for &(place, byte, want) in &FAULTS {
        assert_eq!(rt;
            changed(rt.alloc(), place, &[byte])?,
            want,
            "{byte} at {place}"
        );
    }
    Ok(())
}

#[test]
fn headers_are_whole(rt: HostRuntime) -> Result<(), Fail> {
    let alloc = rt.alloc();
    assert_eq!(rt; changed(alloc, 28, &73u32.to_le_bytes())?, 1);
    assert_eq!(rt; changed(alloc, 28, &u32::MAX.to_le_bytes())?, 1);
    // All are whole before the first is tested.
    assert_eq!(rt; changed(alloc, HEADERS, &[2])?, 7);
    assert_eq!(rt; changed(alloc, 44, &[3])?, 1);
    Ok(())
}

#[test]
fn sixty_four_headers_are_read(rt: HostRuntime) -> Result<(), Fail> {
    let mut headers = [[0u32; 8]; 64];
    headers[62] = CODE;
    headers[63] = TABLE;
    assert_eq!(rt; of_headers(rt.alloc(), &headers)?, 0);
    Ok(())
}

#[test]
fn only_kinds_that_are_loaded_count(rt: HostRuntime) -> Result<(), Fail> {
    let alloc = rt.alloc();
    for kind in [2, 3, 7] {
        assert_eq!(rt; of_headers(alloc, &[with(CODE, 0, kind), TABLE])?, 7);
    }
    for kind in [0, 4, 5, 6, 8, 0x7000_0003] {
        assert_eq!(rt; of_headers(alloc, &[with(CODE, 0, kind), CODE, TABLE])?, 0);
        assert_eq!(rt; of_headers(alloc, &[with(CODE, 0, kind), TABLE])?, 11);
    }
    // Without a byte of memory it counts for nothing, wherever it is.
    let nothing = [1, u32::MAX, 7, 0, u32::MAX, 0, 7, 0];
    assert_eq!(rt; of_headers(alloc, &[nothing, CODE, TABLE])?, 0);
    Ok(())
}

#[test]
fn bytes_of_segments_are_whole(rt: HostRuntime) -> Result<(), Fail> {
    let alloc = rt.alloc();
    let end = 4_536;
    assert_eq!(rt; file(alloc, &[CODE, TABLE], 4_400)?.len(), 4_536);
    assert_eq!(rt; of_headers(alloc, &[with(CODE, 1, end - 8), TABLE])?, 0);
    assert_eq!(rt; of_headers(alloc, &[with(CODE, 1, end - 7), TABLE])?, 1);
    assert_eq!(rt; of_headers(alloc, &[with(CODE, 1, u32::MAX), TABLE])?, 1);
    assert_eq!(rt;
        of_headers(alloc, &[with(CODE, LENGTH, u32::MAX), TABLE])?,
        1
    );
    Ok(())
}

#[test]
fn segments_are_within_their_parts(rt: HostRuntime) -> Result<(), Fail> {
    let alloc = rt.alloc();
    assert_eq!(rt; of_headers(alloc, &[with(CODE, SIZE, 7), TABLE])?, 8);
    assert_eq!(rt; of_headers(alloc, &[with(CODE, SIZE, 65_536), TABLE])?, 0);
    assert_eq!(rt; of_headers(alloc, &[with(CODE, SIZE, 65_537), TABLE])?, 8);
    assert_eq!(rt; of_headers(alloc, &[with(CODE, SIZE, u32::MAX), TABLE])?, 8);
    for (address, want) in [
        (0, 8),
        (0x0000_ffff, 8),
        (0x0001_fff8, 0),
        (0x0001_fff9, 8),
        (0x0002_0000, 8),
        (0x000f_fffc, 8),
        (0xffff_fffc, 8),
    ] {
        assert_eq!(rt;
            of_headers(alloc, &[with(CODE, ADDRESS, address), TABLE])?,
            want,
            "{address}"
        );
    }
    assert_eq!(rt;
        of_headers(alloc, &[CODE, with(MEMORY, SIZE, 65_536), TABLE])?,
        0
    );
    assert_eq!(rt;
        of_headers(alloc, &[CODE, with(MEMORY, SIZE, 65_537), TABLE])?,
        8
    );
    assert_eq!(rt;
        of_headers(alloc, &[CODE, with(MEMORY, ADDRESS, 0x0010_fff8), TABLE])?,
        0
    );
    assert_eq!(rt;
        of_headers(alloc, &[CODE, with(MEMORY, ADDRESS, 0x0010_fff9), TABLE])?,
        8
    );
    Ok(())
}

#[test]
fn the_table_is_at_its_place(rt: HostRuntime) -> Result<(), Fail> {
    let alloc = rt.alloc();
    assert_eq!(rt;
        of_headers(alloc, &[CODE, with(TABLE, ADDRESS, 0x0020_0004)])?,
        8
    );
    assert_eq!(rt; of_headers(alloc, &[CODE, with(TABLE, LENGTH, 8)])?, 8);
    let long = with(with(TABLE, LENGTH, 4_168), SIZE, 4_168);
    assert_eq!(rt; of_headers(alloc, &[CODE, long])?, 13);
    let longer = with(with(TABLE, LENGTH, 4_169), SIZE, 4_169);
    assert_eq!(rt; of_headers(alloc, &[CODE, longer])?, 8);
    Ok(())
}

#[test]
fn segments_are_in_order(rt: HostRuntime) -> Result<(), Fail> {
    let alloc = rt.alloc();
    assert_eq!(rt;
        of_headers(alloc, &[CODE, with(CODE, ADDRESS, 0x0001_0008), TABLE])?,
        0
    );
    assert_eq!(rt;
        of_headers(alloc, &[CODE, with(CODE, ADDRESS, 0x0001_0007), TABLE])?,
        9
    );
    assert_eq!(rt; of_headers(alloc, &[TABLE, CODE])?, 9);
    assert_eq!(rt; of_headers(alloc, &[CODE, TABLE, TABLE])?, 9);
    assert_eq!(rt; of_headers(alloc, &[MEMORY, CODE, TABLE])?, 9);
    Ok(())
}

#[test]
fn code_is_not_writable(rt: HostRuntime) -> Result<(), Fail> {
    let alloc = rt.alloc();
    for flags in 0..8u32 {
        let want = if flags / 2 % 2 == 1 { 10 } else { 0 };
        assert_eq!(rt;
            of_headers(alloc, &[with(CODE, 6, flags), MEMORY, TABLE])?,
            want
        );
        assert_eq!(rt;
            of_headers(alloc, &[CODE, with(MEMORY, 6, flags), TABLE])?,
            0
        );
    }
    Ok(())
}

#[test]
fn code_and_table_are_there(rt: HostRuntime) -> Result<(), Fail> {
    let alloc = rt.alloc();
    assert_eq!(rt; of_headers(alloc, &[TABLE])?, 11);
    assert_eq!(rt; of_headers(alloc, &[MEMORY, TABLE])?, 11);
    assert_eq!(rt; of_headers(alloc, &[CODE])?, 12);
    assert_eq!(rt; of_headers(alloc, &[CODE, MEMORY])?, 12);
    Ok(())
}

#[test]
fn forms_and_threads_are_known(rt: HostRuntime) -> Result<(), Fail> {
    let alloc = rt.alloc();
    let mut words = [0x0001_0000u32; 20];
    for (form, threads, want) in [
        (0, 1, 13),
        (3, 1, 13),
        (1, 0, 13),
        (1, 1, 0),
        (1, 8, 0),
        (1, 9, 13),
        (2, 1, 0),
        (2, 16, 0),
        (2, 17, 13),
    ] {
        words[0] = form;
        words[1] = threads;
        let end = 2 + (threads as usize).min(18);
        assert_eq!(rt;
            of_table(alloc, &words[..end], 0)?,
            want,
            "{form} {threads}"
        );
    }
    assert_eq!(rt; of_table(alloc, &[], 3)?, 13);
    assert_eq!(rt; of_table(alloc, &[1], 3)?, 13);
    assert_eq!(rt; of_table(alloc, &[1, 2, 0x0001_0000], 3)?, 13);
    Ok(())
}

#[test]
fn entries_are_in_the_code(rt: HostRuntime) -> Result<(), Fail> {
    let alloc = rt.alloc();
    for (entry, want) in [
        (0x0001_0000, 0),
        (0x0001_0004, 0),
        (0x0001_0008, 14),
        (0x0001_0002, 14),
        (0x0000_fffc, 14),
        (0x0010_0000, 14),
        (u32::MAX, 14),
    ] {
        assert_eq!(rt; of_table(alloc, &[1, 1, entry], 0)?, want, "{entry}");
    }
    // The first that fails is named: an entry before one that is missing, and the objects after both.
    assert_eq!(rt; of_table(alloc, &[1, 2, 2], 0)?, 14);
    assert_eq!(rt; of_table(alloc, &[1, 1, 2], 4)?, 14);
    Ok(())
}

#[test]
fn objects_are_whole(rt: HostRuntime) -> Result<(), Fail> {
    let alloc = rt.alloc();
    for (form, more, want) in [
        (1, 32, 0),
        (1, 31, 13),
        (1, 33, 13),
        (1, 28, 13),
        (1, 512, 0),
        (1, 544, 13),
        (2, 64, 0),
        (2, 32, 13),
        (2, 4_096, 0),
        (2, 4_160, 8),
    ] {
        assert_eq!(rt;
            of_table(alloc, &[form, 1, 0x0001_0000], more)?,
            want,
            "{form} {more}"
        );
    }
    Ok(())
}

// The program headers of a file of 200,000,000 bytes, at its end.
#[test]
fn a_large_file_is_read(rt: HostRuntime) -> Result<(), Fail> {
    let alloc = rt.alloc();
    let small = file(alloc, &[CODE, TABLE], 0)?;
    let mut large = vec![in alloc; 0u8; 200_000_000]?;
    put(large.as_mut_slice(), 0, small.get(..HEADERS).unwrap_or(&[]));
    put(
        large.as_mut_slice(),
        199_999_936,
        small.get(HEADERS..).unwrap_or(&[]),
    );
    put(large.as_mut_slice(), 28, &199_999_936u32.to_le_bytes());
    assert_eq!(rt; refusal(alloc, large.as_slice()), 0);
    put(large.as_mut_slice(), 28, &199_999_937u32.to_le_bytes());
    assert_eq!(rt; refusal(alloc, large.as_slice()), 1);
    Ok(())
}

#[test]
fn refusals_have_words(rt: HostRuntime) -> Result<(), Fail> {
    let alloc = rt.alloc();
    let text = format!(in alloc; "{}", ElfErr::Refused(Refusal::NoCode))?;
    assert_eq!(rt; text.as_str(), "there is no code");
    assert!(rt;
        matches!(
            read_elf(alloc, &[]),
            Err(ElfErr::Refused(Refusal::Short)) | Err(ElfErr::NoMem)
        )
    );
    Ok(())
}
