//! Images of a few words, and of as many as there can be, read and written.

use ir_image::{
    Code, Fetched, Image, ImageErr, ImageForm, Kind, Operation, read_image, write_image,
};
use ir_isa::Inst;
use std::alloc::{AllocError, Global};
use std::test::Fail;

// `addi a0, zero, 72`, `addi a7, zero, 2`, `ecall`, `add a0, a0, a0`, `addi a7, zero, 1`, `ecall` for one thread.
const PROGRAM: [u8; 42] = [
    0x49, 0x52, 0x49, 0x31, 1, 0, 6, 0, 0, 0, 0, 0, 0, 0, 0x00, 0x00, 0x01, 0x00, 0x13, 0x05, 0x80,
    0x04, 0x93, 0x08, 0x20, 0x00, 0x73, 0x00, 0x00, 0x00, 0x33, 0x05, 0xa5, 0x00, 0x93, 0x08, 0x10,
    0x00, 0x73, 0x00, 0x00, 0x00,
];

// The number of the refusal, if the bytes are refused.
fn refusal(alloc: Global, bytes: &[u8]) -> Option<u8> {
    match read_image(alloc, bytes) {
        Ok(_) => None,
        Err(error) => error.number(),
    }
}

// The program with another byte at a place.
fn changed(place: usize, byte: u8) -> [u8; 42] {
    let mut bytes = PROGRAM;
    if place < bytes.len() {
        bytes[place] = byte;
    }
    bytes
}

// What is seen of an image: how many entries, words of code, bytes of data and words of objects it has, and the last entry,
// byte of data and word of an object.
type Seen = (
    (usize, usize, usize, usize),
    (Option<u32>, Option<u8>, Option<u32>),
);

// Whether the image that is read of the bytes is seen so, with this code.
fn is_read_so(alloc: Global, bytes: &[u8], seen: Seen, code: &[u32]) -> Result<bool, Fail> {
    let image = read_image(alloc, bytes)?;
    Ok((sizes(&image), lasts(&image)) == seen && image.code().words() == code)
}

const PROGRAM_CODE: [u32; 6] = [
    0x0480_0513,
    0x0020_0893,
    0x73,
    0x00a5_0533,
    0x0010_0893,
    0x73,
];

#[test]
fn a_program_is_read(rt: HostRuntime) -> Result<(), Fail> {
    let seen = ((1, 6, 0, 0), (Some(0x0001_0000), None, None));
    assert!(rt; is_read_so(rt.alloc(), &PROGRAM, seen, &PROGRAM_CODE)?);
    Ok(())
}

#[test]
fn a_program_is_written(rt: HostRuntime) -> Result<(), Fail> {
    assert!(rt; is_written_again(rt.alloc(), &PROGRAM)?);
    Ok(())
}

#[test]
fn a_fetch_stays_in_the_code(rt: HostRuntime) -> Result<(), Fail> {
    let image = read_image(rt.alloc(), &PROGRAM)?;
    let code = image.code();
    assert!(rt; matches!(code.fetch(0x0001_0000), Fetched::Found(_)));
    assert_eq!(rt; code.fetch(0x0001_0014), Fetched::Found(Inst::Ecall));
    for pc in [0, 0x0000_fffc, 0x0001_0018, 0xffff_fffc] {
        assert_eq!(rt; code.fetch(pc), Fetched::Outside);
    }
    Ok(())
}

#[test]
fn each_prefix_is_short(rt: HostRuntime) {
    for length in 0..42usize {
        assert_eq!(rt;
            refusal(rt.alloc(), &PROGRAM[..length]),
            Some(1),
            "at {length}"
        );
    }
}

#[test]
fn one_byte_more_is_refused(rt: HostRuntime) {
    let mut longer = [0; 43];
    longer[..42].copy_from_slice(&PROGRAM);
    assert_eq!(rt; refusal(rt.alloc(), &longer), Some(5));
}

// A place of the program, the byte that is put there, and the refusal.
const FAULTS: [(usize, u8, u8); 9] = [
    (0, 0, 2), // the magic
    (4, 0, 3), // the numbers of threads and objects
    (4, 9, 3),
    (5, 17, 3),
    (7, 0x41, 3), // the words of code
    (12, 2, 3), // the bytes of data
    (14, 2, 4), // the entry
    (14, 0x18, 4),
    (16, 0, 4),
];

#[test]
fn the_first_fault_is_named(rt: HostRuntime) {
    for &(place, byte, want) in &FAULTS {
        assert_eq!(rt;
            refusal(rt.alloc(), &changed(place, byte)),
            Some(want),
            "at {place}"
        );
    }
}

// Counts without what they count, and the refusals: 16,384 words of code, one more, and 65,537 bytes of data.
const COUNTS: [(&[u8], u8); 3] = [
    (
        &[
            0x49, 0x52, 0x49, 0x31, 1, 0, 0x00, 0x40, 0, 0, 0, 0, 0, 0, 0, 0, 1, 0,
        ],
        1,
    ),
    (
        &[
            0x49, 0x52, 0x49, 0x31, 1, 0, 0x01, 0x40, 0, 0, 0, 0, 0, 0, 0, 0, 1, 0,
        ],
        3,
    ),
    (&[0x49, 0x52, 0x49, 0x31, 1, 0, 0, 0, 0, 0, 1, 0, 1, 0], 3),
];

#[test]
fn a_count_without_its_bytes_is_short(rt: HostRuntime) {
    for &(bytes, want) in &COUNTS {
        assert_eq!(rt; refusal(rt.alloc(), bytes), Some(want));
    }
}

#[test]
fn out_of_memory_has_no_number(rt: HostRuntime) {
    assert_eq!(rt; ImageErr::NoMem.number(), None);
}

// How many entries, words of code, bytes of data and words of objects an image has.
fn sizes(image: &Image) -> (usize, usize, usize, usize) {
    let code = image.code().words();
    let words = image.words();
    (
        image.entries().len(),
        code.len(),
        image.bytes().len(),
        words.len(),
    )
}

// The last entry, byte of data and word of an object.
fn lasts(image: &Image) -> (Option<u32>, Option<u8>, Option<u32>) {
    let entry = image.entries().last().copied();
    let byte = image.bytes().last().copied();
    (entry, byte, image.words().last().copied())
}

// Whether the image that is read of the bytes is written as they are.
fn is_written_again(alloc: Global, bytes: &[u8]) -> Result<bool, Fail> {
    let image = read_image(alloc, bytes)?;
    let written = write_image(alloc, &image)?;
    Ok(written.as_slice() == bytes)
}

// The first words of 16 objects.
fn put_objects(bytes: &mut Vec<u8>) -> Result<(), AllocError> {
    for word in 0..128u8 {
        bytes.extend_from_slice(&[word, 0, 0, 0xff])?;
    }
    Ok(())
}

// Eight threads, the last of which begins at the second word of code, 16 objects and 3 bytes of data.
fn small(alloc: Global) -> Result<Vec<u8>, AllocError> {
    let mut bytes = Vec::new(alloc);
    bytes.extend_from_slice(&[0x49, 0x52, 0x49, 0x31, 8, 16, 2, 0, 0, 0, 3, 0, 0, 0])?;
    for _ in 0..7 {
        bytes.extend_from_slice(&[0, 0, 1, 0])?;
    }
    bytes.extend_from_slice(&[4, 0, 1, 0, 0x73, 0, 0, 0, 0x73, 0, 0x10, 0, 7, 8, 9])?;
    put_objects(&mut bytes)?;
    Ok(bytes)
}

#[test]
fn threads_objects_and_data_stand_in_order(rt: HostRuntime) -> Result<(), Fail> {
    let lasts = (Some(0x0001_0004), Some(9), Some(0xff00_007f));
    let seen = ((8, 2, 3, 128), lasts);
    assert!(rt; is_read_so(rt.alloc(), &small(rt.alloc())?, seen, &[0x73, 0x0010_0073])?);
    Ok(())
}

#[test]
fn threads_objects_and_data_are_written_in_order(rt: HostRuntime) -> Result<(), Fail> {
    let bytes = small(rt.alloc())?;
    assert!(rt; is_written_again(rt.alloc(), &bytes)?);
    Ok(())
}

// Eight threads that begin at the last word, 16 objects, 16,384 words of code and 65,536 bytes of data: all the limits at the same time.
fn largest(alloc: Global) -> Result<Vec<u8>, AllocError> {
    let mut bytes = Vec::new(alloc);
    bytes.extend_from_slice(&[0x49, 0x52, 0x49, 0x31, 8, 16, 0, 0x40, 0, 0, 0, 0, 1, 0])?;
    for _ in 0..8 {
        bytes.extend_from_slice(&[0xfc, 0xff, 1, 0])?;
    }
    for _ in 0..16_384 {
        bytes.extend_from_slice(&[0x73, 0, 0, 0])?;
    }
    for _ in 0..16_384 {
        bytes.extend_from_slice(&[7, 8, 9, 10])?;
    }
    put_objects(&mut bytes)?;
    Ok(bytes)
}

#[test]
fn the_largest_image_is_read(rt: HostRuntime) -> Result<(), Fail> {
    let image = read_image(rt.alloc(), &largest(rt.alloc())?)?;
    assert_eq!(rt; sizes(&image), (8, 16_384, 65_536, 128));
    assert_eq!(rt;
        lasts(&image),
        (Some(0x0001_fffc), Some(10), Some(0xff00_007f))
    );
    Ok(())
}

#[test]
fn the_last_word_of_the_largest_is_fetched(rt: HostRuntime) -> Result<(), Fail> {
    let image = read_image(rt.alloc(), &largest(rt.alloc())?)?;
    let fetched = (
        image.code().fetch(0x0001_fffc),
        image.code().fetch(0x0002_0000),
    );
    assert_eq!(rt; fetched, (Fetched::Found(Inst::Ecall), Fetched::Outside));
    Ok(())
}

#[test]
fn the_largest_image_is_written(rt: HostRuntime) -> Result<(), Fail> {
    assert!(rt; is_written_again(rt.alloc(), &largest(rt.alloc())?)?);
    Ok(())
}

#[test]
fn no_byte_follows_the_largest(rt: HostRuntime) -> Result<(), Fail> {
    let mut bytes = largest(rt.alloc())?;
    bytes.push(0)?;
    assert_eq!(rt; refusal(rt.alloc(), &bytes), Some(5));
    Ok(())
}

// An image of this form with `threads` threads and `objects` objects, one word of code and these words for the objects.
fn announced(
    alloc: Global,
    form: u8,
    threads: u8,
    objects: u8,
    words: u16,
) -> Result<Vec<u8>, AllocError> {
    let mut bytes = Vec::new(alloc);
    bytes.extend_from_slice(&[
        0x49, 0x52, 0x49, form, threads, objects, 1, 0, 0, 0, 0, 0, 0, 0,
    ])?;
    for _ in 0..threads {
        bytes.extend_from_slice(&[0, 0, 1, 0])?;
    }
    bytes.extend_from_slice(&[0x73, 0, 0, 0])?;
    for word in 0..words {
        let low = word.to_le_bytes();
        bytes.extend_from_slice(&[low[0], low[1], 0, 0])?;
    }
    Ok(bytes)
}

// Threads, objects and words of all objects, of either form, and the refusal.
const ANNOUNCED: [(u8, u8, u8, u16, Option<u8>); 14] = [
    (0x31, 8, 16, 128, None),
    (0x31, 9, 0, 0, Some(3)),
    (0x31, 1, 17, 136, Some(3)),
    (0x31, 1, 1, 16, Some(5)), // sixteen words for one object
    (0x31, 1, 1, 7, Some(1)),
    (0x32, 16, 64, 1024, None),
    (0x32, 1, 0, 0, None),
    (0x32, 0, 0, 0, Some(3)),
    (0x32, 17, 0, 0, Some(3)),
    (0x32, 1, 65, 1040, Some(3)),
    (0x32, 1, 1, 17, Some(5)), // a seventeenth word
    (0x32, 1, 1, 8, Some(1)),
    (0x33, 1, 0, 0, Some(2)),
    (0x30, 1, 0, 0, Some(2)),
];

#[test]
fn each_form_has_its_limits(rt: HostRuntime) -> Result<(), Fail> {
    for &(form, threads, objects, words, want) in &ANNOUNCED {
        let bytes = announced(rt.alloc(), form, threads, objects, words)?;
        assert_eq!(rt;
            refusal(rt.alloc(), &bytes),
            want,
            "{form} {threads} {objects} {words}"
        );
        if want.is_none() {
            assert!(rt; is_written_again(rt.alloc(), &bytes)?);
        }
    }
    Ok(())
}

#[test]
fn a_large_image_has_sixteen_words_of_each_object(rt: HostRuntime) -> Result<(), Fail> {
    let bytes = announced(rt.alloc(), 0x32, 16, 64, 1024)?;
    let image = read_image(rt.alloc(), &bytes)?;
    assert_eq!(rt; image.form(), ImageForm::Large);
    assert_eq!(rt; (image.object_words(), image.object_count()), (16, 64));
    assert_eq!(rt; image.words().get(16).copied(), Some(16));
    Ok(())
}

#[test]
fn a_small_image_has_eight_words_of_each_object(rt: HostRuntime) -> Result<(), Fail> {
    let image = read_image(rt.alloc(), &small(rt.alloc())?)?;
    assert_eq!(rt; image.form(), ImageForm::Small);
    assert_eq!(rt; (image.object_words(), image.object_count()), (8, 16));
    Ok(())
}

// `auipc t0, 1`, `jal zero, -4`, `beq t0, t0, 6`, `lw a0, 4(t0)`, `sw a0, -4(t0)`, `sltiu a0, a0, -1`, `ecall`, `ebreak`
const WORDS: [u32; 8] = [
    0x0000_1297,
    0xffdf_f06f,
    0x0052_8363,
    0x0042_a503,
    0xfea2_ae23,
    0xfff5_3513,
    0x73,
    0x0010_0073,
];

const LOWERED: [(Kind, u8, u8, u8, u32); 8] = [
    (Kind::Constant, 5, 0, 0, 0x0001_1000),
    (Kind::Jal, 32, 0, 0, 0),
    (Kind::Unusual, 32, 0, 0, 0),
    (Kind::Lw, 10, 5, 0, 0xfff0_0004),
    (Kind::Sw, 32, 5, 10, 0xffef_fffc),
    (Kind::Sltiu, 10, 10, 0, 0xffff_ffff),
    (Kind::Call, 32, 0, 0, 0),
    (Kind::Unusual, 32, 0, 0, 0),
];

fn parts(operation: &Operation) -> (Kind, u8, u8, u8, u32) {
    (
        operation.kind,
        operation.rd,
        operation.rs1,
        operation.rs2,
        operation.imm,
    )
}

#[test]
fn words_are_lowered_for_their_places(rt: HostRuntime) -> Result<(), Fail> {
    let code = Code::new(rt.alloc(), Vec::from_slice(rt.alloc(), &WORDS)?)?;
    assert_eq!(rt; code.operations().len(), LOWERED.len());
    for (operation, wanted) in code.operations().iter().zip(&LOWERED) {
        assert_eq!(rt; parts(operation), *wanted);
    }
    Ok(())
}
