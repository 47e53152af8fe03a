//! Sources and what they give, worked out by hand from the tables of statements and causes.

use ir_asm::{AsmErr, Cause, assemble};
use ir_image::{Image, ImageForm, read_image, write_image};
use std::alloc::Global;
use std::test::Fail;

// One source or more for each cause.
const CAUSES: [(&str, usize, u8); 20] = [
    ("nop\nnop \x01\n", 2, 1),
    ("nop\r", 1, 1),
    ("mv a0, a1", 1, 2),
    ("addi a0, zero", 1, 3),
    ("addi a0, zer, 2048", 1, 4),
    ("addi a0, zero, 2048", 1, 5),
    ("beq a0, a1, .+4096", 1, 5),
    ("a: nop\na: nop", 2, 6),
    ("nop\nbeq a0, a1, far", 2, 7),
    ("nop\n.space 1", 2, 9),
    ("beq a0, a1, d\n.data\nd: .byte 1", 1, 9),
    ("nop\nend: .thread end", 2, 9),
    ("", 2, 10),
    ("# no code\n\n", 4, 10),
    (".data\n.space 65536\n.byte 1\n.text\nnop", 3, 10),
    ("nop\n.object 0, 1", 2, 11),
    (".objects 2\n.object 1, 7\n.objects 1\nnop", 2, 11),
    ("nop\n9a: nop", 2, 12),
    ("a b: nop", 1, 12),
    (".larger\nnop", 1, 2),
];

// Lines with two faults or more, and the one that is named.
const ORDER: [(&str, usize, u8); 11] = [
    ("9a: \x01", 1, 1),
    ("a: a: 9: nop", 1, 12),
    ("a: a: mv a0, a1", 1, 6),
    (".data\nmv a0, a1", 2, 2),
    (".data\naddi zer", 2, 9),
    ("addi zer, zero", 1, 3),
    ("beq zer, a1, $x", 1, 3),
    ("lw a0, 2048(zer)", 1, 5),
    ("lw zer, 2048(a0)", 1, 4),
    // A fault of the second pass comes after all of the first.
    ("beq a0, a1, far\nmv a0, a1", 2, 2),
    ("beq a0, a1, far\n.object 0, 1", 1, 7),
];

// The line and the cause of the first fault; none, and 0 for out of memory, where there is none.
pub fn fault_of(alloc: Global, source: &str) -> (usize, u8) {
    match assemble(alloc, source) {
        Ok(_) => (0, 0),
        Err(AsmErr::At { line, cause }) => (line, cause.number()),
        Err(AsmErr::NoMem) => (0, 255),
    }
}

#[test]
fn causes_have_numbers(rt: HostRuntime) {
    assert_eq!(rt; Cause::BadByte.number(), 1);
    assert_eq!(rt; Cause::BadLabel.number(), 12);
}

#[test]
fn each_cause(rt: HostRuntime) {
    for (source, line, cause) in &CAUSES {
        assert_eq!(rt; fault_of(rt.alloc(), source), (*line, *cause), "{source}");
    }
}

#[test]
fn the_first_fault(rt: HostRuntime) {
    for (source, line, cause) in &ORDER {
        assert_eq!(rt; fault_of(rt.alloc(), source), (*line, *cause), "{source}");
    }
}

// A source of the same statement over and over, between two others.
fn repeated(
    alloc: Global,
    first: &str,
    times: usize,
    statement: &str,
    last: &str,
) -> Result<String, Fail> {
    let mut source = String::new(alloc);
    source.push_str(first)?;
    for _ in 0..times {
        source.push_str(statement)?;
    }
    source.push_str(last)?;
    Ok(source)
}

// A source as `repeated` makes it, and its first fault.
type Repeated = (&'static str, usize, &'static str, &'static str, (usize, u8));

const DISTANCES: [Repeated; 3] = [
    ("beq a0, a1, far\n", 1022, "nop\n", "far: nop", (0, 0)),
    ("beq a0, a1, far\n", 1024, "nop\n", "far: nop", (1, 8)),
    ("far: nop\n", 1024, "nop\n", "beq a0, a1, far", (1026, 8)),
];

const SIZES: [Repeated; 5] = [
    ("", 16_384, "nop\n", "", (0, 0)),
    ("", 16_383, "nop\n", "li a0, 1", (16_384, 10)),
    ("a: nop\n", 9, ".thread a\n", "", (10, 11)),
    (".large\na: nop\n", 16, ".thread a\n", "", (0, 0)),
    (".large\na: nop\n", 17, ".thread a\n", "", (19, 11)),
];

const LABELS: [Repeated; 2] = [
    ("", 64, "a", ": nop", (0, 0)),
    ("", 65, "a", ": nop", (1, 12)),
];

#[test]
fn limits(rt: HostRuntime) -> Result<(), Fail> {
    for table in [DISTANCES.as_slice(), SIZES.as_slice(), LABELS.as_slice()] {
        for (first, times, statement, last, fault) in table {
            let source = repeated(rt.alloc(), first, *times, statement, last)?;
            assert_eq!(rt; fault_of(rt.alloc(), &source), *fault, "of {times}");
        }
    }
    Ok(())
}

// How many words of code there are, the first and the last.
fn ends_of(image: &Image) -> (usize, Option<u32>, Option<u32>) {
    let words = image.code().words();
    let first = words.first().copied();
    (words.len(), first, words.last().copied())
}

// 60,004 bytes on, and back again.
#[test]
fn a_jump_goes_far(rt: HostRuntime) -> Result<(), Fail> {
    let first = "start: jal zero, far\n";
    let source = repeated(rt.alloc(), first, 15_000, "nop\n", "far: jal ra, start")?;
    let image = assemble(rt.alloc(), &source)?;
    assert_eq!(rt;
        ends_of(&image),
        (15_002, Some(0x2650_e06f), Some(0xd9cf_10ef))
    );
    Ok(())
}

// The image of a source, written and read again.
fn again(alloc: Global, source: &str) -> Result<Image, Fail> {
    let image = assemble(alloc, source)?;
    let bytes = write_image(alloc, &image)?;
    let read = read_image(alloc, bytes.as_slice())?;
    Ok(read)
}

// Whether the image that is read again has these entries, this code, this data and these words of objects.
fn comes_again(
    alloc: Global,
    source: &str,
    entries: &[u32],
    code: &[u32],
    bytes: &[u8],
    words: &[u32],
) -> Result<bool, Fail> {
    let image = again(alloc, source)?;
    let begins = image.entries() == entries && image.code().words() == code;
    Ok(begins && image.bytes() == bytes && image.words() == words)
}

const STRAIGHT: &str = "
# Prints an H and ends with twice its code.
        addi a0, zero, 72
        addi a7, zero, 2
        ecall
        add a0, a0, a0
        addi a7, zero, 1
        ecall
";

const STRAIGHT_CODE: [u32; 6] = [
    0x0480_0513,
    0x0020_0893,
    0x73,
    0x00a5_0533,
    0x0010_0893,
    0x73,
];

#[test]
fn one_thread(rt: HostRuntime) -> Result<(), Fail> {
    let first = [0x0001_0000];
    assert!(rt; comes_again(rt.alloc(), STRAIGHT, &first, &STRAIGHT_CODE, &[], &[])?);
    Ok(())
}

const EIGHT: &str = "
.objects 16
.object 15, 1, -1
.object 15, 5, 0xFFFFFFFE
.thread a
.thread b
.thread b
.thread b
.thread b
.thread b
.thread b
.thread b
a: li a0, d
b: bne a0, a1, a
.data
.byte 7
d: .word 258
.space 1
.byte 255
";

const EIGHT_ENTRIES: [u32; 8] = [
    0x0001_0000,
    0x0001_0008,
    0x0001_0008,
    0x0001_0008,
    0x0001_0008,
    0x0001_0008,
    0x0001_0008,
    0x0001_0008,
];

const EIGHT_CODE: [u32; 3] = [0x0010_0537, 0x0015_0513, 0xfeb5_1ce3];

const EIGHT_DATA: [u8; 7] = [7, 2, 1, 0, 0, 0, 255];

#[test]
fn eight_threads_and_sixteen_objects(rt: HostRuntime) -> Result<(), Fail> {
    let mut objects = [0; 128];
    objects[120] = 5;
    objects[121] = 0xffff_fffe;
    let same = comes_again(
        rt.alloc(),
        EIGHT,
        &EIGHT_ENTRIES,
        &EIGHT_CODE,
        &EIGHT_DATA,
        &objects,
    )?;
    assert!(rt; same);
    Ok(())
}

const LARGE: &str = "
# a label may stand before it
a:
b: .large
.objects 64
.object 63, 1, 2, 3, 4, 5, 6, 7, 8, 9, 10, 11, 12, 13, 14, 15, 16
.object 62, 5
c: nop
";

#[test]
fn a_large_image(rt: HostRuntime) -> Result<(), Fail> {
    let mut objects = [0; 1024];
    objects[992] = 5;
    for (place, word) in objects[1008..].iter_mut().zip(1..17u32) {
        *place = word;
    }
    let same = comes_again(rt.alloc(), LARGE, &[0x0001_0000], &[0x13], &[], &objects)?;
    assert!(rt; same);
    let image = again(rt.alloc(), LARGE)?;
    assert_eq!(rt;
        (image.form(), image.object_words()),
        (ImageForm::Large, 16)
    );
    let image = again(rt.alloc(), "nop")?;
    assert_eq!(rt; (image.form(), image.object_words()), (ImageForm::Small, 8));
    Ok(())
}

#[test]
fn the_two_words_of_li(rt: HostRuntime) -> Result<(), Fail> {
    let words = [0x1234_6537, 0xfff5_0513];
    assert!(rt;
        comes_again(
            rt.alloc(),
            "li a0, 0x12345FFF",
            &[0x0001_0000],
            &words,
            &[],
            &[]
        )?
    );
    Ok(())
}
