//! Assembling over fakes: images, faults, their explanations, each writer that fails.

use crate::device_tests::{ENDLESS, Page, empty_page};
use ir_arguments::ASM_AFTER;
use ir_asm::Labels;
use ir_files::ExitStatus;
use ir_make::asm_run;
use std::alloc::{AllocError, Global};
use std::test::Fail;

const SOURCE: &[u8] =
    b"addi a0, zero, 72\naddi a7, zero, 2\necall\nadd a0, a0, a0\naddi a7, zero, 1\necall\n";

const IMAGE: [u8; 42] = [
    0x49, 0x52, 0x49, 0x31, 1, 0, 6, 0, 0, 0, 0, 0, 0, 0, 0x00, 0x00, 0x01, 0x00, 0x13, 0x05, 0x80,
    0x04, 0x93, 0x08, 0x20, 0x00, 0x73, 0x00, 0x00, 0x00, 0x33, 0x05, 0xa5, 0x00, 0x93, 0x08, 0x10,
    0x00, 0x73, 0x00, 0x00, 0x00,
];

const FAULTS: [(&[u8], &[u8]); 7] = [
    (b"", b"line 2 error 10\n"),
    (b"x\n", b"line 1 error 2\n"),
    (b"a: a: nop\n", b"line 1 error 6\n"),
    (b"beq a0, a1, far\n", b"line 1 error 7\n"),
    (b"nop\nend: .thread end\n", b"line 2 error 9\n"),
    // Bytes that are no ASCII, in a comment too.
    (b"nop\n# \xc3\xa9\n", b"line 2 error 1\n"),
    (b"nop\n\nnop \x7f\n", b"line 3 error 1\n"),
];

// The number of the exit status of an assembly.
fn number_of(made: Result<Labels, ExitStatus>) -> u8 {
    match made {
        Ok(_) => ExitStatus::Done.number(),
        Err(status) => status.number(),
    }
}

// The status, and what was written and reported, by writers of at most `most` bytes a call. That of the image fails after
// `image_calls` calls, and that of faults after `fault_calls`.
fn assembled(
    rt: &HostRuntime,
    source: &[u8],
    most: usize,
    image_calls: u64,
    fault_calls: u64,
) -> (u8, Page, Page) {
    let mut image = empty_page(rt, most, image_calls);
    let mut faults = empty_page(rt, most, fault_calls);
    let made = asm_run(rt.alloc(), source, None, &mut image, &mut faults);
    (number_of(made), image, faults)
}

#[test]
fn a_source_is_assembled(rt: HostRuntime) {
    for most in [1, 5, 1000] {
        let (status, image, faults) = assembled(&rt, SOURCE, most, ENDLESS, 0);
        assert_eq!(rt; status, 0);
        assert_eq!(rt; image.bytes.as_slice(), IMAGE.as_slice());
        assert!(rt; faults.bytes.is_empty());
    }
}

#[test]
fn a_fault_is_reported(rt: HostRuntime) {
    for &(source, line) in &FAULTS {
        let (status, image, faults) = assembled(&rt, source, 3, 0, ENDLESS);
        assert_eq!(rt; status, 3);
        assert_eq!(rt; faults.bytes.as_slice(), line);
        assert!(rt; image.bytes.is_empty() && !image.failed);
    }
}

#[test]
fn a_writer_fails(rt: HostRuntime) {
    for calls in 0..9 {
        let (status, image, faults) = assembled(&rt, SOURCE, 5, calls, ENDLESS);
        assert_eq!(rt; status, if calls < 9 { 1 } else { 0 });
        assert_eq!(rt;
            image.bytes.as_slice(),
            &IMAGE[..(calls * 5).min(42) as usize]
        );
        assert!(rt; faults.bytes.is_empty());
        let (status, image, _) = assembled(&rt, b"x", 2, ENDLESS, calls);
        assert_eq!(rt; status, if calls < 8 { 1 } else { 3 });
        assert!(rt; image.bytes.is_empty());
    }
}

const WORDS_2: &str = "an unknown instruction or directive";

const WORDS_9: &str = "a statement or label of the wrong section, or `.large` after a statement";

const WORDS_10: &str = "too much code or data, or no code";

// A source with a fault, its line and cause, the cause in words, and what of the line follows these.
const EXPLAINED: [(&str, u32, u32, &str, &str); 15] = [
    (
        "nop\n\tnop # \x01\u{e9}\x7f~\n",
        2,
        1,
        "a byte that a source may not hold",
        ":  nop # ????~",
    ),
    ("nop\r", 1, 1, "a byte that a source may not hold", ": nop?"),
    ("nop\nx\nnop\n", 2, 2, WORDS_2, ": x"),
    (
        "add a0, a1\r\nnop\r\n",
        1,
        3,
        "a wrong number or form of operands",
        ": add a0, a1",
    ),
    (
        "addi a0, zer, 1",
        1,
        4,
        "an unknown register",
        ": addi a0, zer, 1",
    ),
    (
        "\n\nlw\ta0, 2048(a1)\n",
        3,
        5,
        "a malformed number or one out of range",
        ": lw a0, 2048(a1)",
    ),
    ("a: nop\na: nop", 2, 6, "a label defined twice", ": a: nop"),
    (
        "nop\nbeq a0, a1, far # there\n",
        2,
        7,
        "an undefined label",
        ": beq a0, a1, far # there",
    ),
    ("nop\n.space 1", 2, 9, WORDS_9, ": .space 1"),
    ("nop\n.large", 2, 9, WORDS_9, ": .large"),
    ("", 2, 10, WORDS_10, ""),
    ("# no code\n\n", 4, 10, WORDS_10, ""),
    (
        ".data\n.space 65536\n.byte 1\n.text\nnop",
        3,
        10,
        WORDS_10,
        ": .byte 1",
    ),
    (
        "nop\n.object 0, 1",
        2,
        11,
        "too many threads, or no such object",
        ": .object 0, 1",
    ),
    ("9a: nop", 1, 12, "a malformed label", ": 9a: nop"),
];

// The status and what was reported of a source whose faults are explained, by a writer that fails after `fault_calls` calls
// of seven bytes at most.
fn explained(rt: &HostRuntime, source: &[u8], fault_calls: u64) -> (u8, Page) {
    let mut image = empty_page(rt, 1, 0);
    let mut faults = empty_page(rt, 7, fault_calls);
    let made = asm_run(rt.alloc(), source, Some("bad.s"), &mut image, &mut faults);
    (number_of(made), faults)
}

// A report by its parts.
fn report_of(
    alloc: Global,
    line: u32,
    cause: u32,
    words: &str,
    text: &str,
) -> Result<String, AllocError> {
    format!(in alloc; "line {line} error {cause}\nbad.s:{line}: {words}{text}\n")
}

#[test]
fn a_fault_is_explained(rt: HostRuntime) -> Result<(), Fail> {
    for &(source, line, cause, words, text) in &EXPLAINED {
        let report = report_of(rt.alloc(), line, cause, words, text)?;
        let (status, faults) = explained(&rt, source.as_bytes(), ENDLESS);
        assert_eq!(rt; status, 3);
        assert_eq!(rt; faults.bytes.as_slice(), report.as_bytes());
    }
    Ok(())
}

// The words are those of the help.
#[test]
fn the_help_has_the_words_of_each_cause(rt: HostRuntime) -> Result<(), Fail> {
    assert!(rt; ASM_AFTER.contains(" 8 a label that is too far away"));
    for &(_, _, cause, words, _) in &EXPLAINED {
        let row = format!(in rt.alloc(); " {cause} {words}")?;
        assert!(rt; ASM_AFTER.contains(row.as_str()), "{row}");
    }
    Ok(())
}

// This text `count` times.
fn repeated(alloc: Global, text: &str, count: usize) -> Result<String, AllocError> {
    let mut all = String::new(alloc);
    for _ in 0..count {
        all.push_str(text)?;
    }
    Ok(all)
}

// A branch back over 4,100 bytes.
fn far_source(alloc: Global) -> Result<String, AllocError> {
    let nops = repeated(alloc, "nop\n", 1025)?;
    format!(in alloc; "near: {nops}beq a0, a1, near\n")
}

#[test]
fn a_label_too_far_away_is_explained(rt: HostRuntime) -> Result<(), Fail> {
    let words = "a label that is too far away";
    let report = report_of(rt.alloc(), 1026, 8, words, ": beq a0, a1, near")?;
    let source = far_source(rt.alloc())?;
    let (_, faults) = explained(&rt, source.as_bytes(), ENDLESS);
    assert_eq!(rt; faults.bytes.as_slice(), report.as_bytes());
    Ok(())
}

// The first 200 bytes of a line are shown.
#[test]
fn a_long_line_is_cut(rt: HostRuntime) -> Result<(), Fail> {
    for &(count, shown) in &[(199, 199), (200, 200), (201, 200), (300, 200)] {
        let source = repeated(rt.alloc(), "x", count)?;
        let text = repeated(rt.alloc(), "x", shown)?;
        let (_, faults) = explained(&rt, source.as_bytes(), ENDLESS);
        let wanted = format!(in rt.alloc(); "line 1 error 2\nbad.s:1: {WORDS_2}: {text}\n")?;
        assert_eq!(rt; faults.bytes.as_slice(), wanted.as_bytes());
    }
    Ok(())
}

// The report takes ten calls of seven bytes.
#[test]
fn a_writer_of_explanations_fails(rt: HostRuntime) -> Result<(), Fail> {
    let report = report_of(rt.alloc(), 1, 2, WORDS_2, ": y")?;
    for calls in 0..10 {
        let (status, faults) = explained(&rt, b"y", calls);
        let told = faults.bytes.as_slice();
        assert_eq!(rt; status, if told.len() < report.len() { 1 } else { 3 });
        assert!(rt; report.as_bytes().starts_with(told));
        assert!(rt; told.len() as u64 == (calls * 7).min(report.len() as u64));
    }
    Ok(())
}
