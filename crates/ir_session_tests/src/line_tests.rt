//! Lines at their limits, and what the next step is shown as.

use crate::sessions::{Files, Said, are_answered, files_of, is_answered};
use ir_tests::guests::{DOUBLED, TWO_COUNTERS};
use ir_tests::traces::{ENDED_BY_144, Ran, SECOND_FIRST, TraceRow};
use std::alloc::{AllocError, Global};
use std::test::Fail;
use std::thread::Threads;
use std::time::Clock;

// `count` of a byte, and a line's rest.
pub fn line_of(alloc: Global, count: usize, byte: u8, rest: &[u8]) -> Result<Vec<u8>, AllocError> {
    let mut line = Vec::new(alloc);
    line.resize(count, byte)?;
    line.extend_from_slice(rest)?;
    Ok(line)
}

// How often a byte comes, the byte, the line's rest, and what is answered: 1,024 bytes are a line, and one more is too long.
const LONG: [(usize, u8, &[u8], &[u8]); 9] = [
    (1024, b' ', b"\n", b"ready\n"),
    (1025, b' ', b"\n", b"ready\nrefused 7 line too long\n"),
    (1025, b'x', b"\n", b"ready\nrefused 7 line too long\n"),
    (1023, b' ', b"\r\n", b"ready\n"),
    (1024, b' ', b"\r\n", b"ready\nrefused 7 line too long\n"),
    (1016, b' ', b"step 0 1\n", b"ready\nat 1\n"),
    (
        1017,
        b' ',
        b"step 0 1\n",
        b"ready\nrefused 7 line too long\n",
    ),
    (
        5000,
        b'x',
        b"\npos\nstep 0 1\n",
        b"ready\nrefused 7 line too long\nat 0\nat 1\n",
    ),
    (1025, b'x', b"", b"ready\nrefused 7 line too long\n"),
];

// Whether such a line is answered so.
fn is_long_answered<R: AllocGlobal + Threads + Clock + Sync>(
    rt: &R,
    files: &Files,
    row: (usize, u8, &[u8], &[u8]),
) -> Result<bool, AllocError> {
    let (count, byte, rest, answers) = row;
    let lines = line_of(rt.alloc(), count, byte, rest)?;
    Ok(is_answered(rt, files, lines.as_slice(), answers))
}

#[test]
fn long_lines_are_refused(rt: HostRuntime) -> Result<(), Fail> {
    let files = files_of(rt.alloc(), DOUBLED, ENDED_BY_144)?;
    for &row in &LONG {
        assert!(rt; is_long_answered(&rt, &files, row)?);
    }
    Ok(())
}

// A line that can't be carried out, and what is answered.
const REFUSED: [(&[u8], &[u8]); 12] = [
    (b"jump\n", b"ready\nrefused 1 unknown command\n"),
    (b"st\0ep 0 1\n", b"ready\nrefused 1 unknown command\n"),
    (b"\xff\xfe\n", b"ready\nrefused 1 unknown command\n"),
    (b"step 0\n", b"ready\nrefused 2 bad argument\n"),
    (b"step 0 4294967296\n", b"ready\nrefused 2 bad argument\n"),
    (b"step 0 \xc2\xa01\n", b"ready\nrefused 2 bad argument\n"),
    (b"mem 0 0x100000 257\n", b"ready\nrefused 2 bad argument\n"),
    (b"step 2 1\n", b"ready\nrefused 3 no such thread\n"),
    (
        b"goto 2 1000000000000\n",
        b"ready\nrefused 3 no such thread\n",
    ),
    (b"obj 1\n", b"ready\nrefused 4 no such object\n"),
    (b"mem 1 4294967295 1\n", b"ready\nrefused 6 bad address\n"),
    (b"mem 1 4294967041 256\n", b"ready\nrefused 6 bad address\n"),
];

// Whether the line is answered so, and the positions stay.
fn is_refused<R: AllocGlobal + Threads + Clock + Sync>(
    rt: &R,
    files: &Files,
    line: &[u8],
    answers: &[u8],
) -> Result<bool, AllocError> {
    let mut lines = Vec::from_slice(rt.alloc(), line)?;
    lines.extend_from_slice(b"pos\n")?;
    let mut expected = Vec::from_slice(rt.alloc(), answers)?;
    expected.extend_from_slice(b"at 0 0\n")?;
    Ok(is_answered(rt, files, lines.as_slice(), expected.as_slice()))
}

#[test]
fn refused_lines_change_nothing(rt: HostRuntime) -> Result<(), Fail> {
    let files = files_of(rt.alloc(), TWO_COUNTERS, SECOND_FIRST)?;
    for &(line, answers) in &REFUSED {
        assert!(rt; is_refused(&rt, &files, line, answers)?);
    }
    Ok(())
}

// Positions past the last are the last.
const PAST_THE_LAST: [Said; 1] = [(
    "goto 1 19\ngoto 0 1000000000000\nback 1 18\ngoto 1 18446744073709551615\nback 0 4294967295\n",
    "ready\nat 0 18 end\nat 18 18 end\nat 2 0 start\nat 2 18 end\nat 0 18 start\n",
)];

#[test]
fn positions_end_at_the_last(rt: HostRuntime) -> Result<(), Fail> {
    are_answered(&rt, TWO_COUNTERS, SECOND_FIRST, &PAST_THE_LAST)
}

// Nothing is run: the budget is spent immediately.
const UNRUN: TraceRow = TraceRow {
    objects: 0,
    budget: 0,
    threads: &[Ran(1, 13, 0, &[])],
};

// How many instructions come before a word, the word, and what it is shown as.
const WORDS: [(usize, &str, &[u8]); 13] = [
    (
        3,
        "0x00b50463",
        b"ready\nnext 0001000c beq a0, a1, .+8 # 00010014\n",
    ),
    (
        0,
        "0xffdff06f",
        b"ready\nnext 00010000 jal zero, .-4 # 0000fffc\n",
    ),
    (
        1,
        "0x0ff0000f",
        b"ready\nnext 00010004 fence zero, zero, 255\n",
    ),
    (0, "0x12346537", b"ready\nnext 00010000 lui a0, 0x12346\n"),
    (0, "0xfff50513", b"ready\nnext 00010000 addi a0, a0, -1\n"),
    (0, "0x02009093", b"ready\nnext 00010000 .word 0x02009093\n"),
    (2, "0x00000073", b"ready\nnext 00010008 ecall\n"),
    (0, "0x00500093", b"ready\nnext 00010000 addi ra, zero, 5\n"),
    (0, "0x027302b3", b"ready\nnext 00010000 mul t0, t1, t2\n"),
    (0, "0x00000000", b"ready\nnext 00010000 .word 0x00000000\n"),
    (0, "0xffffffff", b"ready\nnext 00010000 .word 0xffffffff\n"),
    (0, "0x00100073", b"ready\nnext 00010000 ebreak\n"),
    (
        0,
        "0x00000013",
        b"ready\nnext 00010000 addi zero, zero, 0\n",
    ),
];

// A guest of `before` instructions and a word, at which its thread begins.
fn source_of(alloc: Global, before: usize, word: &str) -> Result<String, AllocError> {
    let mut source = String::new(alloc);
    for _ in 0..before {
        source.push_str("nop\n")?;
    }
    source.push_str("main: .word ")?;
    source.push_str(word)?;
    source.push_str("\n.thread main\n")?;
    Ok(source)
}

// Whether its next step is shown so.
fn is_disassembled<R: AllocGlobal + Threads + Clock + Sync>(
    rt: &R,
    row: (usize, &str, &[u8]),
) -> Result<bool, Fail> {
    let (before, word, answers) = row;
    let source = source_of(rt.alloc(), before, word)?;
    let files = files_of(rt.alloc(), &[source.as_str()], UNRUN)?;
    Ok(is_answered(rt, &files, b"next 0\n", answers))
}

#[test]
fn the_next_word_is_disassembled(rt: HostRuntime) -> Result<(), Fail> {
    for &row in &WORDS {
        assert!(rt; is_disassembled(&rt, row)?);
    }
    Ok(())
}

// Prints the number in a0.
const PRINT_NUMBER: &str = "addi a7, zero, 3\necall\nebreak\n";

// How a number gets into a0, and what is printed of it.
const NUMBERS: [(&str, &[u8]); 4] = [
    ("li a0, 0xffffffff", b"ready\nat 5\nout 3\n2d310a\n"),
    (
        "li a0, 0x80000000",
        b"ready\nat 5\nout 12\n2d323134373438333634380a\n",
    ),
    ("li a0, 0", b"ready\nat 5\nout 2\n300a\n"),
    (
        "li a0, 0x7fffffff",
        b"ready\nat 5\nout 11\n323134373438333634370a\n",
    ),
];

const BROKEN_AFTER: TraceRow = TraceRow {
    objects: 0,
    budget: 1000,
    threads: &[Ran(5, 2, 0, &[])],
};

// Whether it is printed so.
fn is_printed<R: AllocGlobal + Threads + Clock + Sync>(
    rt: &R,
    number: &str,
    answers: &[u8],
) -> Result<bool, Fail> {
    let source = [number, PRINT_NUMBER];
    let files = files_of(rt.alloc(), &source, BROKEN_AFTER)?;
    Ok(is_answered(rt, &files, b"end\nout 0\n", answers))
}

#[test]
fn numbers_are_printed_with_their_signs(rt: HostRuntime) -> Result<(), Fail> {
    for &(number, answers) in &NUMBERS {
        assert!(rt; is_printed(&rt, number, answers)?);
    }
    Ok(())
}
