//! The program by its words, over a folder in memory: each exit status with its message, and files that aren't as they
//! should be.

use crate::device_tests::{Bytes, ENDLESS, Page, empty_page};
use crate::shelf::Shelf;
use ir_commands::Surroundings;
use ir_names::NamedSink;
use ir_object::Gate;
use ir_program::{Invocation, Terminals, program};
use ir_runs::Access;
use ir_search::Observer;
use std::alloc::{AllocError, AllocGlobal, Global};
use std::sync::Wait;
use std::test::Fail;
use std::thread::Threads;
use std::time::Clock;

const DOUBLE: &[u8] =
    b"addi a0, zero, 72\naddi a7, zero, 2\necall\nadd a0, a0, a0\naddi a7, zero, 1\necall\n";

// Two threads; the first prints A, the second nothing.
const TWO: &[u8] =
    b".thread prints\n.thread silent\nprints: addi a0, zero, 65\naddi a7, zero, 2\necall\nsilent: ebreak\n";

// Is told and shows nothing.
struct Quiet;

impl Gate for Quiet {
    fn entered(&self, _thread: u8, _object: u8, _access: Access) {}

    fn leaving(&self, _thread: u8, _object: u8, _access: Access) {}
}

impl Observer for Quiet {
    fn searched(&self, _states: usize, _switches: usize) {}

    fn listed(&self, _outcomes: usize) {}

    fn is_over(&self, _seconds: u32) -> bool {
        false
    }
}

// The words of a line.
fn words_of(alloc: Global, line: &str) -> Result<Vec<String>, AllocError> {
    let mut words = Vec::new(alloc);
    for word in line.split(' ') {
        words.push(String::from_str(alloc, word)?)?;
    }
    Ok(words)
}

// A run of the program by these words, which reads this, with faults reported at a terminal or not: its status, and what
// it wrote and reported.
pub fn ran_at<R: Threads + Wait + Sync + Clock + Eprint + AllocGlobal>(
    rt: &R,
    shelf: &Shelf,
    line: &str,
    input: &[u8],
    out_calls: u64,
    at_terminal: bool,
) -> Result<(u8, Page, Page), Fail> {
    let words = words_of(rt.alloc(), line)?;
    let input = Bytes {
        left: input,
        calls_left: ENDLESS,
        failed: false,
    };
    let mut out = NamedSink::new(rt.alloc(), empty_page(rt, 1000, out_calls));
    let mut faults = empty_page(rt, 1000, ENDLESS);
    let status = program(
        Surroundings {
            rt,
            folder: &shelf,
            gate: &Quiet,
        },
        &Invocation {
            arguments: words.as_slice(),
            terminals: Terminals {
                input: false,
                faults: at_terminal,
            },
        },
        input,
        &mut out,
        &mut faults,
    );
    Ok((status.number(), out.sink, faults))
}

// The same, without a terminal.
fn ran<R: Threads + Wait + Sync + Clock + Eprint + AllocGlobal>(
    rt: &R,
    shelf: &Shelf,
    line: &str,
    input: &[u8],
    out_calls: u64,
) -> Result<(u8, Page, Page), Fail> {
    ran_at(rt, shelf, line, input, out_calls, false)
}

// Whether a run of the program by these words, which reads this, ends with the status, writes this and reports this.
pub fn says<R: Threads + Wait + Sync + Clock + Eprint + AllocGlobal>(
    rt: &R,
    shelf: &Shelf,
    line: &str,
    input: &[u8],
    wanted: (u8, &str, &str),
) -> Result<bool, Fail> {
    let (status, out, faults) = ran(rt, shelf, line, input, ENDLESS)?;
    let (number, written, told) = wanted;
    Ok(
        status == number
            && out.bytes.as_slice() == written.as_bytes()
            && faults.bytes.as_slice() == told.as_bytes(),
    )
}

// The bytes of a file are these.
fn holds(shelf: &Shelf, path: &str, wanted: &[u8]) -> bool {
    shelf
        .bytes_of(path)
        .is_some_and(|bytes| bytes.as_slice() == wanted)
}

// Two sources and their images, one of them at a second path, a source with a fault, a file that is too long to be read by
// guests, and folders.
pub fn prepared<R: Threads + Wait + Sync + Clock + Eprint + AllocGlobal>(
    rt: &R,
) -> Result<Shelf, Fail> {
    let shelf = Shelf::new(rt.alloc());
    shelf.add_file("d.s", DOUBLE)?;
    shelf.add_file("bad.s", b"nop\nx\n")?;
    shelf.add_file("held.trc.part", b"A")?;
    shelf.add_file("list", b"0x3,0\r\n")?;
    shelf.add_file("bad.list", b"0,x\n")?;
    shelf.add_file("no.text", b"\xff")?;
    let mut long = Vec::new(rt.alloc());
    long.resize(1_048_577, 0)?;
    shelf.add_file("longer", long.as_slice())?;
    shelf.add_folder("folder")?;
    shelf.add_folder("held.1")?;
    shelf.add_file("two.s", TWO)?;
    for line in [
        "ir asm d.s d.img",
        "ir asm two.s two.img",
        "ir asm two.s image.1",
    ] {
        ran(rt, &shelf, line, b"", 0)?;
    }
    Ok(shelf)
}

// A fault that is explained.
const EXPLAINED: &str = "line 2 error 2\nbad.s:2: an unknown instruction or directive: x\n";

// The words, the exit status, and what is reported.
const ROWS: [(&str, u8, &str); 58] = [
    (
        "ir asm",
        2,
        "ir: the following required arguments were not provided: <SOURCE> <IMAGE>\n",
    ),
    (
        "ir record d.img",
        2,
        "ir: the following required arguments were not provided: <TRACE>\n",
    ),
    (
        "ir trace",
        2,
        "ir: the following required arguments were not provided: <TRACE>\n",
    ),
    (
        "ir debug d.img",
        2,
        "ir: the following required arguments were not provided: <TRACE>\n",
    ),
    (
        "ir play",
        2,
        "ir: unrecognized subcommand 'play': see ir --help\n",
    ),
    (
        "ir exploer",
        2,
        "ir: unrecognized subcommand 'exploer': did you mean 'explore'?\n",
    ),
    (
        "ir asm d.s d2.img --fast",
        2,
        "ir: unexpected argument '--fast' found\n",
    ),
    (
        "ir record d.img d.trc --budget x",
        2,
        "ir: --budget: 'x' is no number up to 1000000000000\n",
    ),
    (
        "ir record d.img d.trc --budget 5\n6",
        2,
        "ir: --budget: '5?6' is no number up to 1000000000000\n",
    ),
    (
        "ir record d.img d.trc --random 1x",
        2,
        "ir: --random: '1x' is no number up to 18446744073709551615\n",
    ),
    (
        "ir record d.img d.trc --profile 3",
        2,
        "ir: --profile: '3' is neither 1 nor 2\n",
    ),
    (
        "ir asm d.s d.s",
        2,
        "ir: d.s: IMAGE would be written over SOURCE\n",
    ),
    (
        "ir asm none none",
        2,
        "ir: none: IMAGE would be written over SOURCE\n",
    ),
    (
        "ir record d.img d.img",
        2,
        "ir: d.img: TRACE would be written over IMAGE\n",
    ),
    (
        "ir record d.img list --order-file list",
        2,
        "ir: list: TRACE would be written over LISTFILE\n",
    ),
    (
        "ir record d.img d.trc --order-file bad.list",
        3,
        "ir: LIST: the item 'x' is none of T, TxN, T! and T!xN\n",
    ),
    (
        "ir record d.img d.trc --order-file no.text",
        3,
        "ir: no.text: LIST is no text\n",
    ),
    (
        "ir record d.img d.trc --order-file none",
        1,
        "ir: none can't be read: no such file or folder\n",
    ),
    (
        "ir record d.img d.trc --order 0 --order-file list",
        2,
        "ir: the argument '--order <LIST>' cannot be used with '--order-file <LISTFILE>'\n",
    ),
    (
        "ir record d.img longer --input longer",
        2,
        "ir: longer: TRACE would be written over FILE\n",
    ),
    (
        "ir record image.1 d.trc --output image",
        2,
        "ir: image.1: PREFIX.T would be written over IMAGE\n",
    ),
    (
        "ir record two.img out.0 --output out",
        2,
        "ir: out.0: PREFIX.T would be written over TRACE\n",
    ),
    (
        "ir record two.img out.1 --output out",
        2,
        "ir: out.1: PREFIX.T would be written over TRACE\n",
    ),
    (
        "ir record two.img d.trc --output image --input image.1",
        2,
        "ir: image.1: PREFIX.T would be written over FILE\n",
    ),
    (
        "ir record none.1 d.trc --output none",
        1,
        "ir: none.1 can't be read: no such file or folder\n",
    ),
    (
        "ir record d.s d.trc --output image",
        3,
        "ir: the image is refused, 2: these bytes are no image\n",
    ),
    (
        "ir record two.img d.trc --output image --order 2",
        3,
        "ir: LIST: the item '2' names no thread of the image\n",
    ),
    (
        "ir record d.img d.trc --output",
        2,
        "ir: a value is required for '--output <PREFIX>' but none was supplied\n",
    ),
    (
        "ir record two.img none/d.trc --output out",
        1,
        "ir: none/d.trc can't be written: no such file or folder\n",
    ),
    (
        "ir asm none.s d2.img",
        1,
        "ir: none.s can't be read: no such file or folder\n",
    ),
    (
        "ir asm \x1b[2J\n.s d2.img",
        1,
        "ir: ?[2J?.s can't be read: no such file or folder\n",
    ),
    (
        "ir asm folder d2.img",
        1,
        "ir: folder can't be read: it is a folder\n",
    ),
    (
        "ir asm d.s folder",
        1,
        "ir: folder can't be written: it is a folder\n",
    ),
    (
        "ir asm d.s none/d.img",
        1,
        "ir: none/d.img can't be written: no such file or folder\n",
    ),
    (
        "ir record none.img d.trc",
        1,
        "ir: none.img can't be read: no such file or folder\n",
    ),
    (
        "ir record folder d.trc",
        1,
        "ir: folder can't be read: it is a folder\n",
    ),
    (
        "ir record d.img d.trc --input none",
        1,
        "ir: none can't be read: no such file or folder\n",
    ),
    (
        "ir record d.img d.trc --input longer",
        1,
        "ir: longer is over 1048576 bytes\n",
    ),
    (
        "ir record d.img none/d.trc",
        1,
        "ir: none/d.trc can't be written: no such file or folder\n",
    ),
    (
        "ir record d.img folder",
        1,
        "ir: folder can't be written: it is a folder\n",
    ),
    (
        "ir trace none.trc",
        1,
        "ir: none.trc can't be read: no such file or folder\n",
    ),
    (
        "ir trace folder",
        1,
        "ir: folder can't be read: it is a folder\n",
    ),
    (
        "ir debug none.img d.trc",
        1,
        "ir: none.img can't be read: no such file or folder\n",
    ),
    (
        "ir debug d.img none.trc",
        1,
        "ir: none.trc can't be read: no such file or folder\n",
    ),
    ("ir asm bad.s d2.img", 3, "line 2 error 2\n"),
    ("ir asm --explain bad.s d2.img", 3, EXPLAINED),
    ("ir asm bad.s d2.img --explain", 3, EXPLAINED),
    (
        "ir asm --explain=1 bad.s d2.img",
        2,
        "ir: unexpected value '1' for '--explain' found; no more were expected\n",
    ),
    (
        "ir record d.s d.trc",
        3,
        "ir: the image is refused, 2: these bytes are no image\n",
    ),
    (
        "ir record d.img d.trc --order 1",
        3,
        "ir: LIST: the item '1' names no thread of the image\n",
    ),
    (
        "ir record d.img d.trc --order=-1",
        3,
        "ir: LIST: the item '-1' is none of T, TxN, T! and T!xN\n",
    ),
    (
        "ir record d.img d.trc --order 0\n1",
        3,
        "ir: LIST: the item '0?1' is none of T, TxN, T! and T!xN\n",
    ),
    (
        "ir record d.img d.trc --order 0x0",
        3,
        "ir: LIST: the item '0x0' has an N that is not from 1 to 1000000\n",
    ),
    (
        "ir record d.img d.trc --order 0!!",
        3,
        "ir: LIST: the item '0!!' is none of T, TxN, T! and T!xN\n",
    ),
    (
        "ir record d.img d.trc --order 0x2!",
        3,
        "ir: LIST: the item '0x2!' is none of T, TxN, T! and T!xN\n",
    ),
    (
        "ir record d.img d.trc --order 1!x2",
        3,
        "ir: LIST: the item '1!x2' names no thread of the image\n",
    ),
    (
        "ir record d.img d.trc --order 0,",
        3,
        "ir: LIST: the item '' is none of T, TxN, T! and T!xN\n",
    ),
    (
        "ir record longer d.trc",
        3,
        "ir: the image is refused, 2: these bytes are no image\n",
    ),
];

// Whether none of the files is there that a run by a row's words would make.
fn leaves_nothing(shelf: &Shelf) -> bool {
    let mut is_left = false;
    for path in ["d2.img", "d.trc", "d.trc.part", "out.0", "out.1"] {
        is_left |= shelf.bytes_of(path).is_some();
    }
    !is_left
}

#[test]
fn what_stops_it_is_told(rt: HostRuntime) -> Result<(), Fail> {
    let shelf = prepared(&rt)?;
    for &(line, status, told) in &ROWS {
        assert!(rt; says(&rt, &shelf, line, b"", (status, "", told))?, "{line}");
        assert!(rt; leaves_nothing(&shelf), "{line}");
    }
    assert!(rt; holds(&shelf, "d.s", DOUBLE));
    Ok(())
}

// At a terminal a fault is explained, asked for or not.
#[test]
fn a_fault_is_explained_at_a_terminal(rt: HostRuntime) -> Result<(), Fail> {
    let shelf = prepared(&rt)?;
    for line in ["ir asm bad.s d2.img", "ir asm --explain bad.s d2.img"] {
        let (status, out, faults) = ran_at(&rt, &shelf, line, b"", ENDLESS, true)?;
        assert_eq!(rt; status, 3);
        assert_eq!(rt; faults.bytes.as_slice(), EXPLAINED.as_bytes());
        assert!(rt; out.bytes.is_empty() && leaves_nothing(&shelf));
    }
    Ok(())
}

const LINE: &str = "thread 0 end 1 code 144 steps 6 events 0\n";

// In turn: the words, what is read, the exit status, what is written, and what is reported.
const TURNS: [(&str, &[u8], u8, &str, &str); 8] = [
    ("ir record d.img d.trc --order 0", b"", 0, LINE, ""),
    ("ir record d.img d2.trc --budget 1000", b"", 0, LINE, ""),
    (
        "ir trace d.trc",
        b"",
        0,
        "threads 1 objects 0 budget 1000000 profile 1\nthread 0 end 1 code 144 steps 6 events 0\nlog 0 of 0\n",
        "",
    ),
    (
        "ir trace d.img",
        b"",
        3,
        "trace refused 2\n",
        "ir: the trace is refused: these bytes are no trace\n",
    ),
    (
        "ir debug d.img d.trc",
        b"end\nout 0\nfoo\nquit\n",
        0,
        "ready\nat 6\nout 1\n48\nrefused 1 unknown command\nbye\n",
        "",
    ),
    (
        "ir debug d.s d.trc",
        b"end\n",
        3,
        "image refused 2\n",
        "ir: the image is refused: these bytes are no image\n",
    ),
    (
        "ir debug d.img d.img",
        b"end\n",
        3,
        "trace refused 2\n",
        "ir: the trace is refused: these bytes are no trace\n",
    ),
    (
        "ir",
        b"495249310100060000000000000000000100130580049308200073000000\
3305a5009308100073000000\n4952543101000000e8030000000000000700000000000000019000000000000000\n",
        4,
        "thread 0 disagrees event 0 step 5\n",
        "",
    ),
];

#[test]
fn what_is_done_is_written(rt: HostRuntime) -> Result<(), Fail> {
    let shelf = prepared(&rt)?;
    for &(line, input, status, written, told) in &TURNS {
        assert!(rt;
            says(&rt, &shelf, line, input, (status, written, told))?,
            "{line}"
        );
    }
    assert!(rt; shelf.bytes_of("d.trc.part").is_none());
    Ok(())
}

// Whether a run by these words ends well and reports nothing.
fn goes_well<R: Threads + Wait + Sync + Clock + Eprint + AllocGlobal>(
    rt: &R,
    shelf: &Shelf,
    line: &str,
) -> Result<bool, Fail> {
    let (status, _, faults) = ran(rt, shelf, line, b"", ENDLESS)?;
    Ok(status == 0 && faults.bytes.is_empty())
}

// Whether the outputs of the two threads are there, and whether a third is.
fn are_there(shelf: &Shelf) -> (bool, bool, bool) {
    (
        holds(shelf, "out.0", b"A"),
        holds(shelf, "out.1", b""),
        shelf.bytes_of("out.2").is_some(),
    )
}

#[test]
fn outputs_are_written_where_they_are_asked_for(rt: HostRuntime) -> Result<(), Fail> {
    let shelf = prepared(&rt)?;
    shelf.add_file("out.0", b"an older output")?;
    for (line, is_asked_for) in [
        ("ir record two.img d.trc --order 0", false),
        ("ir record two.img d.trc --output out", true),
        ("ir record two.img d2.trc --output other --order 1,0", true),
        (
            "ir record two.img d2.trc --output other --order-file list",
            true,
        ),
    ] {
        assert!(rt; goes_well(&rt, &shelf, line)?, "{line}");
        assert_eq!(rt; are_there(&shelf), (is_asked_for, is_asked_for, false));
    }
    assert!(rt; holds(&shelf, "other.0", b"A") && holds(&shelf, "other.1", b""));
    Ok(())
}

// A file that is there already is neither written to nor removed, though it has the name of a part.
#[test]
fn a_part_of_another_stays(rt: HostRuntime) -> Result<(), Fail> {
    let shelf = prepared(&rt)?;
    for line in [
        "ir record d.img held.trc",
        "ir record d.img held.trc --input held.trc.part",
        "ir asm d.s held.trc",
    ] {
        assert!(rt; goes_well(&rt, &shelf, line)?, "{line}");
        assert!(rt; shelf.bytes_of("held.trc").is_some(), "{line}");
        assert!(rt; holds(&shelf, "held.trc.part", b"A"), "{line}");
        assert!(rt; shelf.bytes_of("held.trc.part2").is_none(), "{line}");
    }
    Ok(())
}

// One thread has one output, so another file may have the next name.
#[test]
fn one_thread_has_one_output(rt: HostRuntime) -> Result<(), Fail> {
    let shelf = prepared(&rt)?;
    let line = "ir record d.img image.trc --output image --input image.1";
    assert!(rt; goes_well(&rt, &shelf, line)?);
    assert!(rt; holds(&shelf, "image.0", b"H"));
    Ok(())
}

#[test]
fn an_output_that_cannot_be_written_is_told(rt: HostRuntime) -> Result<(), Fail> {
    let shelf = prepared(&rt)?;
    for (line, told) in [
        (
            "ir record two.img d.trc --output none/out",
            "ir: none/out.0 can't be written: no such file or folder\n",
        ),
        (
            "ir record two.img d.trc --output held",
            "ir: held.1 can't be written: it is a folder\n",
        ),
    ] {
        assert!(rt; says(&rt, &shelf, line, b"", (1, "", told))?, "{line}");
    }
    // What was written before stays.
    assert!(rt; shelf.bytes_of("d.trc").is_some());
    assert!(rt; holds(&shelf, "held.0", b"A"));
    Ok(())
}

// Whether a run by these words whose standard output takes nothing says so.
fn fails_at_output<R: Threads + Wait + Sync + Clock + Eprint + AllocGlobal>(
    rt: &R,
    shelf: &Shelf,
    line: &str,
    input: &[u8],
) -> Result<bool, Fail> {
    let (status, _, faults) = ran(rt, shelf, line, input, 0)?;
    Ok(
        status == 1
            && faults.bytes.as_slice() == b"ir: standard output can't be written\n".as_slice(),
    )
}

#[test]
fn standard_output_that_fails_is_told(rt: HostRuntime) -> Result<(), Fail> {
    let shelf = prepared(&rt)?;
    for (line, input) in [
        ("ir --help", b"".as_slice()),
        ("ir trace --help", b""),
        ("ir record d.img d.trc --order 0", b""),
        ("ir trace d.trc", b""),
        ("ir debug d.img d.trc", b"end\n"),
    ] {
        assert!(rt; fails_at_output(&rt, &shelf, line, input)?, "{line}");
    }
    // The trace is in its place all the same.
    assert!(rt; shelf.bytes_of("d.trc").is_some());
    Ok(())
}

#[test]
fn help_is_written(rt: HostRuntime) -> Result<(), Fail> {
    let shelf = Shelf::new(rt.alloc());
    for line in [
        "ir --help",
        "ir asm --help",
        "ir record --help",
        "ir trace --help",
        "ir debug --help",
    ] {
        let (status, out, faults) = ran(&rt, &shelf, line, b"", ENDLESS)?;
        assert_eq!(rt; status, 0);
        assert!(rt; out.bytes.len() > 300 && faults.bytes.is_empty());
    }
    Ok(())
}
