//! What answers are with names, and which lines of files of names are faulty.

use crate::{NamedSink, NamesErr, read_names};
use ir_stream::{DeviceErr, Sink, write_all};
use std::alloc::{AllocError, Global};

const NAMES: &str = "thread 0 adder
thread 1 main
object 0 lock
object 3 count
object 3 word 0 the-count
object 3 word 1 limit

00010008 load bank.c:12
0001000C store bank.c:40
0001000c main bank.c:51
";

// A plain answer, whether its lines begin with addresses, and the answer with names.
type Answer = (&'static str, bool, &'static str);

const ANSWERS: [Answer; 14] = [
    (
        "thread 0 end 1 code 0\n",
        false,
        "thread 0 <adder> end 1 code 0\n",
    ),
    (
        "thread 2 end 1\nthread 1\n",
        false,
        "thread 2 end 1\nthread 1 <main>\n",
    ),
    (
        "object 3 versions 3\nversion 0 by first words word 0 00000000\n",
        false,
        "object 3 <count> versions 3\nversion 0 by first words word 0 <the-count> 00000000\n",
    ),
    (
        "object 3 words 00000001 00000002 00000003\n",
        false,
        "object 3 <count> words 00000001 <the-count> 00000002 <limit> 00000003\n",
    ),
    (
        "thread 1 event 1 write 0 version 1 read event 0 version 0 overwritten by thread 0 event 1\n",
        false,
        "thread 1 <main> event 1 write 0 <lock> version 1 read event 0 version 0 overwritten by thread 0 <adder> event 1\n",
    ),
    (
        "thread 0 event 3 step 9 write 3 version 1 word 1 was 00000000\n",
        false,
        "thread 0 <adder> event 3 step 9 write 3 <count> version 1 word 1 <limit> was 00000000\n",
    ),
    (
        "thread 0 event 0 step 2 pc 00010008 <load+8> try 3 version 0\n",
        false,
        "thread 0 <adder> event 0 step 2 pc 00010008 <load bank.c:12> <load+8> try 3 <count> version 0\n",
    ),
    (
        "0001000c 00a00513 addi a0, zero, 10\n",
        true,
        "0001000c <store bank.c:40> 00a00513 addi a0, zero, 10\n",
    ),
    (
        "0001000c 00a00513 addi a0, zero, 10\n",
        false,
        "0001000c 00a00513 addi a0, zero, 10\n",
    ),
    (
        "threads 2 objects 1 budget 1\n",
        false,
        "threads 2 objects 1 budget 1\n",
    ),
    (
        "thread 00000000000 thread 0000000000",
        false,
        "thread 00000000000 thread 0000000000",
    ),
    (
        "thread 00000000000 thread 0000000000 ",
        false,
        "thread 00000000000 thread 0000000000 <adder> ",
    ),
    (
        "word 0 x\nobject 3\nword 0, word 1,",
        false,
        "word 0 x\nobject 3 <count>\nword 0 <the-count>, word 1 <limit>,",
    ),
    ("", true, ""),
];

// A sink that takes at most some bytes at a time, and fails when it has all that it takes.
#[derive(Drop)]
struct Slow {
    bytes: Vec<u8>,
    step: usize,
    most: usize,
    failed: bool,
}

impl Sink for Slow {
    ghost use Rattle.std.specs.Prelude.{None};

    ghost written = { λ _. None };

    ghost broken = { λ s. s.failed };

    fn write(&mut self, bytes: &[u8]) -> Result<usize, DeviceErr> {
        if bytes.is_empty() {
            return Ok(0);
        }
        let room = self.most.saturating_sub(self.bytes.len());
        let count = bytes.len().min(room).min(self.step);
        if count == 0 || self.bytes.extend_from_slice(&bytes[..count]).is_err() {
            self.failed = true;
            return Err(DeviceErr);
        }
        Ok(count)
    }

    fn failed(&self) -> bool {
        self.failed
    }
}

fn sink(alloc: Global, step: usize, most: usize) -> Slow {
    Slow {
        bytes: Vec::new(alloc),
        step: step.max(1),
        most,
        failed: false,
    }
}

// Writes in pieces of a few bytes, as far as it goes.
fn write_pieces<W: Sink>(sink: &mut W, bytes: &[u8], size: usize) -> Result<(), DeviceErr> {
    for piece in bytes.chunks(size.max(1)) {
        write_all(sink, piece)?;
    }
    Ok(())
}

#[test]
fn answers_have_names(rt: HostRuntime) -> Result<(), NamesErr> {
    for (plain, lists, named) in ANSWERS {
        for size in [1, 2, 7, 1000] {
            let mut writer = NamedSink::new(rt.alloc(), sink(rt.alloc(), size, 1000));
            writer.begin(read_names(rt.alloc(), NAMES.as_bytes())?, lists);
            assert!(rt; write_pieces(&mut writer, plain.as_bytes(), size).is_ok());
            assert_eq!(rt;
                writer.sink.bytes.as_slice(),
                named.as_bytes(),
                "at {plain:?}"
            );
        }
    }
    Ok(())
}

#[test]
fn failed_writer_has_the_first_bytes(rt: HostRuntime) -> Result<(), NamesErr> {
    for (plain, lists, named) in ANSWERS {
        for most in 0..named.len() {
            let mut writer = NamedSink::new(rt.alloc(), sink(rt.alloc(), 3, most));
            writer.begin(read_names(rt.alloc(), NAMES.as_bytes())?, lists);
            assert!(rt; write_pieces(&mut writer, plain.as_bytes(), 5).is_err());
            assert!(rt; writer.failed());
            assert!(rt; write_all(&mut writer, b"more").is_err());
            assert_eq!(rt;
                writer.sink.bytes.as_slice(),
                named.as_bytes().get(..most).unwrap_or_default(),
                "at {plain:?}"
            );
        }
    }
    Ok(())
}

// Lines, and the number of the first faulty one; 0 where none is.
type Fault = (&'static str, usize);

const FAULTS: [Fault; 24] = [
    ("", 0),
    ("\n \t\n\r\nthread 0 a\r\n", 0),
    ("thread 0 a\nthread 0 b", 0),
    ("thread  4294967296\tname", 0),
    ("object 0 word", 0),
    ("00010000  a b ", 0),
    ("thread 0 caf\u{e9}\nobject 1 word 2 \u{b5}", 0),
    ("thread 0", 1),
    ("thread 0 a b", 1),
    ("thread 0x1 a", 1),
    ("thread -1 a", 1),
    ("thread 12345678901 a", 1),
    ("threads 0 a", 1),
    ("Thread 0 a", 1),
    ("object 1 word 2", 1),
    ("object 1 words 2 a", 1),
    ("object 1 word x a", 1),
    ("object 1 word 2 a b", 1),
    ("thread 1 word 2 a", 1),
    ("00010000", 1),
    ("00010000 ", 1),
    ("0001000 a", 1),
    ("thread 0 a\n\n00010000 a\u{7f}b", 3),
    ("thread 0 a\nthread 1 \u{85}\nx", 2),
];

#[test]
fn first_faulty_line_is_told(rt: HostRuntime) -> Result<(), AllocError> {
    for (text, number) in FAULTS {
        match read_names(rt.alloc(), text.as_bytes()) {
            Ok(_) => assert_eq!(rt; 0, number, "at {text:?}"),
            Err(error) => assert_eq!(rt; error, NamesErr::Line(number), "at {text:?}"),
        }
    }
    Ok(())
}

#[test]
fn names_have_at_most_4096_bytes(rt: HostRuntime) -> Result<(), NamesErr> {
    for (size, is_read) in [(4096, true), (4097, false)] {
        let mut line = Vec::new(rt.alloc());
        line.extend_from_slice(b"thread 0 ")?;
        for _ in 0..size {
            line.push(b'n')?;
        }
        assert_eq!(rt;
            read_names(rt.alloc(), line.as_slice()).is_ok(),
            is_read,
            "at {size}"
        );
    }
    Ok(())
}
