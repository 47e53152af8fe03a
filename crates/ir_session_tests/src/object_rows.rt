//! Sessions that show objects and events.

use crate::sessions::{Said, are_answered};
use ir_tests::guests::{
    BROKEN_INSIDE, EACH_EVENT, READ_THEN_WRITE, READERS_AND_WRITER, Source, WRITER_AND_READERS,
    WRITER_BETWEEN,
};
use ir_tests::traces::EventRow::{Clock, Input, Random, Read, Write};
use ir_tests::traces::{READ_AND_WRITTEN, Ran, TraceRow};
use std::test::Fail;

// A guest with one object, what its threads ran, and a session.
type Stopped = (Source, &'static [Ran], Said);

// Each thread stops inside.
const STOPPED: [Stopped; 5] = [
    (
        READERS_AND_WRITER,
        &[
            Ran(5, 2, 0, &[Read(0, 0)]),
            Ran(5, 2, 0, &[Read(0, 0)]),
            Ran(5, 2, 0, &[Write(0, 0, 1)]),
        ],
        ("", "incoherent thread 2 event 0 cause 3\n"),
    ),
    (
        READERS_AND_WRITER,
        &[
            Ran(5, 2, 0, &[Read(0, 0)]),
            Ran(5, 2, 0, &[Read(0, 0)]),
            Ran(5, 2, 0, &[Write(0, 0, 2)]),
        ],
        (
            "step 2 3\nback 1 1\nobj 0\ngoto 0 3\ngoto 1 3\nobj 0\n",
            "ready\nat 5 5 3\nat 5 4 2\nversion 0 left 1 readers 1 writer -\n\
words 00000000 00000000 00000000 00000000 00000000 00000000 00000000 00000000\nat 3 4 2\n\
at 3 3 2\nversion 0 left 0 readers 0,1 writer -\n\
words 00000000 00000000 00000000 00000000 00000000 00000000 00000000 00000000\n",
        ),
    ),
    (
        BROKEN_INSIDE,
        &[Ran(9, 2, 0, &[Write(0, 0, 0)])],
        (
            "end\nobj 0\nback 0 1\nnext 0\nobj 0\nback 0 1\nnext 0\n",
            "ready\nat 9\nversion 1 left 0 readers - writer -\n\
words 00000007 00000000 00000000 00000000 00000000 00000000 00000000 00000000\nat 8\n\
next give back 0\nversion 0 left 0 readers - writer 0\n\
words 00000007 00000000 00000000 00000000 00000000 00000000 00000000 00000000\nat 7\n\
next 0001001c ebreak\n",
        ),
    ),
    (
        WRITER_AND_READERS,
        &[
            Ran(5, 2, 0, &[Write(0, 0, 2)]),
            Ran(5, 2, 0, &[Read(0, 0)]),
            Ran(5, 2, 0, &[Read(0, 0)]),
        ],
        (
            "step 0 2\nstep 0 1\nobj 0\nback 2 1\nobj 0\nback 2 2\nobj 0\nend\nobj 0\n",
            "ready\nat 2 0 0\nat 3 5 5\nversion 0 left 2 readers - writer 0\n\
words 00000000 00000000 00000000 00000000 00000000 00000000 00000000 00000000\nat 2 5 4\n\
version 0 left 1 readers 2 writer -\n\
words 00000000 00000000 00000000 00000000 00000000 00000000 00000000 00000000\nat 2 5 2\n\
version 0 left 1 readers - writer -\n\
words 00000000 00000000 00000000 00000000 00000000 00000000 00000000 00000000\nat 5 5 5\n\
version 1 left 0 readers - writer -\n\
words 00000000 00000000 00000000 00000000 00000000 00000000 00000000 00000000\n",
        ),
    ),
    (
        WRITER_BETWEEN,
        &[
            Ran(5, 2, 0, &[Read(0, 1)]),
            Ran(5, 2, 0, &[Write(0, 0, 1)]),
            Ran(5, 2, 0, &[Read(0, 0)]),
        ],
        (
            "step 0 3\nobj 0\nback 2 1\nend\nobj 0\n",
            "ready\nat 3 5 5\nversion 1 left 0 readers 0 writer -\n\
words 00000000 00000000 00000000 00000000 00000000 00000000 00000000 00000000\nat 2 2 4\n\
at 5 5 5\nversion 1 left 1 readers - writer -\n\
words 00000000 00000000 00000000 00000000 00000000 00000000 00000000 00000000\n",
        ),
    ),
];

// Who is inside, and how many left.
const LEFT: [Said; 2] = [
    (
        "goto 0 7\nobj 0\ngoto 0 3\nobj 0\n",
        "ready\nat 7\nversion 0 left 1 readers - writer 0\n\
words 00000000 00000000 00000000 00000000 00000000 00000000 00000000 00000000\nat 3\n\
version 0 left 0 readers 0 writer -\n\
words 00000000 00000000 00000000 00000000 00000000 00000000 00000000 00000000\n",
    ),
    (
        "end\nobj 0\nback 0 3\nobj 0\ngoto 0 4\nobj 0\ngoto 0 5\nobj 0\nnext 0\n",
        "ready\nat 11\nversion 1 left 0 readers - writer -\n\
words 00000000 00000000 00000000 00000000 00000000 00000000 00000000 00000000\nat 8\n\
version 0 left 1 readers - writer 0\n\
words 00000000 00000000 00000000 00000000 00000000 00000000 00000000 00000000\nat 4\n\
version 0 left 0 readers 0 writer -\n\
words 00000000 00000000 00000000 00000000 00000000 00000000 00000000 00000000\nat 5\n\
version 0 left 1 readers - writer -\n\
words 00000000 00000000 00000000 00000000 00000000 00000000 00000000 00000000\n\
next 00010014 addi a7, zero, 8\n",
    ),
];

// What is logged.
const LOGGED: TraceRow = TraceRow {
    objects: 3,
    budget: 1000,
    threads: &[Ran(
        15,
        2,
        0,
        &[
            Clock(4294967295),
            Random(7),
            Input(255),
            Read(1, 0),
            Write(2, 0, 0),
        ],
    )],
};

const LOGS: [Said; 1] = [(
    "log 0\nstep 0 2\nlog 0\nend\nlog 0\nback 0 1\nnext 0\nback 0 1\nnext 0\n",
    "ready\nlog 0 of 5\nat 2\nlog 1 of 5\n0 clock 4294967295\nat 15\nlog 5 of 5\n\
0 clock 4294967295\n1 random 7\n2 input 255\n3 read 1 version 0\n\
4 write 2 version 0 readers 0\nat 14\nnext give back 1\nat 13\nnext give back 2\n",
)];

#[test]
fn stopped_threads_are_shown(rt: HostRuntime) -> Result<(), Fail> {
    for &(guest, threads, said) in &STOPPED {
        let trace = TraceRow {
            objects: 1,
            budget: 1000,
            threads,
        };
        are_answered(&rt, guest, trace, &[said])?;
    }
    Ok(())
}

#[test]
fn objects_are_shown(rt: HostRuntime) -> Result<(), Fail> {
    are_answered(&rt, READ_THEN_WRITE, READ_AND_WRITTEN, &LEFT)
}

#[test]
fn events_are_shown(rt: HostRuntime) -> Result<(), Fail> {
    are_answered(&rt, EACH_EVENT, LOGGED, &LOGS)
}
