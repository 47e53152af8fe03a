//! Sessions of guests of one thread without objects.

use crate::sessions::{Said, are_answered};
use ir_tests::guests::{
    CALL_OF_ZERO, DOUBLED, DOUBLED_UNENDED, FORTY_BYTES, ILLEGAL_WORDS, NO_INSTRUCTION, ONE_NOP,
    Source,
};
use ir_tests::traces::{ENDED_BY_144, Ran, TraceRow};
use std::test::Fail;

// What a session opens with, and where it ends.
const OPENED: [Said; 4] = [
    (
        "step 0 3\nregs 0\nstep 0 9\n",
        "ready\nat 3\npc 0001000c\nzero=00000000 ra=00000000 sp=00110000 gp=00000000\n\
tp=00000000 t0=00000000 t1=00000000 t2=00000000\n\
s0=00000000 s1=00000000 a0=00000048 a1=00000000\n\
a2=00000000 a3=00000000 a4=00000000 a5=00000000\n\
a6=00000000 a7=00000002 s2=00000000 s3=00000000\n\
s4=00000000 s5=00000000 s6=00000000 s7=00000000\n\
s8=00000000 s9=00000000 s10=00000000 s11=00000000\n\
t3=00000000 t4=00000000 t5=00000000 t6=00000000\nat 6 end\n",
    ),
    ("step 0 3\nquit\nstep 0 1\n", "ready\nat 3\nbye\n"),
    ("regs 1\n", "ready\nrefused 3 no such thread\n"),
    (
        "step 0 0\nstep 0 4294967295\n",
        "ready\nat 0 start\nat 6 end\n",
    ),
];

// Numbers, blanks, and the last line.
const LINES: [Said; 5] = [
    (
        "step 0 0x2\n  step\t0  \t0001\nstep 0 0\nstep\nstep 0\nstep 0 1 1\nstep 0 -1\nstep 0 +1\n\
step 0 4294967296\nstep 0 0xg\nstep 0 0X1\nstep 0 0x\nstep 4294967295 0\nstep 4294967296 0\n\
step 0 000000000000000000001\nstep 0 00000000000000000001\nstep 0 0x0000000000000001\n\
step 0 0x00000000000000001\n\n \t \n\r\nSTEP 0 1\nstep\r\nregs\n",
        "ready\nat 2\nat 3\nat 3\nrefused 2 bad argument\nrefused 2 bad argument\n\
refused 2 bad argument\nrefused 2 bad argument\nrefused 2 bad argument\n\
refused 2 bad argument\nrefused 2 bad argument\nrefused 2 bad argument\n\
refused 2 bad argument\nrefused 3 no such thread\nrefused 2 bad argument\n\
refused 2 bad argument\nat 4\nat 5\nrefused 2 bad argument\nrefused 1 unknown command\n\
refused 2 bad argument\nrefused 2 bad argument\n",
    ),
    ("step 0 1\nstep 0 1", "ready\nat 1\nat 2\n"),
    ("step 0 1\n\r", "ready\nat 1\n"),
    ("step 0 1\rstep 0 1\n", "ready\nrefused 2 bad argument\n"),
    ("step 0 1\r\r\n", "ready\nrefused 2 bad argument\n"),
];

// Moves to positions, and what is shown there.
const MOVED: [Said; 2] = [
    (
        "goto 0 18446744073709551615\ngoto 0 0\ngoto 0 0x3\ngoto 0 18446744073709551616\npos\nstart\n\
end\npos\npos 1\nquit 1\nquit\n",
        "ready\nat 6 end\nat 0 start\nat 3\nrefused 2 bad argument\nat 3\nat 0\nat 6\nat 6\n\
refused 2 bad argument\nrefused 2 bad argument\nbye\n",
    ),
    (
        "step 0 3\nout 0\nmem 0 0x10000 4\nmem 0 0x10017 2\nmem 0 0x10017 1\nmem 0 0x1000e 10\n",
        "ready\nat 3\nout 1\n48\n00010000: 13058004\nrefused 6 bad address\n00010017: 00\n\
0001000e: a5009308100073000000\n",
    ),
];

// A budget and what the thread ran of `DOUBLED`, and at which step it disagrees.
const DISAGREEING: [(u64, &[Ran], &str); 5] = [
    (
        1000,
        &[Ran(7, 1, 144, &[])],
        "thread 0 disagrees event 0 step 5\n",
    ),
    (
        1000,
        &[Ran(5, 1, 144, &[])],
        "thread 0 disagrees event 0 step 5\n",
    ),
    (
        1000,
        &[Ran(6, 1, 0, &[])],
        "thread 0 disagrees event 0 step 5\n",
    ),
    (
        2,
        &[Ran(6, 1, 144, &[])],
        "thread 0 disagrees event 0 step 2\n",
    ),
    (
        1000,
        &[Ran(18446744073709551615, 1, 144, &[])],
        "thread 0 disagrees event 0 step 5\n",
    ),
];

// A guest, the budget, what its thread ran, and a session: the end of a thread is a step.
type End = (Source, u64, &'static [Ran], Said);

const ENDS: [End; 8] = [
    (
        NO_INSTRUCTION,
        1000,
        &[Ran(1, 3, 0, &[])],
        ("step 0 1\n", "ready\nat 1 end\n"),
    ),
    (
        DOUBLED_UNENDED,
        1000,
        &[Ran(6, 5, 0, &[])],
        (
            "step 0 99\nregs 0\n",
            "ready\nat 6 end\npc 00010014\nzero=00000000 ra=00000000 sp=00110000 gp=00000000\n\
tp=00000000 t0=00000000 t1=00000000 t2=00000000\n\
s0=00000000 s1=00000000 a0=00000090 a1=00000000\n\
a2=00000000 a3=00000000 a4=00000000 a5=00000000\n\
a6=00000000 a7=00000001 s2=00000000 s3=00000000\n\
s4=00000000 s5=00000000 s6=00000000 s7=00000000\n\
s8=00000000 s9=00000000 s10=00000000 s11=00000000\n\
t3=00000000 t4=00000000 t5=00000000 t6=00000000\n",
        ),
    ),
    (
        CALL_OF_ZERO,
        1000,
        &[Ran(1, 8, 0, &[])],
        ("step 0 1\n", "ready\nat 1 end\n"),
    ),
    (
        DOUBLED,
        0,
        &[Ran(1, 13, 0, &[])],
        ("step 0 5\n", "ready\nat 1 end\n"),
    ),
    (
        DOUBLED,
        5,
        &[Ran(6, 13, 0, &[])],
        ("step 0 5\nstep 0 1\n", "ready\nat 5\nat 6 end\n"),
    ),
    (
        ONE_NOP,
        1000,
        &[Ran(2, 5, 0, &[])],
        (
            "step 0 1\nnext 0\nstep 0 1\nnext 0\n",
            "ready\nat 1\nnext 00010004 none\nat 2 end\nnext done\n",
        ),
    ),
    // Words that are no instructions are shown as they are.
    (
        ILLEGAL_WORDS,
        1000,
        &[Ran(2, 3, 0, &[])],
        (
            "mem 0 0x10004 12\nnext 0\nstep 0 1\nnext 0\nmem 0 0x10000 6\nstep 0 1\nnext 0\nback 0 1\nnext 0\n",
            "ready\n00010004: 0000000093900002ffffffff\nnext 00010000 addi a0, zero, 1\nat 1\n\
next 00010004 .word 0x00000000\n00010000: 130510000000\nat 2 end\nnext done\nat 1\nnext 00010004 .word 0x00000000\n",
        ),
    ),
    (
        FORTY_BYTES,
        1000,
        &[Ran(126, 2, 0, &[])],
        (
            "mem 0 0x100000 17\nmem 0 0x100000 0\nmem 0 0x100000 257\nmem 0 0x10ffff 2\nmem 0 0xfffff 1\n\
mem 0 4294967295 256\nmem 0 0x10ffff 1\nmem 1 0x10ffff 1\nmem 0 4294967296 1\nmem 0 0 1\n\
out 0\nend\nmem 0 0x10ffff 1\nout 0\nmem 0 0x10fff0 16\n",
            "ready\n00100000: 0102030405060708090a0b0c0d0e0f10\n00100010: 11\nrefused 2 bad argument\n\
refused 2 bad argument\nrefused 6 bad address\nrefused 6 bad address\nrefused 6 bad address\n\
0010ffff: 00\nrefused 3 no such thread\nrefused 2 bad argument\nrefused 6 bad address\nout 0\n\
at 126\n0010ffff: 00\nout 40\n\
4141414141414141414141414141414141414141414141414141414141414141\n4141414141414141\n\
0010fff0: 00000000000000000000000000000000\n",
        ),
    ),
];

#[test]
fn sessions_open(rt: HostRuntime) -> Result<(), Fail> {
    are_answered(&rt, DOUBLED, ENDED_BY_144, &OPENED)
}

#[test]
fn lines_are_read(rt: HostRuntime) -> Result<(), Fail> {
    are_answered(&rt, DOUBLED, ENDED_BY_144, &LINES)
}

#[test]
fn moves_are_answered(rt: HostRuntime) -> Result<(), Fail> {
    are_answered(&rt, DOUBLED, ENDED_BY_144, &MOVED)
}

#[test]
fn disagreeing_threads_are_named(rt: HostRuntime) -> Result<(), Fail> {
    for &(budget, threads, verdict) in &DISAGREEING {
        let trace = TraceRow {
            objects: 0,
            budget,
            threads,
        };
        are_answered(&rt, DOUBLED, trace, &[("step 0 1\n", verdict)])?;
    }
    Ok(())
}

#[test]
fn ends_are_steps(rt: HostRuntime) -> Result<(), Fail> {
    for &(guest, budget, threads, said) in &ENDS {
        let trace = TraceRow {
            objects: 0,
            budget,
            threads,
        };
        are_answered(&rt, guest, trace, &[said])?;
    }
    Ok(())
}
