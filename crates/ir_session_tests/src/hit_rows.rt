//! Sessions that set points and go on to where they hit.

use crate::sessions::{Said, are_answered, files_of, is_answered};
use ir_tests::guests::{
    BROKEN_INSIDE, CHANGED_ONCE, COUNTED_THRICE, DOUBLED, READ_THEN_WRITE, Source, TWO_COUNTERS,
};
use ir_tests::traces::EventRow::Write;
use ir_tests::traces::{ENDED_BY_144, READ_AND_WRITTEN, Ran, SECOND_FIRST, TWICE_STORED, TraceRow};
use std::test::Fail;

const OF_TWO: [Said; 7] = [
    (
        "break 0 0x1001c\ncont 0\ncont 0\nrcont 0\n",
        "ready\npoint 1\nat 7 15 hit 1\nat 18 15 end\nat 7 15 hit 1\n",
    ),
    // A thread's leave hits that thread alone; others move as far as it needs.
    (
        "owatch 0\ncont 0\ncont 1\nrcont 1\nrcont 1\n",
        "ready\npoint 1\nat 15 15 hit 1\nat 15 18 end\nat 15 15 hit 1\nat 2 0 start\n",
    ),
    // The lowest number of those that hit is named; a breakpoint at the entry hits at 0.
    (
        "break 0 0x1001c\nbreak 0 0x1001c\ncont 0\nclear 1\nrcont 0\ncont 0\nbreak 0 0x10000\nrcont 0\n\
rcont 0\nbreak 1 0x10000\nrcont 1\n",
        "ready\npoint 1\npoint 2\nat 7 15 hit 1\ncleared 1\nat 0 15 start\nat 7 15 hit 2\npoint 3\n\
at 0 15 hit 3 start\nat 0 15 start\npoint 4\nat 0 0 hit 4 start\n",
    ),
    // Without points it goes to the end of its steps; what another thread's points say doesn't matter.
    (
        "cont 1\nrcont 1\nbreak 1 0x1001c\ncont 0\nrcont 0\nend\nrcont 0\nrcont 1\n",
        "ready\nat 0 18 end\nat 0 0 start\npoint 1\nat 18 15 end\nat 0 15 start\nat 18 18\n\
at 0 18 start\nat 0 7 hit 1\n",
    ),
    // A number isn't used again.
    (
        "owatch 0\nclear 1\nowatch 0\nclear 2\nclear 2\nowatch 0\nclear 0\nclear 4294967295\n",
        "ready\npoint 1\ncleared 1\npoint 2\ncleared 2\nrefused 5 no such number\npoint 3\n\
refused 5 no such number\nrefused 5 no such number\n",
    ),
    // A thread that there isn't comes before an address that there isn't.
    (
        "break 2 0x10002\nbreak 2\nbreak 0 0x100000\nbreak 0 0xfffc\nbreak 0 0x10002\n\
break 0 0x10048\nbreak 0 0x10044\nwatch 0 0x10000\nwatch 0 0x100002\nwatch 0 0x10fffc\n\
watch 0 0x110000\nwatch 0 4294967292\nowatch 1\ncont 2\nrcont 4294967295\n",
        "ready\nrefused 3 no such thread\nrefused 2 bad argument\nrefused 6 bad address\n\
refused 6 bad address\nrefused 6 bad address\nrefused 6 bad address\npoint 1\n\
refused 6 bad address\nrefused 6 bad address\npoint 2\nrefused 6 bad address\n\
refused 6 bad address\nrefused 4 no such object\nrefused 3 no such thread\n\
refused 3 no such thread\n",
    ),
    // What is shown at a hit is of that place, and points stay over moves and kept cuts.
    (
        "owatch 0\nkeep\ncont 1\nnext 1\nload 1\nstep 0 3\nobj 0\ncont 1\nrcont 1\n",
        "ready\npoint 1\nkept 1\nat 0 15 hit 1\nnext 0001003c addi a0, zero, 0\nat 0 0\nat 3 15\n\
version 1 left 0 readers - writer 0\n\
words 00000001 00000000 00000000 00000000 00000000 00000000 00000000 00000000\nat 3 18 end\n\
at 3 15 hit 1\n",
    ),
];

// Of `CHANGED_ONCE`.
// Of `BROKEN_INSIDE`.
const RELEASED: TraceRow = TraceRow {
    objects: 1,
    budget: 1000,
    threads: &[Ran(9, 2, 0, &[Write(0, 0, 0)])],
};

// A guest of one thread, its trace, and a session.
type Continued = (Source, TraceRow, Said);

const OF_ONE: [Continued; 6] = [
    // The second store leaves the word as it is.
    (
        CHANGED_ONCE,
        TWICE_STORED,
        (
            "watch 0 0x100000\ncont 0\ncont 0\nrcont 0\nrcont 0\n",
            "ready\npoint 1\nat 2 hit 1\nat 5 end\nat 2 hit 1\nat 0 start\n",
        ),
    ),
    // The word beside it doesn't change.
    (
        CHANGED_ONCE,
        TWICE_STORED,
        (
            "watch 0 0x100004\ncont 0\nwatch 0 0x100000\nrcont 0\nclear 2\ncont 0\n",
            "ready\npoint 1\nat 5 end\npoint 2\nat 2 hit 2\ncleared 2\nat 5 end\n",
        ),
    ),
    // Where a thread has ended its pc stays, which is no hit at its last position.
    (
        DOUBLED,
        ENDED_BY_144,
        (
            "break 0 0x10014\ncont 0\ncont 0\ncont 0\nrcont 0\nrcont 0\n",
            "ready\npoint 1\nat 5 hit 1\nat 6 end\nat 6 end\nat 5 hit 1\nat 0 start\n",
        ),
    ),
    // A breakpoint where the thread is is left out, both ways.
    (
        DOUBLED,
        ENDED_BY_144,
        (
            "break 0 0x10000\ncont 0\nrcont 0\nstep 0 1\nrcont 0\nrcont 0\n",
            "ready\npoint 1\nat 6 end\nat 0 hit 1 start\nat 1\nat 0 hit 1 start\nat 0 start\n",
        ),
    ),
    // While it releases what it holds its pc stays too; a release of what was written hits, at its last position.
    (
        BROKEN_INSIDE,
        RELEASED,
        (
            "owatch 0\nbreak 0 0x1001c\ncont 0\ncont 0\ncont 0\nrcont 0\nrcont 0\nrcont 0\n",
            "ready\npoint 1\npoint 2\nat 7 hit 2\nat 8 hit 2\nat 9 hit 1 end\nat 8 hit 2\n\
at 7 hit 2\nat 0 start\n",
        ),
    ),
    // Leaves after reading don't hit.
    (
        READ_THEN_WRITE,
        READ_AND_WRITTEN,
        (
            "owatch 0\ncont 0\ncont 0\nrcont 0\nrcont 0\n",
            "ready\npoint 1\nat 9 hit 1\nat 11 end\nat 9 hit 1\nat 0 start\n",
        ),
    ),
];

// Of `COUNTED_THRICE`.
const TWO_WINDOWS: TraceRow = TraceRow {
    objects: 0,
    budget: 10_000_000,
    threads: &[Ran(3_145_740, 1, 0, &[])],
};

// Searches that go over more than two stretches, and so over states that are kept on the way.
const OF_STRETCHES: [Said; 4] = [
    // A hit in each.
    (
        "break 0 0x10004\ncont 0\ncont 0\ncont 0\ncont 0\nrcont 0\nrcont 0\nrcont 0\nrcont 0\nrcont 0\n",
        "ready\npoint 1\nat 1 hit 1\nat 1048580 hit 1\nat 2097159 hit 1\nat 3145740 end\nat 2097159 hit 1\n\
at 1048580 hit 1\nat 1 hit 1\nat 0 start\nat 0 start\n",
    ),
    // At the start alone.
    (
        "break 0 0x10000\nend\nrcont 0\nrcont 0\n",
        "ready\npoint 1\nat 3145740\nat 0 hit 1 start\nat 0 start\n",
    ),
    // Where a state is kept, from far above and from right above; and where one is kept and the thread is there.
    (
        "goto 0 1048580\nkeep\nbreak 0 0x10004\nend\nrcont 0\nrcont 0\nstep 0 1\nrcont 0\nrcont 0\n",
        "ready\nat 1048580\nkept 1\npoint 1\nat 3145740\nat 2097159 hit 1\nat 1048580 hit 1\n\
at 1048581\nat 1048580 hit 1\nat 1 hit 1\n",
    ),
    // Nowhere, both ways.
    (
        "watch 0 0x100000\ncont 0\nrcont 0\n",
        "ready\npoint 1\nat 3145740 end\nat 0 start\n",
    ),
];

#[test]
fn long_ways_are_continued(rt: HostRuntime) -> Result<(), Fail> {
    are_answered(&rt, COUNTED_THRICE, TWO_WINDOWS, &OF_STRETCHES)
}

#[test]
fn two_threads_are_continued(rt: HostRuntime) -> Result<(), Fail> {
    are_answered(&rt, TWO_COUNTERS, SECOND_FIRST, &OF_TWO)
}

#[test]
fn one_thread_is_continued(rt: HostRuntime) -> Result<(), Fail> {
    for &(guest, trace, said) in &OF_ONE {
        are_answered(&rt, guest, trace, &[said])?;
    }
    Ok(())
}

// Lines that set a point `times` times, and what is answered.
fn point_lines(rt: &HostRuntime, times: u32) -> Result<(String, String), Fail> {
    let mut lines = String::new(rt.alloc());
    let mut answers = format!(in rt.alloc(); "ready\n")?;
    for before in 0..times {
        let number = before + 1;
        lines.push_str("owatch 0\n")?;
        let answer = format!(in rt.alloc(); "point {number}\n")?;
        answers.push_str(answer.as_str())?;
    }
    Ok((lines, answers))
}

// Those and more, when 64 are set.
fn lines_when_full(rt: &HostRuntime) -> Result<(String, String), Fail> {
    let (mut lines, mut answers) = point_lines(rt, 64)?;
    lines.push_str(
        "owatch 0\nbreak 0 0x10002\nowatch 1\nclear 7\nbreak 0 0x10044\nowatch 0\ncont 1\n",
    )?;
    answers.push_str("refused 9 full\nrefused 6 bad address\nrefused 4 no such object\n")?;
    answers.push_str("cleared 7\npoint 65\nrefused 9 full\nat 0 15 hit 1\n")?;
    Ok((lines, answers))
}

#[test]
fn sixty_four_points_are_set(rt: HostRuntime) -> Result<(), Fail> {
    let (lines, answers) = lines_when_full(&rt)?;
    let files = files_of(rt.alloc(), TWO_COUNTERS, SECOND_FIRST)?;
    assert!(rt; is_answered(&rt, &files, lines.as_bytes(), answers.as_bytes()));
    Ok(())
}
