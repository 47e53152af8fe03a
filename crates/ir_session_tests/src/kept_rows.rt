//! Sessions that keep cuts and go back to them.

use crate::sessions::{Said, are_answered, files_of, is_answered};
use ir_tests::guests::TWO_COUNTERS;
use ir_tests::traces::SECOND_FIRST;
use std::test::Fail;

const KEPT: [Said; 6] = [
    ("back 0 99\nkept\n", "ready\nat 0 0 start\n0 at 0 0\n"),
    // A kept cut is left and loaded, dropped, and its number isn't used again.
    (
        "step 0 3\nkeep\nstart\nload 1\nkept\ndrop 1\nkeep\ndrop 1\nkept\n",
        "ready\nat 3 15\nkept 1\nat 0 0\nat 3 15\n0 at 0 0\n1 at 3 15\ndropped 1\nkept 2\n\
refused 5 no such number\n0 at 0 0\n2 at 3 15\n",
    ),
    // What is shown after a load is of the kept cut, its objects too.
    (
        "step 0 3\nkeep\nend\nobj 0\nload 1\nobj 0\nlog 0\nload 0\npos\nobj 0\n",
        "ready\nat 3 15\nkept 1\nat 18 18\nversion 2 left 0 readers - writer -\n\
words 00000002 00000000 00000000 00000000 00000000 00000000 00000000 00000000\nat 3 15\n\
version 1 left 0 readers - writer 0\n\
words 00000001 00000000 00000000 00000000 00000000 00000000 00000000 00000000\nlog 1 of 1\n\
0 write 0 version 1 readers 0\nat 0 0\nat 0 0\nversion 0 left 0 readers - writer -\n\
words 00000000 00000000 00000000 00000000 00000000 00000000 00000000 00000000\n",
    ),
    // The start isn't dropped, and no number but those of kept cuts is there.
    (
        "drop 0\nload 1\ndrop 1\nkeep\ndrop 0\nload 4294967295\ndrop 2\nkept\n",
        "ready\nrefused 5 no such number\nrefused 5 no such number\nrefused 5 no such number\n\
kept 1\nrefused 5 no such number\nrefused 5 no such number\nrefused 5 no such number\n\
0 at 0 0\n1 at 0 0\n",
    ),
    // Others stay when one between them is dropped; one cut may be kept twice.
    (
        "keep\nstep 1 2\nkeep\nkeep\ndrop 2\nkept\nload 3\n",
        "ready\nkept 1\nat 0 2\nkept 2\nkept 3\ndropped 2\n0 at 0 0\n1 at 0 0\n3 at 0 2\nat 0 2\n",
    ),
    (
        "keep 1\nload\ndrop x\nkept 0\nKEEP\n",
        "ready\nrefused 2 bad argument\nrefused 2 bad argument\nrefused 2 bad argument\n\
refused 2 bad argument\nrefused 1 unknown command\n",
    ),
];

#[test]
fn kept_cuts_are_answered(rt: HostRuntime) -> Result<(), Fail> {
    are_answered(&rt, TWO_COUNTERS, SECOND_FIRST, &KEPT)
}

// Lines that keep the cut `times` times, and what is answered.
fn keep_lines(rt: &HostRuntime, times: u32) -> Result<(String, String), Fail> {
    let mut lines = String::new(rt.alloc());
    let mut answers = format!(in rt.alloc(); "ready\n")?;
    for before in 0..times {
        let number = before + 1;
        lines.push_str("keep\n")?;
        let answer = format!(in rt.alloc(); "kept {number}\n")?;
        answers.push_str(answer.as_str())?;
    }
    Ok((lines, answers))
}

// Those and more, when 64 are kept.
fn lines_when_full(rt: &HostRuntime) -> Result<(String, String), Fail> {
    let (mut lines, mut answers) = keep_lines(rt, 64)?;
    lines.push_str("keep\ndrop 64\nkeep\nkeep\nload 65\n")?;
    answers.push_str("refused 9 full\ndropped 64\nkept 65\nrefused 9 full\nat 0 0\n")?;
    Ok((lines, answers))
}

#[test]
fn sixty_four_are_kept_beside_the_start(rt: HostRuntime) -> Result<(), Fail> {
    let (lines, answers) = lines_when_full(&rt)?;
    let files = files_of(rt.alloc(), TWO_COUNTERS, SECOND_FIRST)?;
    assert!(rt; is_answered(&rt, &files, lines.as_bytes(), answers.as_bytes()));
    Ok(())
}
