//! Guests of the larger form, assembled and recorded.

use crate::record_tests::{HOW, How, WITH_TRIES, image, recorded};
use std::test::Fail;

// Enters object 0 for writing, puts 7 into its word 15, and breaks.
const LAST_WORD: &str = "
        addi a0, zero, 0
        addi a7, zero, 8
        ecall
        addi a1, zero, 15
        addi a2, zero, 7
        addi a7, zero, 11
        ecall
        ebreak
";

// Prints a byte, doubles it and ends with it.
const DOUBLE: &str = "
main:   addi a0, zero, 72
        addi a7, zero, 2
        ecall
        add a0, a0, a0
        addi a7, zero, 1
        ecall
";

const ONE_OBJECT: &str = ".objects 1\n";

const LARGE: &str = ".large\n";

const AT_MAIN: &str = ".thread main\n";

// Parts of a source, and the thread's line.
const PUTS: [([&str; 3], &[u8]); 2] = [
    (
        [LARGE, ONE_OBJECT, LAST_WORD],
        b"thread 0 end 2 code 0 steps 9 events 1\n",
    ),
    (
        ["", ONE_OBJECT, LAST_WORD],
        b"thread 0 end 9 code 0 steps 8 events 1\n",
    ),
];

fn joined(rt: &HostRuntime, parts: &[&str]) -> Result<String, Fail> {
    let mut source = String::new(rt.alloc());
    for part in parts {
        source.push_str(part)?;
    }
    Ok(source)
}

#[test]
fn the_last_word_is_there_in_the_large_form(rt: HostRuntime) -> Result<(), Fail> {
    for (parts, line) in &PUTS {
        let source = joined(&rt, parts)?;
        let image = image(&rt, source.as_str());
        let run = recorded(&rt, image.as_slice(), HOW);
        assert_eq!(rt; run.out.bytes.as_slice(), *line);
    }
    Ok(())
}

// The image of `threads` threads that double, and of the objects that a statement counts, in the large form.
fn doubling(rt: &HostRuntime, threads: u32, objects: &str) -> Result<Vec<u8>, Fail> {
    let mut source = String::from_str(rt.alloc(), LARGE)?;
    source.push_str(objects)?;
    for _ in 0..threads {
        source.push_str(AT_MAIN)?;
    }
    source.push_str(DOUBLE)?;
    Ok(image(rt, source.as_str()))
}

const NINE_LINES: &[u8] = b"thread 0 end 1 code 144 steps 6 events 0
thread 1 end 1 code 144 steps 6 events 0
thread 2 end 1 code 144 steps 6 events 0
thread 3 end 1 code 144 steps 6 events 0
thread 4 end 1 code 144 steps 6 events 0
thread 5 end 1 code 144 steps 6 events 0
thread 6 end 1 code 144 steps 6 events 0
thread 7 end 1 code 144 steps 6 events 0
thread 8 end 1 code 144 steps 6 events 0
";

#[test]
fn nine_threads_are_recorded_with_the_second_profile(rt: HostRuntime) -> Result<(), Fail> {
    let image = doubling(&rt, 9, "")?;
    for order in [Some("0"), Some("8x3,4"), None] {
        let how = How {
            order,
            ..WITH_TRIES
        };
        let run = recorded(&rt, image.as_slice(), how);
        assert_eq!(rt; run.out.bytes.as_slice(), NINE_LINES);
        assert_eq!(rt; run.trace.bytes.get(..6), Some(b"IRT2\x09\0".as_slice()));
    }
    Ok(())
}

// Threads and objects that are one too many for the first profile.
const TOO_MANY: [(u32, &str); 2] = [(9, ""), (1, ".objects 17\n")];

const REFUSED: &[u8] =
    b"ir: the first profile takes at most 8 threads and 16 objects, and --profile 2 takes more\n";

#[test]
fn more_threads_or_objects_want_the_second_profile(rt: HostRuntime) -> Result<(), Fail> {
    for &(threads, objects) in &TOO_MANY {
        let image = doubling(&rt, threads, objects)?;
        for order in [Some("0"), None] {
            let run = recorded(&rt, image.as_slice(), How { order, ..HOW });
            assert_eq!(rt; run.status, 3);
            assert!(rt; run.trace.bytes.is_empty() && run.out.bytes.is_empty());
            assert_eq!(rt; run.faults.bytes.as_slice(), REFUSED);
        }
    }
    Ok(())
}

#[test]
fn the_first_profile_takes_what_is_small_of_the_large_form(rt: HostRuntime) -> Result<(), Fail> {
    let image = doubling(&rt, 8, ".objects 16\n")?;
    let run = recorded(&rt, image.as_slice(), HOW);
    assert_eq!(rt; run.status, 0);
    assert_eq!(rt; run.trace.bytes.get(..6), Some(b"IRT1\x08\x10".as_slice()));
    Ok(())
}
