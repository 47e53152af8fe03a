//! The larger forms of guests and of traces: words of an object, threads and objects.

use crate::guests::{ECALL, ENTER_WRITE, FIRST_OBJECT, PUT, allowed};
use crate::trace_tests::refusal;
use ir_flat::Flat;
use ir_thread::Profile;
use ir_trace::{read_trace, write_trace};
use std::alloc::{AllocError, Global};
use std::test::Fail;

const EBREAK: u32 = 0x0010_0073;

// addi a1, zero, index
fn second_argument(index: u8) -> u32 {
    0x0000_0593 | (index as u32) << 20
}

// The image, of the form that this byte of its magic says, of a thread that enters an object of zeros for writing and puts
// the thread's own word into the word of this index.
fn putting(alloc: Global, form: u8, index: u8) -> Result<Vec<u8>, AllocError> {
    let mut bytes = Vec::from_slice(alloc, &[0x49, 0x52, 0x49, form, 1, 1])?;
    bytes.extend_from_slice(&[7, 0, 0, 0, 0, 0, 0, 0, 0, 0, 1, 0])?;
    for word in [
        FIRST_OBJECT,
        ENTER_WRITE,
        ECALL,
        second_argument(index),
        PUT,
        ECALL,
        EBREAK,
    ] {
        bytes.extend_from_slice(&word.to_le_bytes())?;
    }
    let words = if form == SMALL { 8 } else { 16 };
    bytes.resize(46 + 4 * words, 0)?;
    Ok(bytes)
}

const SMALL: u8 = 0x31;

const LARGE: u8 = 0x32;

// Its end, and how many steps it takes.
fn end_of(alloc: Global, form: u8, index: u8) -> Result<Option<(u8, u64)>, Fail> {
    let bytes = putting(alloc, form, index)?;
    let image = allowed(alloc, Profile::One, bytes.as_slice())?;
    let mut flat = Flat::start(alloc, &image, 1000, Profile::One)?;
    for _ in 0..8 {
        if !flat.threads().is_empty() {
            let _ = flat.step(0, 0);
        }
    }
    match flat.threads() {
        [thread] => Ok(thread.ended().map(|end| (end.number(), thread.steps()))),
        _ => Ok(None),
    }
}

// A form, the index of a word, the end and how many steps: a thread that ends inside leaves after it.
const PUTS: [(u8, u8, (u8, u64)); 4] = [
    (SMALL, 7, (2, 8)),
    (SMALL, 8, (9, 7)),
    (LARGE, 15, (2, 8)),
    (LARGE, 16, (9, 7)),
];

#[test]
fn a_word_that_the_form_lacks_ends_the_thread(rt: HostRuntime) -> Result<(), Fail> {
    for &(form, index, end) in &PUTS {
        assert_eq!(rt; end_of(rt.alloc(), form, index)?, Some(end), "{index}");
    }
    Ok(())
}

// A trace of `threads` threads, each with two steps and a breakpoint as its end, and of `objects` objects.
fn trace(alloc: Global, form: u8, threads: u8, objects: u8) -> Result<Vec<u8>, AllocError> {
    let mut bytes = Vec::from_slice(alloc, &[0x49, 0x52, 0x54, form, threads, objects])?;
    bytes.extend_from_slice(&[0, 0, 0xe8, 3, 0, 0, 0, 0, 0, 0])?;
    for _ in 0..threads {
        bytes.extend_from_slice(&[2, 0, 0, 0, 0, 0, 0, 0, 2, 0, 0, 0, 0, 0, 0, 0, 0])?;
    }
    Ok(bytes)
}

// A form, threads, objects, and the number of the refusal of such a trace, if it is refused.
const COUNTS: [(u8, u8, u8, Option<u8>); 10] = [
    (SMALL, 8, 16, None),
    (SMALL, 9, 16, Some(3)),
    (SMALL, 8, 17, Some(3)),
    (SMALL, 0, 16, Some(3)),
    (LARGE, 16, 64, None),
    (LARGE, 9, 17, None),
    (LARGE, 1, 0, None),
    (LARGE, 17, 64, Some(3)),
    (LARGE, 16, 65, Some(3)),
    (LARGE, 0, 64, Some(3)),
];

#[test]
fn a_trace_has_the_threads_and_objects_of_its_form(rt: HostRuntime) -> Result<(), Fail> {
    for &(form, threads, objects, wanted) in &COUNTS {
        let bytes = trace(rt.alloc(), form, threads, objects)?;
        let refused = refusal(rt.alloc(), bytes.as_slice());
        assert_eq!(rt; refused, wanted, "{threads} {objects}");
    }
    Ok(())
}

#[test]
fn the_largest_trace_is_written_as_it_was(rt: HostRuntime) -> Result<(), Fail> {
    let bytes = trace(rt.alloc(), LARGE, 16, 64)?;
    let trace = read_trace(rt.alloc(), bytes.as_slice())?;
    let written = write_trace(rt.alloc(), &trace)?;
    assert_eq!(rt; written.as_slice(), bytes.as_slice());
    Ok(())
}
