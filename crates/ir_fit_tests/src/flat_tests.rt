//! Guests of a few instructions, stepped by hand.

ghost use Rattle.std.specs.Prelude.{◌≤◌};
ghost use Rattle.ir_thread.specs.State.{most_budget};

use crate::guests::{
    ECALL, ENTER_READ, ENTER_WRITE, EXIT, FIRST_OBJECT, GET, INPUT, LEAVE, PRINT_BYTE,
    PRINT_NUMBER, PUT, guest,
};
use ir_flat::{Flat, NotAdmitted};
use ir_thread::Profile;
use std::alloc::Global;
use std::test::Fail;

// The numbers of two ends.
const NOT_HELD: u8 = 11;

const NO_SUCH_OBJECT: u8 = 9;

// The thread tries `steps` steps, each with this answer.
fn run(flat: &mut Flat, thread: usize, steps: u32, answer: u32) -> Result<(), NotAdmitted> {
    for _ in 0..steps {
        if thread < flat.threads().len() {
            flat.step(thread, answer)?;
        }
    }
    Ok(())
}

// Whether the first thread takes `steps` steps.
fn goes(flat: &mut Flat, steps: u32) -> bool {
    run(flat, 0, steps, 0).is_ok()
}

// The number of the first thread's end, its steps and its events.
fn end_of(flat: &Flat) -> Option<(u8, u64, u32)> {
    let thread = flat.threads().first()?;
    Some((thread.ended()?.number(), thread.steps(), thread.events()))
}

// The word of the first object.
fn word(flat: &Flat) -> Option<u64> {
    flat.objects().first().map(|object| object.word().bits)
}

// What is seen of a state: the first thread's end, the first object's word and the first of the words that it holds.
type Seen = (Option<(u8, u64, u32)>, Option<u64>, Option<u32>);

fn seen(flat: &Flat) -> Seen {
    let held = flat.objects().first().map(|object| object.get(0));
    (end_of(flat), word(flat), held)
}

// The state of the only thread of a guest after `steps` steps, or as many as there are.
fn seen_alone(
    alloc: Global,
    objects: u8,
    code: &[u32],
    budget: u64,
    steps: u32,
) -> Result<Seen, Fail>
    requires { budget ≤ most_budget }
{
    let image = guest(alloc, &[0], objects, code)?;
    let mut flat = Flat::start(alloc, &image, budget, Profile::One)?;
    let _ = run(&mut flat, 0, steps, 0);
    Ok(seen(&flat))
}

// The end of the only thread of a guest.
fn end_alone(alloc: Global, objects: u8, code: &[u32]) -> Result<Option<(u8, u64, u32)>, Fail> {
    let (end, _, _) = seen_alone(alloc, objects, code, 1000, 50)?;
    Ok(end)
}

// Enters for reading, leaves, enters for writing and leaves.
const ENTRIES_AND_LEAVES: [u32; 11] = [
    FIRST_OBJECT,
    ENTER_READ,
    ECALL,
    LEAVE,
    ECALL,
    ENTER_WRITE,
    ECALL,
    LEAVE,
    ECALL,
    EXIT,
    ECALL,
];

// How many steps more are taken, and the word after them.
const WORDS: [(u32, u64); 6] = [
    (0, 0),
    (3, 2),
    (2, 128),
    (2, 129),
    (2, 0x1_0000_0000),
    (2, 0x1_0000_0000),
];

// The first row that isn't so.
fn other_word(flat: &mut Flat) -> Option<usize> {
    for (row, (steps, bits)) in WORDS.iter().enumerate() {
        if !goes(flat, *steps) || word(flat) != Some(*bits) {
            return Some(row);
        }
    }
    None
}

#[test]
fn entries_and_leaves_change_the_word(rt: HostRuntime) -> Result<(), Fail> {
    let image = guest(rt.alloc(), &[0], 1, &ENTRIES_AND_LEAVES)?;
    let mut flat = Flat::start(rt.alloc(), &image, 1000, Profile::One)?;
    assert_eq!(rt; other_word(&mut flat), None);
    assert_eq!(rt; end_of(&flat), Some((1, 11, 2)));
    Ok(())
}

// An object entered for writing, its word 0 set to 7, and a breakpoint while it is held.
const PUT_AND_BREAK: [u32; 8] = [
    FIRST_OBJECT,
    ENTER_WRITE,
    ECALL,
    0x0000_0593,
    0x0070_0613,
    PUT,
    ECALL,
    0x0010_0073,
];

#[test]
fn a_released_write_entry_keeps_its_puts(rt: HostRuntime) -> Result<(), Fail> {
    let seen = seen_alone(rt.alloc(), 1, &PUT_AND_BREAK, 1000, 9)?;
    assert_eq!(rt; seen, (Some((2, 9, 1)), Some(0x1_0000_0000), Some(7)));
    Ok(())
}

#[test]
fn no_step_follows_the_end(rt: HostRuntime) -> Result<(), Fail> {
    let image = guest(rt.alloc(), &[0], 1, &PUT_AND_BREAK)?;
    let mut flat = Flat::start(rt.alloc(), &image, 1000, Profile::One)?;
    assert!(rt; goes(&mut flat, 9));
    assert!(rt; run(&mut flat, 0, 1, 0) == Err(NotAdmitted));
    Ok(())
}

// How many objects a guest has, its code, and the number of its only thread's end, its steps and its events.
type EndRow = (u8, &'static [u32], (u8, u64, u32));

const ENDS: [EndRow; 5] = [
    // Entries rise.
    (
        4,
        &[0x0030_0513, ENTER_READ, ECALL, 0x0020_0513, ECALL],
        (10, 6, 1),
    ),
    // What is not held is not left.
    (1, &[FIRST_OBJECT, LEAVE, ECALL], (NOT_HELD, 3, 0)),
    // Readers put nothing.
    (
        1,
        &[FIRST_OBJECT, ENTER_READ, ECALL, PUT, ECALL],
        (NOT_HELD, 6, 1),
    ),
    // An object has eight words.
    (
        1,
        &[FIRST_OBJECT, ENTER_READ, ECALL, 0x0080_0593, GET, ECALL],
        (NO_SUCH_OBJECT, 7, 1),
    ),
    // Without objects none is entered.
    (
        0,
        &[FIRST_OBJECT, ENTER_READ, ECALL],
        (NO_SUCH_OBJECT, 3, 0),
    ),
];

#[test]
fn each_end(rt: HostRuntime) -> Result<(), Fail> {
    for &(objects, code, wanted) in &ENDS {
        assert_eq!(rt; end_alone(rt.alloc(), objects, code)?, Some(wanted));
    }
    Ok(())
}

// The end of the only thread of a guest, and whether its output is this.
fn printed_alone(
    alloc: Global,
    code: &[u32],
    budget: u64,
    steps: u32,
    output: &[u8],
) -> Result<(Option<(u8, u64, u32)>, bool), Fail>
    requires { budget ≤ most_budget }
{
    let image = guest(alloc, &[0], 0, code)?;
    let mut flat = Flat::start(alloc, &image, budget, Profile::One)?;
    let _ = run(&mut flat, 0, steps, 0);
    let same = flat
        .threads()
        .first()
        .map(|thread| thread.output() == output);
    Ok((end_of(&flat), same == Some(true)))
}

#[test]
fn a_budget_ends_a_thread(rt: HostRuntime) -> Result<(), Fail> {
    let code = [0x0480_0513, PRINT_BYTE, ECALL, 0x00a5_0533, EXIT, ECALL];
    let found = printed_alone(rt.alloc(), &code, 2, 50, b"")?;
    assert_eq!(rt; found, (Some((13, 3, 0)), true));
    Ok(())
}

#[test]
fn numbers_are_printed_with_their_sign(rt: HostRuntime) -> Result<(), Fail> {
    // addi a0, zero, -1; lui a0, 0x80000
    let code = [0xfff0_0513, PRINT_NUMBER, ECALL, 0x8000_0537, ECALL];
    let found = printed_alone(rt.alloc(), &code, 1000, 5, b"-1\n-2147483648\n")?;
    assert_eq!(rt; found, (None, true));
    Ok(())
}

// SELF, and by its answer thread 0 enters for reading, the others for writing.
const READER_AND_WRITERS: [u32; 8] = [
    0x00c0_0893,
    ECALL,
    0x00a0_3333, // sltu t1, zero, a0
    0x0073_0893, // addi a7, t1, 7
    FIRST_OBJECT,
    ECALL,
    0x0000_0893,
    ECALL,
];

// The thread that takes steps, their number, whether there are that many, and after them the object's word and the
// second thread's steps.
const WAITING: [(usize, u32, bool, (Option<u64>, Option<u64>)); 5] = [
    (0, 6, true, (Some(2), Some(0))),
    (1, 5, true, (Some(2), Some(5))),
    (1, 1, false, (Some(2), Some(5))),
    // an unknown call ends the reader, which gives the object back
    (0, 3, true, (Some(128), Some(5))),
    (1, 1, true, (Some(129), Some(6))),
];

// The first row that isn't so.
fn other_wait(flat: &mut Flat) -> Option<usize> {
    for (row, (thread, steps, admitted, wanted)) in WAITING.iter().enumerate() {
        let went = run(flat, *thread, *steps, 0).is_ok();
        let taken = flat.threads().last().map(|thread| thread.steps());
        if went != *admitted || (word(flat), taken) != *wanted {
            return Some(row);
        }
    }
    None
}

#[test]
fn a_writer_waits_for_a_reader(rt: HostRuntime) -> Result<(), Fail> {
    let image = guest(rt.alloc(), &[0, 0], 1, &READER_AND_WRITERS)?;
    let mut flat = Flat::start(rt.alloc(), &image, 1000, Profile::One)?;
    assert_eq!(rt; other_wait(&mut flat), None);
    Ok(())
}

// What is seen of a copy that takes `steps` further steps.
fn seen_after(flat: &Flat, steps: u32) -> Result<Seen, Fail> {
    let mut copy = flat.copy()?;
    run(&mut copy, 0, steps, 0)?;
    Ok(seen(&copy))
}

// Whether a copy of the state after four steps goes where the state goes, and leaves it where it is.
fn is_copied(flat: &mut Flat) -> Result<bool, Fail> {
    if !goes(flat, 4) {
        return Ok(false);
    }
    let later = seen_after(flat, 5)?;
    let stays = seen(flat) == (None, Some(1), Some(0));
    Ok(stays && goes(flat, 5) && seen(flat) == later)
}

#[test]
fn a_copy_goes_its_own_way(rt: HostRuntime) -> Result<(), Fail> {
    let image = guest(rt.alloc(), &[0], 1, &PUT_AND_BREAK)?;
    let mut flat = Flat::start(rt.alloc(), &image, 1000, Profile::One)?;
    assert!(rt; is_copied(&mut flat)?);
    Ok(())
}

// The result of INPUT, whether there is such a step, and a0 after it.
const INPUTS: [(u32, bool, u32); 3] = [
    (256, false, 0),
    (255, true, 255),
    (0xffff_ffff, true, 0xffff_ffff),
];

// The first row that isn't so.
fn other_input(flat: &mut Flat) -> Option<usize> {
    for (row, (answer, admitted, wanted)) in INPUTS.iter().enumerate() {
        let went = run(flat, 0, 1, *answer).is_ok();
        let read = flat.threads().first().map(|thread| thread.mach().reg(10));
        if went != *admitted || read != Some(*wanted) {
            return Some(row);
        }
    }
    None
}

#[test]
fn an_input_is_a_byte_or_the_end(rt: HostRuntime) -> Result<(), Fail> {
    let image = guest(rt.alloc(), &[0], 0, &[INPUT, ECALL, ECALL])?;
    let mut flat = Flat::start(rt.alloc(), &image, 1000, Profile::One)?;
    assert!(rt; goes(&mut flat, 1));
    assert_eq!(rt; other_input(&mut flat), None);
    Ok(())
}

// Private steps of the first thread, at most `limit`.
fn together(flat: &mut Flat, limit: u64) -> u64 {
    if flat.threads().is_empty() {
        0
    } else {
        flat.run_to_ask(0, limit).0
    }
}

// The limit, how many steps are taken, and how many others after them.
const TOGETHER: [(u64, u64, u32); 4] = [(1, 1, 0), (9, 1, 0), (9, 0, 1), (9, 3, 3)];

// The first row that isn't so.
fn other_count(flat: &mut Flat) -> Option<usize> {
    for (row, (limit, taken, others)) in TOGETHER.iter().enumerate() {
        if together(flat, *limit) != *taken || !goes(flat, *others) {
            return Some(row);
        }
    }
    None
}

#[test]
fn private_steps_are_taken_together(rt: HostRuntime) -> Result<(), Fail> {
    let image = guest(rt.alloc(), &[0], 1, &PUT_AND_BREAK)?;
    let mut flat = Flat::start(rt.alloc(), &image, 1000, Profile::One)?;
    assert_eq!(rt; other_count(&mut flat), None);
    assert_eq!(rt; end_of(&flat), Some((2, 9, 1)));
    Ok(())
}

fn can_step(flat: &Flat, thread: usize) -> bool {
    thread < flat.threads().len() && flat.can_step(thread)
}

// The thread that takes steps, their number, whether there are that many, and which of the two threads have a step after
// them.
const TURNS: [(usize, u32, bool, (bool, bool)); 6] = [
    (0, 0, true, (true, true)),
    (0, 3, true, (true, true)),
    // Thread 0 is inside for writing, and thread 1 wants to enter.
    (1, 2, true, (true, false)),
    (1, 1, false, (true, false)),
    // Thread 0 has ended and released what it held.
    (0, 6, true, (false, true)),
    (1, 1, true, (false, true)),
];

// The first row that isn't so.
fn other_turn(flat: &mut Flat) -> Option<usize> {
    for (row, (thread, steps, admitted, can)) in TURNS.iter().enumerate() {
        let went = run(flat, *thread, *steps, 0).is_ok();
        if went != *admitted || (can_step(flat, 0), can_step(flat, 1)) != *can {
            return Some(row);
        }
    }
    None
}

#[test]
fn who_waits_or_is_done_has_no_step(rt: HostRuntime) -> Result<(), Fail> {
    let image = guest(rt.alloc(), &[0, 0], 1, &PUT_AND_BREAK)?;
    let mut flat = Flat::start(rt.alloc(), &image, 1000, Profile::One)?;
    assert_eq!(rt; other_turn(&mut flat), None);
    Ok(())
}

#[test]
fn a_call_of_the_environment_is_a_step(rt: HostRuntime) -> Result<(), Fail> {
    let image = guest(rt.alloc(), &[0], 0, &[INPUT, ECALL, ECALL])?;
    let mut flat = Flat::start(rt.alloc(), &image, 1000, Profile::One)?;
    assert!(rt; goes(&mut flat, 1) && can_step(&flat, 0));
    Ok(())
}
