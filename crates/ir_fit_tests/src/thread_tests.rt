//! Threads answered by hand.

use ir_image::{Code, read_image};
use ir_runs::{Access, EnvKind};
use ir_thread::{Ask, End, Profile, Reply, Thread};
use std::alloc::Global;
use std::test::Fail;

// One thread and one object: CLOCK, and its answer by PUTN; SELF, and its answer by PUTC; then the
// entry of object 0 for writing, and the end of the code while it is held.
const PROGRAM: [u8; 18 + 40 + 32] = [
    0x49, 0x52, 0x49, 0x31, 1, 1, 10, 0, 0, 0, 0, 0, 0, 0, 0x00, 0x00, 0x01, 0x00, //
    0x93, 0x08, 0x40, 0x00, 0x73, 0, 0, 0, // addi a7, zero, 4; ecall
    0x93, 0x08, 0x30, 0x00, 0x73, 0, 0, 0, // addi a7, zero, 3; ecall
    0x93, 0x08, 0xc0, 0x00, 0x73, 0, 0, 0, // addi a7, zero, 12; ecall
    0x93, 0x08, 0x20, 0x00, 0x73, 0, 0, 0, // addi a7, zero, 2; ecall
    0x93, 0x08, 0x80, 0x00, 0x73, 0, 0, 0, // addi a7, zero, 8; ecall, with a0 at 0
    0, 0, 0, 0, 0, 0, 0, 0, 0, 0, 0, 0, 0, 0, 0, 0, 0, 0, 0, 0, 0, 0, 0, 0, 0, 0, 0, 0, 0, 0, 0, 0,
];

// Takes `steps` steps, and answers the value wherever one is wanted.
fn run(thread: &mut Thread, code: &Code, steps: u32, value: u32) {
    for _ in 0..steps {
        match thread.ask(code) {
            Ask::Done => {}
            Ask::Env(_) | Ask::Get(_, _) => thread.take(code, Reply::Value(value)),
            Ask::Try(_) => thread.take(code, Reply::Value(0)),
            _ => thread.take(code, Reply::Go),
        }
    }
}

#[test]
fn a_thread_asks_and_is_answered(rt: HostRuntime) -> Result<(), Fail> {
    let image = read_image(rt.alloc(), &PROGRAM)?;
    let code = image.code();
    let mut thread = Thread::new(rt.alloc(), &image, 0, 1000, Profile::One)?;
    assert_eq!(rt; thread.budget(), 1000);
    run(&mut thread, code, 1, 0);
    assert_eq!(rt; thread.ask(code), Ask::Env(EnvKind::Clock));
    run(&mut thread, code, 8, 0xffff_ffff);
    assert_eq!(rt; thread.output(), b"-1\n\0".as_slice());
    assert_eq!(rt; thread.events(), 1);
    Ok(())
}

// How many steps more are answered, what the thread asks after them, how it ended, and what it has object 0 for.
const HELD: [(u32, Ask, Option<End>, Option<Access>); 3] = [
    (9, Ask::Enter(0, Access::Writing), None, None),
    (
        2,
        Ask::Leave(0, Access::Writing),
        Some(End::OutsideCode),
        Some(Access::Writing),
    ),
    (1, Ask::Done, Some(End::OutsideCode), None),
];

#[test]
fn what_is_held_is_released(rt: HostRuntime) -> Result<(), Fail> {
    let image = read_image(rt.alloc(), &PROGRAM)?;
    let mut thread = Thread::new(rt.alloc(), &image, 0, 1000, Profile::One)?;
    for &(steps, asked, end, held) in &HELD {
        run(&mut thread, image.code(), steps, 7);
        assert_eq!(rt; (thread.ask(image.code()), thread.ended()), (asked, end));
        assert_eq!(rt; thread.held(), [held].as_slice());
    }
    Ok(())
}

#[test]
fn a_copy_goes_its_own_way(rt: HostRuntime) -> Result<(), Fail> {
    let image = read_image(rt.alloc(), &PROGRAM)?;
    let mut thread = Thread::new(rt.alloc(), &image, 0, 1000, Profile::One)?;
    run(&mut thread, image.code(), 11, 7);
    let mut copy = thread.copy()?;
    run(&mut copy, image.code(), 1, 7);
    let stands = (copy.steps(), copy.number(), copy.mach().pc());
    assert_eq!(rt; stands, (12, 0, 0x0001_0028));
    assert_eq!(rt; thread.ask(image.code()), Ask::Leave(0, Access::Writing));
    Ok(())
}

// How many steps are answered, the limit of a run after them, how many steps it goes, and how many were taken then.
const RUNS: [(u32, u64, u64, u64); 4] = [(0, 9, 1, 1), (3, 1, 1, 5), (0, 9, 2, 7), (0, 9, 0, 7)];

// A run goes past the call that answers the thread's number, and stops at its limit or before what isn't private.
#[test]
fn a_run_stops_where_a_step_is_not_private(rt: HostRuntime) -> Result<(), Fail> {
    let image = read_image(rt.alloc(), &PROGRAM)?;
    let mut thread = Thread::new(rt.alloc(), &image, 0, 1000, Profile::One)?;
    for &(steps, limit, gone, taken) in &RUNS {
        run(&mut thread, image.code(), steps, 7);
        let (ran, asked) = thread.run(image.code(), limit);
        assert_eq!(rt; ran, gone);
        assert_eq!(rt; thread.ask(image.code()), asked);
        assert_eq!(rt; thread.steps(), taken);
    }
    assert_eq!(rt; thread.ask(image.code()), Ask::Print);
    Ok(())
}
