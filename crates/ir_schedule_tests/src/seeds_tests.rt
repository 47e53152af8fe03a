//! Orders that seeds give.

ghost use Rattle.ir_thread.specs.State.{IsAllowed};
ghost use Rattle.ir_thread.specs.declared.profile.Profile.TheVariants.{One};

use crate::guests::{ENTRIES, lost_update, run};
use ir_image::Image;
use ir_record::Turns;
use ir_schedule::{Stop, Way, condition_of};
use std::alloc::{AllocError, Global};
use std::test::Fail;

// The threads that seeds 0 to 9 choose at each entry, by each way.
const CHOSEN: [(Way, [&[u8; 4]; 10]); 4] = [
    (
        Way::Walk,
        [
            b"1010", b"1100", b"0011", b"1001", b"0101", b"0110", b"0101", b"1010", b"1100",
            b"0101",
        ],
    ),
    (
        Way::Priorities(2),
        [
            b"0011", b"0110", b"1100", b"1100", b"1100", b"0011", b"1100", b"0011", b"0011",
            b"1100",
        ],
    ),
    (
        Way::Priorities(3),
        [
            b"0011", b"0110", b"1001", b"1100", b"1100", b"0011", b"1100", b"1100", b"1100",
            b"1100",
        ],
    ),
    (
        Way::Mix,
        [
            b"1010", b"0110", b"0011", b"1100", b"0101", b"0011", b"0101", b"0011", b"1100",
            b"1100",
        ],
    ),
];

// `count` turns more of a thread.
fn add(turns: &mut Vec<Turns>, thread: u8, count: u64) -> Result<(), AllocError> {
    if let Some(last) = turns.pop() {
        if last.thread == thread {
            let count = last.count.saturating_add(count);
            return Ok(turns.push(Turns { thread, count })?);
        }
        turns.push(last)?;
    }
    Ok(turns.push(Turns { thread, count })?)
}

// The turns of these choices: each thread goes to its first entry, then whoever is chosen to its next one or to its end.
fn turns_of(alloc: Global, chosen: &[u8; 4]) -> Result<Vec<Turns>, AllocError> {
    let mut turns = Vec::new(alloc);
    add(&mut turns, 0, 2)?;
    add(&mut turns, 1, 2)?;
    let mut has_read = [false; 2];
    for digit in chosen {
        let thread = digit.saturating_sub(b'0').min(1);
        let count = if has_read[thread as usize] { 12 } else { 11 };
        has_read[thread as usize] = true;
        add(&mut turns, thread, count)?;
    }
    Ok(turns)
}

#[test]
fn ten_seeds_of_each_way(rt: HostRuntime) -> Result<(), Fail> {
    let alloc = rt.alloc();
    let image = lost_update(alloc)?;
    for (way, orders) in &CHOSEN {
        for (seed, chosen) in orders.iter().enumerate() {
            let (choices, runner) = run(alloc, &image, *way, seed as u64, 16)?;
            assert_eq!(rt; choices, Ok(ENTRIES));
            let turns = turns_of(alloc, chosen)?;
            assert_eq!(rt; runner.turns.as_slice(), turns.as_slice());
        }
    }
    Ok(())
}

// How many of the first 50 seeds lose an update.
const LOST: [(Way, u32); 4] = [
    (Way::Walk, 27),
    (Way::Priorities(2), 11),
    (Way::Priorities(3), 21),
    (Way::Mix, 20),
];

// Whether the run of the seed loses an update: word 0 of object 0 is 1 at its end.
fn loses(alloc: Global, image: &Image, way: Way, seed: u64) -> Result<bool, Fail>
    requires { IsAllowed One image.now }
{
    let (choices, runner) = run(alloc, image, way, seed, 16)?;
    let Some(condition) = condition_of(alloc, b"word 0 0 1".as_slice())? else {
        return Err(Fail::from("no condition"));
    };
    Ok(choices.is_ok() && condition.holds(&runner.flat))
}

#[test]
fn seeds_lose_an_update(rt: HostRuntime) -> Result<(), Fail> {
    let alloc = rt.alloc();
    let image = lost_update(alloc)?;
    for (way, count) in &LOST {
        let mut lost = 0u32;
        for seed in 0..50u64 {
            if loses(alloc, &image, *way, seed)? {
                lost = lost.saturating_add(1);
            }
        }
        assert_eq!(rt; lost, *count);
    }
    Ok(())
}

#[test]
fn a_run_stops_where_its_turns_do_not_fit(rt: HostRuntime) -> Result<(), Fail> {
    let alloc = rt.alloc();
    let image = lost_update(alloc)?;
    let (choices, runner) = run(alloc, &image, Way::Walk, 0, 3)?;
    assert_eq!(rt; choices, Err(Stop::TooLong));
    assert_eq!(rt; runner.turns.len(), runner.turns.capacity());
    Ok(())
}
