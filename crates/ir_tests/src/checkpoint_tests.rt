//! A guest of two threads that is brought back and forth, and what is kept of it.

ghost use Rattle.std.specs.Prelude.{◌<◌, length, IfOk};
ghost use Rattle.ir_moves.specs.Checkpoints.{AreCheckpoints, StandsAtState};

use crate::guests::COUNTDOWN;
use crate::replays::{fitted, is_cut};
use crate::traces::{Ran, TraceRow};
use ir_cut::Cut;
use ir_fit::Fitted;
use ir_moves::Checkpoints;
use ir_object::{Given, OpenGate};
use ir_replay::State;
use std::alloc::Global;
use std::test::Fail;
use std::thread::Threads;
use std::time::Clock;

const LAST: u64 = (1 << 19) + 4;

// Of `COUNTDOWN`.
const COUNTED_DOWN: TraceRow = TraceRow {
    objects: 1,
    budget: 1_000_000,
    threads: &[Ran(LAST, 1, 0, &[]), Ran(LAST, 1, 0, &[])],
};

type Pair = (u64, u64);

// Where both threads are.
fn positions(state: &State) -> Option<Pair> {
    match state.threads() {
        [first, second] => Some((first.steps(), second.steps())),
        _ => None,
    }
}

// Where both threads are that are brought to these positions.
fn brought<R: Threads + Clock + Sync>(
    rt: &R,
    alloc: Global,
    fitted: &Fitted,
    checkpoints: &mut Checkpoints,
    state: &mut State,
    at: Pair,
) -> Result<Option<Pair>, Fail>
    requires checkpoints { AreCheckpoints fitted.now checkpoints.old }
    requires stands { StandsAtState fitted.now state.old }
    ensures checkpoints { AreCheckpoints fitted.now checkpoints.new }
    ensures stands { StandsAtState fitted.now state.new }
{
    let target = Cut::new(Vec::from_slice(alloc, &[at.0, at.1])?);
    if !is_cut(fitted, &target) {
        return Ok(None);
    }
    let hands = Given::new(rt, alloc, &OpenGate);
    checkpoints.bring(&hands, fitted, state, &target)?;
    Ok(positions(state))
}

// What is seen after a move: where both threads are, and how many states moves have passed so far.
type Seen = (Option<Pair>, u32);

// What is seen after a move to these positions.
fn seen_at<R: Threads + Clock + Sync>(
    rt: &R,
    alloc: Global,
    fitted: &Fitted,
    checkpoints: &mut Checkpoints,
    state: &mut State,
    at: Pair,
) -> Result<Seen, Fail>
    requires checkpoints { AreCheckpoints fitted.now checkpoints.old }
    requires stands { StandsAtState fitted.now state.old }
    ensures checkpoints { AreCheckpoints fitted.now checkpoints.new }
    ensures stands { StandsAtState fitted.now state.new }
{
    let there = brought(rt, alloc, fitted, checkpoints, state, at)?;
    Ok((there, checkpoints.passed().last()))
}

// What is seen after moves to the end, a step before it, and far back.
fn walk<R: Threads + Clock + Sync>(
    rt: &R,
    alloc: Global,
    fitted: &Fitted,
    checkpoints: &mut Checkpoints,
    state: &mut State,
) -> Result<[Seen; 3], Fail>
    requires checkpoints { AreCheckpoints fitted.now checkpoints.old }
    requires stands { StandsAtState fitted.now state.old }
{
    Ok([
        seen_at(rt, alloc, fitted, checkpoints, state, (LAST, LAST))?,
        seen_at(rt, alloc, fitted, checkpoints, state, (LAST - 1, LAST))?,
        seen_at(rt, alloc, fitted, checkpoints, state, (3, LAST))?,
    ])
}

// The same from the start.
fn walk_from_start<R: Threads + Clock + Sync>(
    rt: &R,
    alloc: Global,
    fitted: &Fitted,
) -> Result<[Seen; 3], Fail> {
    let mut checkpoints = Checkpoints::new(alloc, fitted)?;
    let mut state = State::start(alloc, fitted)?;
    walk(rt, alloc, fitted, &mut checkpoints, &mut state)
}

// The same of the guest.
fn walked<R: Threads + Clock + Sync>(rt: &R, alloc: Global) -> Result<[Seen; 3], Fail> {
    let fitted = fitted(alloc, COUNTDOWN, COUNTED_DOWN)?;
    walk_from_start(rt, alloc, &fitted)
}

#[test]
fn threads_are_brought_back_and_forth(rt: HostRuntime) -> Result<(), Fail> {
    let [at_end, before_end, far_back] = walked(&rt, rt.alloc())?;
    // At a half, three quarters and so on, as long as more than 2^14 steps are left.
    assert_eq!(rt; at_end, (Some((LAST, LAST)), 7));
    assert_eq!(rt; before_end, (Some((LAST - 1, LAST)), 7));
    assert_eq!(rt; far_back.0, Some((3, LAST)));
    Ok(())
}

// Where both threads are in the state from which the first is searched below a position.
fn before(
    alloc: Global,
    fitted: &Fitted,
    checkpoints: &mut Checkpoints,
    position: u64,
) -> Result<Option<Pair>, Fail>
    requires checkpoints { AreCheckpoints fitted.now checkpoints.old }
    requires thread { 0 < length fitted.now.guest.entries }
    ensures checkpoints { AreCheckpoints fitted.now checkpoints.new }
{
    let state = checkpoints.restore_before(alloc, fitted, 0, position)?;
    Ok(positions(&state))
}

// Those before the start, before a state that was asked for, after it, and before the end.
fn restored(
    alloc: Global,
    fitted: &Fitted,
    checkpoints: &mut Checkpoints,
) -> Result<[Option<Pair>; 4], Fail>
    requires checkpoints { AreCheckpoints fitted.now checkpoints.old }
    requires thread { 0 < length fitted.now.guest.entries }
{
    Ok([
        before(alloc, fitted, checkpoints, 0)?,
        before(alloc, fitted, checkpoints, 9)?,
        before(alloc, fitted, checkpoints, 10)?,
        before(alloc, fitted, checkpoints, LAST)?,
    ])
}

// Asks for a state on the way to the end.
fn keep_one<R: Threads + Clock + Sync>(
    rt: &R,
    alloc: Global,
    fitted: &Fitted,
    checkpoints: &mut Checkpoints,
    state: &mut State,
) -> Result<(), Fail>
    requires checkpoints { AreCheckpoints fitted.now checkpoints.old }
    requires stands { StandsAtState fitted.now state.old }
    ensures checkpoints { AreCheckpoints fitted.now checkpoints.new }
{
    brought(rt, alloc, fitted, checkpoints, state, (9, 3))?;
    checkpoints.keep(fitted, state)?;
    brought(rt, alloc, fitted, checkpoints, state, (LAST, LAST))?;
    Ok(())
}

// What is kept then.
fn one_kept<R: Threads + Clock + Sync>(
    rt: &R,
    alloc: Global,
    fitted: &Fitted,
) -> Result<Checkpoints, Fail>
    ensures { IfOk result (λ c. AreCheckpoints fitted.now c) }
{
    let mut checkpoints = Checkpoints::new(alloc, fitted)?;
    let mut state = State::start(alloc, fitted)?;
    keep_one(rt, alloc, fitted, &mut checkpoints, &mut state)?;
    Ok(checkpoints)
}

// What is restored of that; nothing where there are no threads.
fn restored_at_end<R: Threads + Clock + Sync>(
    rt: &R,
    alloc: Global,
    fitted: &Fitted,
) -> Result<[Option<Pair>; 4], Fail> {
    if fitted.image().entries().is_empty() {
        return Ok([None; 4]);
    }
    let mut checkpoints = one_kept(rt, alloc, fitted)?;
    restored(alloc, fitted, &mut checkpoints)
}

// The same of the guest.
fn restored_again<R: Threads + Clock + Sync>(
    rt: &R,
    alloc: Global,
) -> Result<[Option<Pair>; 4], Fail> {
    let fitted = fitted(alloc, COUNTDOWN, COUNTED_DOWN)?;
    restored_at_end(rt, alloc, &fitted)
}

#[test]
fn the_last_state_before_a_position_is_restored(rt: HostRuntime) -> Result<(), Fail> {
    let [start, at, behind, end] = restored_again(&rt, rt.alloc())?;
    assert_eq!(rt; (start, at), (Some((0, 0)), Some((0, 0))));
    assert_eq!(rt; behind, Some((9, 3)));
    assert!(rt; matches!(end, Some((first, _)) if first > LAST / 2 && first < LAST));
    Ok(())
}

// Whether a state is kept as this number.
fn is_kept(checkpoints: &Checkpoints, number: u32) -> bool {
    checkpoints.asked().cut(number).is_some()
}

// Keeps the start twice more.
fn keep_two(alloc: Global, fitted: &Fitted, checkpoints: &mut Checkpoints) -> Result<(), Fail>
    requires { AreCheckpoints fitted.now checkpoints.old }
    ensures { AreCheckpoints fitted.now checkpoints.new }
{
    let state = State::start(alloc, fitted)?;
    checkpoints.keep(fitted, &state)?;
    checkpoints.keep(fitted, &state)?;
    Ok(())
}

// The cut with all threads at a position.
fn all_at(alloc: Global, fitted: &Fitted, position: u64) -> Result<Cut, Fail> {
    let positions = vec![in alloc; position; fitted.image().entries().len()]?;
    Ok(Cut::new(positions))
}

// Drops a state at each of three such cuts, one after the other.
fn drop_three(
    alloc: Global,
    fitted: &Fitted,
    checkpoints: &mut Checkpoints,
    positions: [u64; 3],
) -> Result<(), Fail>
    requires { AreCheckpoints fitted.now checkpoints.old }
{
    let [first, second, third] = positions;
    checkpoints.drop_kept(fitted, &all_at(alloc, fitted, first)?);
    checkpoints.drop_kept(fitted, &all_at(alloc, fitted, second)?);
    checkpoints.drop_kept(fitted, &all_at(alloc, fitted, third)?);
    Ok(())
}

// Which of three states, all at the start, are kept then.
fn left(alloc: Global, dropped: [u64; 3]) -> Result<[bool; 3], Fail> {
    let fitted = fitted(alloc, COUNTDOWN, COUNTED_DOWN)?;
    let mut checkpoints = Checkpoints::new(alloc, &fitted)?;
    keep_two(alloc, &fitted, &mut checkpoints)?;
    drop_three(alloc, &fitted, &mut checkpoints, dropped)?;
    Ok([
        is_kept(&checkpoints, 0),
        is_kept(&checkpoints, 1),
        is_kept(&checkpoints, 2),
    ])
}

#[test]
fn states_are_kept_until_they_are_dropped(rt: HostRuntime) -> Result<(), Fail> {
    assert_eq!(rt; left(rt.alloc(), [1, 1, 1])?, [true, true, true]);
    assert_eq!(rt; left(rt.alloc(), [1, 0, 1])?, [true, true, false]);
    Ok(())
}

#[test]
fn the_start_is_not_dropped(rt: HostRuntime) -> Result<(), Fail> {
    assert_eq!(rt; left(rt.alloc(), [0, 0, 0])?, [true, false, false]);
    Ok(())
}
