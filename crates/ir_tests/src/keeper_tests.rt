//! How many pages are kept, and what is restored.

use crate::guests::{CHANGED_ONCE, TWO_COUNTERS};
use crate::replays::{fitted, in_order};
use crate::states::same_state;
use crate::traces::{SECOND_FIRST, TWICE_STORED};
use ir_checkpoint::Keeper;
use ir_cut::Cut;
use ir_fit::Fitted;
use ir_replay::State;
use std::alloc::Global;
use std::process::Abort;
use std::test::Fail;

// Keeps a state of as many threads as the others, and gives how many pages are kept then; 0 if it isn't kept.
fn pages_with(keeper: &mut Keeper, state: &State) -> u32 {
    if state.threads().len() != keeper.threads() || keeper.last() >= 100 {
        return 0;
    }
    match keeper.keep(state) {
        Ok(_number) => keeper.pages(),
        Err(_error) => 0,
    }
}

// Keeps the guest at these positions.
fn pages_at(
    alloc: Global,
    fitted: &Fitted,
    keeper: &mut Keeper,
    positions: &[u64],
) -> Result<u32, Fail> {
    let cut = Cut::new(Vec::from_slice(alloc, positions)?);
    match in_order(alloc, fitted, &cut)? {
        Some(state) => Ok(pages_with(keeper, &state)),
        None => Ok(0),
    }
}

// Drops a cut, and gives how many pages are kept then; 0 if it isn't kept.
fn pages_without(keeper: &mut Keeper, number: u32) -> u32 {
    if number == 0 || keeper.cut(number).is_none() {
        return 0;
    }
    keeper.drop_kept(number);
    keeper.pages()
}

// How many pages are kept at the start of a thread that stores twice, and after 1, 2 and 5 steps are kept.
fn pages_kept(alloc: Global, fitted: &Fitted, keeper: &mut Keeper) -> Result<[u32; 4], Fail> {
    Ok([
        keeper.pages(),
        pages_at(alloc, fitted, keeper, &[1])?,
        pages_at(alloc, fitted, keeper, &[2])?,
        pages_at(alloc, fitted, keeper, &[5])?,
    ])
}

// And when the second is dropped, the third, and the third again.
fn pages_dropped(keeper: &mut Keeper) -> [u32; 3] {
    [
        pages_without(keeper, 2),
        pages_without(keeper, 3),
        pages_without(keeper, 3),
    ]
}

fn assert_kept_once<R: AllocGlobal + Abort>(rt: &R, fitted: &Fitted) -> Result<(), Fail> {
    let mut keeper = Keeper::new(rt.alloc(), fitted)?;
    let kept = pages_kept(rt.alloc(), fitted, &mut keeper)?;
    assert_eq!(rt; kept, [16, 16, 17, 17]);
    assert_eq!(rt; pages_dropped(&mut keeper), [17, 16, 0]);
    Ok(())
}

#[test]
fn a_page_that_stays_the_same_is_kept_once(rt: HostRuntime) -> Result<(), Fail> {
    let fitted = fitted(rt.alloc(), CHANGED_ONCE, TWICE_STORED)?;
    assert_kept_once(&rt, &fitted)
}

// Whether the state kept by this number is the guest at these positions.
fn is_restored(
    alloc: Global,
    fitted: &Fitted,
    keeper: &Keeper,
    number: u32,
    positions: &[u64],
) -> Result<bool, Fail> {
    let cut = Cut::new(Vec::from_slice(alloc, positions)?);
    let Some(state) = in_order(alloc, fitted, &cut)? else {
        return Ok(false);
    };
    if keeper.cut(number).is_none() {
        return Ok(false);
    }
    Ok(same_state(&keeper.restore(number)?, &state))
}

// How many pages are kept when two cuts are, and when the first is dropped.
fn pages_of_two(alloc: Global, fitted: &Fitted, keeper: &mut Keeper) -> Result<[u32; 3], Fail> {
    Ok([
        pages_at(alloc, fitted, keeper, &[3, 15])?,
        pages_at(alloc, fitted, keeper, &[18, 18])?,
        pages_without(keeper, 1),
    ])
}

// Whether the second, the start and the first are restored.
fn restored(alloc: Global, fitted: &Fitted, keeper: &Keeper) -> Result<[bool; 3], Fail> {
    Ok([
        is_restored(alloc, fitted, keeper, 2, &[18, 18])?,
        is_restored(alloc, fitted, keeper, 0, &[0, 0])?,
        is_restored(alloc, fitted, keeper, 1, &[3, 15])?,
    ])
}

fn assert_32_pages<R: AllocGlobal + Abort>(rt: &R, fitted: &Fitted) -> Result<(), Fail> {
    let mut keeper = Keeper::new(rt.alloc(), fitted)?;
    let pages = pages_of_two(rt.alloc(), fitted, &mut keeper)?;
    assert_eq!(rt; pages, [32, 32, 32]);
    let restored = restored(rt.alloc(), fitted, &keeper)?;
    assert_eq!(rt; restored, [true, true, false]);
    Ok(())
}

#[test]
fn two_threads_that_store_nothing_have_32_pages(rt: HostRuntime) -> Result<(), Fail> {
    let fitted = fitted(rt.alloc(), TWO_COUNTERS, SECOND_FIRST)?;
    assert_32_pages(&rt, &fitted)
}
