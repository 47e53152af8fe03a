//! Cuts of a guest of two threads that write one object, one after the other.

use crate::guests::TWO_COUNTERS;
use crate::replays::{fitted, greatest_from, is_cut, least_from};
use crate::traces::SECOND_FIRST;
use ir_cut::Cut;
use ir_fit::Fitted;
use std::alloc::Global;
use std::process::Abort;
use std::test::Fail;

type Pair = (u64, u64);

fn cut_at(alloc: Global, at: Pair) -> Result<Cut, Fail> {
    Ok(Cut::new(Vec::from_slice(alloc, &[at.0, at.1])?))
}

fn pair(cut: &Cut) -> Pair {
    match cut.positions() {
        [first, second] => (*first, *second),
        _ => (u64::MAX, u64::MAX),
    }
}

fn is_consistent(alloc: Global, fitted: &Fitted, at: Pair) -> Result<bool, Fail> {
    Ok(is_cut(fitted, &cut_at(alloc, at)?))
}

// The least cut from there.
fn least_of(
    alloc: Global,
    fitted: &Fitted,
    at: Pair,
    t: usize,
    k: u64,
) -> Result<Option<Pair>, Fail> {
    let found = least_from(alloc, fitted, &cut_at(alloc, at)?, t, k)?;
    Ok(found.as_ref().map(pair))
}

// The greatest, likewise.
fn greatest_of(
    alloc: Global,
    fitted: &Fitted,
    at: Pair,
    t: usize,
    k: u64,
) -> Result<Option<Pair>, Fail> {
    let found = greatest_from(alloc, fitted, &cut_at(alloc, at)?, t, k)?;
    Ok(found.as_ref().map(pair))
}

// A cut, and whether it is consistent.
const CONSISTENT: [(Pair, bool); 4] = [
    ((3, 14), false), // past an entry whose maker is at its own leave
    ((3, 15), true), // past both
    ((2, 14), true),
    ((19, 18), false), // past the end
];

fn assert_consistent<R: AllocGlobal + Abort>(rt: &R, fitted: &Fitted) -> Result<(), Fail> {
    for &(at, wanted) in &CONSISTENT {
        assert_eq!(rt; is_consistent(rt.alloc(), fitted, at)?, wanted);
    }
    Ok(())
}

#[test]
fn an_entry_needs_its_maker(rt: HostRuntime) -> Result<(), Fail> {
    let fitted = fitted(rt.alloc(), TWO_COUNTERS, SECOND_FIRST)?;
    assert_consistent(&rt, &fitted)
}

// A cut, a thread, a position, and the cut that is found from there.
type Search = (Pair, usize, u64, Pair);

const LEAST: [Search; 4] = [
    ((0, 0), 0, 3, (3, 15)),
    ((0, 0), 1, 18, (0, 18)),
    ((3, 15), 0, 18, (18, 15)),
    ((3, 16), 0, 2, (3, 16)),
];

const GREATEST: [Search; 4] = [
    ((3, 15), 1, 14, (2, 14)),
    ((18, 18), 1, 0, (2, 0)),
    ((18, 18), 0, 0, (0, 18)),
    ((2, 9), 1, 12, (2, 9)),
];

fn assert_least<R: AllocGlobal + Abort>(rt: &R, fitted: &Fitted) -> Result<(), Fail> {
    for &(at, t, k, wanted) in &LEAST {
        assert_eq!(rt; least_of(rt.alloc(), fitted, at, t, k)?, Some(wanted));
    }
    Ok(())
}

#[test]
fn a_step_past_an_entry_brings_its_maker(rt: HostRuntime) -> Result<(), Fail> {
    let fitted = fitted(rt.alloc(), TWO_COUNTERS, SECOND_FIRST)?;
    assert_least(&rt, &fitted)
}

fn assert_greatest<R: AllocGlobal + Abort>(rt: &R, fitted: &Fitted) -> Result<(), Fail> {
    for &(at, t, k, wanted) in &GREATEST {
        assert_eq!(rt; greatest_of(rt.alloc(), fitted, at, t, k)?, Some(wanted));
    }
    Ok(())
}

#[test]
fn a_step_back_past_a_leave_takes_the_entry_along(rt: HostRuntime) -> Result<(), Fail> {
    let fitted = fitted(rt.alloc(), TWO_COUNTERS, SECOND_FIRST)?;
    assert_greatest(&rt, &fitted)
}

// Among the consistent cuts, from (0, 0) to (18, 18), that pass, the smaller of the positions, each by itself.
fn lowest(alloc: Global, fitted: &Fitted, from: Pair, t: usize, k: u64) -> Result<Pair, Fail> {
    let mut low = (u64::MAX, u64::MAX);
    for first in from.0..19 {
        for second in from.1..19 {
            let reached = if t == 0 { first } else { second };
            if reached >= k && is_consistent(alloc, fitted, (first, second))? {
                low = (low.0.min(first), low.1.min(second));
            }
        }
    }
    Ok(low)
}

// The larger of the positions, likewise.
fn highest(alloc: Global, fitted: &Fitted, to: Pair, t: usize, k: u64) -> Result<Pair, Fail> {
    let mut high = (0, 0);
    for first in 0..19 {
        for second in 0..19 {
            let reached = if t == 0 { first } else { second };
            if first <= to.0
                && second <= to.1
                && reached <= k
                && is_consistent(alloc, fitted, (first, second))?
            {
                high = (high.0.max(first), high.1.max(second));
            }
        }
    }
    Ok(high)
}

// Whether the least cut is the least of all.
fn is_least(alloc: Global, fitted: &Fitted, at: Pair, t: usize, k: u64) -> Result<bool, Fail> {
    let found = least_of(alloc, fitted, at, t, k)?;
    Ok(found == Some(lowest(alloc, fitted, at, t, k)?))
}

// The same of the greatest.
fn is_greatest(alloc: Global, fitted: &Fitted, at: Pair, t: usize, k: u64) -> Result<bool, Fail> {
    let found = greatest_of(alloc, fitted, at, t, k)?;
    Ok(found == Some(highest(alloc, fitted, at, t, k)?))
}

// Whether all searches of a thread's positions from this cut agree with those over all cuts.
fn all_agree(alloc: Global, fitted: &Fitted, at: Pair, t: usize) -> Result<bool, Fail> {
    for k in 0..19 {
        if !is_least(alloc, fitted, at, t, k)? || !is_greatest(alloc, fitted, at, t, k)? {
            return Ok(false);
        }
    }
    Ok(true)
}

// Where searches begin.
const BEGINNINGS: [Pair; 7] = [(0, 0), (2, 2), (2, 14), (3, 15), (18, 18), (0, 18), (9, 17)];

fn assert_agreed<R: AllocGlobal + Abort>(rt: &R, fitted: &Fitted) -> Result<(), Fail> {
    for &at in &BEGINNINGS {
        assert!(rt; all_agree(rt.alloc(), fitted, at, 0)?);
        assert!(rt; all_agree(rt.alloc(), fitted, at, 1)?);
    }
    Ok(())
}

#[test]
fn searches_agree_with_all_cuts(rt: HostRuntime) -> Result<(), Fail> {
    let fitted = fitted(rt.alloc(), TWO_COUNTERS, SECOND_FIRST)?;
    assert_agreed(&rt, &fitted)
}
