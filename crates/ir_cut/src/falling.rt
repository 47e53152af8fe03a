//! The greatest consistent cut that has a thread at a position or before it.

ghost use Rattle.std.specs.Prelude.{◌≡◌, ◌<◌, ◌≤◌, true, false, ℕ, List, length, slice_get, Some, IfOk, IfSome, IfNone};
ghost use Rattle.std.specs.List.Sorted.{IsNonDecreasingBy};
ghost use Rattle.ir_fit.specs.declared.leave.Leave.{Leave};
ghost use Rattle.ir_cut.specs.Positions.{EachRun, IsConsistentCut, cut_of};
ghost use Rattle.ir_fit.specs.Within.{IsFitted};
ghost use Rattle.ir_cut.specs.Searching.{AreLeaves, AreRest, Falling, HasAbove, NoneAbove, leaves_left, IsGreatestCut};

use crate::cut::Cut;
use crate::needs::lower_for;
use ir_fit::{Fitted, Leave};
use std::alloc::{AllocError, Global};

// How many of the leaves, which are in the order of their positions, are before this position.
fn count_before(leaves: &[Leave], position: u64) -> usize
    requires { IsNonDecreasingBy (λ (l : Leave). l.position) leaves.now }
    ensures bound { result ≤ length leaves.now }
    ensures rest { (e : ℕ) (l : Leave) → result ≤ e → slice_get leaves.now e ≡ Some l → position ≤ l.position }
{
    leaves.partition_point(|leave| leave.position < position)
}

// How many leaves of each thread are steps of the cut.
fn leaves_inside(
    alloc: Global,
    fitted: &Fitted,
    positions: &[u64],
) -> Result<Vec<usize>, AllocError>
    requires fitted { IsFitted fitted.now }
    requires size { length positions.now ≡ length fitted.now.guest.entries }
    ensures size { IfOk result (λ next. length next.items ≡ length fitted.now.guest.entries) }
    ensures rest { IfOk result (λ next. (t : ℕ) → t < length fitted.now.guest.entries → AreRest fitted.now positions.now t (cut_of next.items t)) }
{
    let mut next = Vec::with_capacity(alloc, positions.len())?;
    for t in 0..positions.len() {
        next.push(count_before(fitted.leaves(t), positions[t]))?;
    }
    Ok(next)
}

// Whether the last of thread t's leaves counted by `next` is no step of the cut.
fn is_above(fitted: &Fitted, positions: &[u64], next: &[usize], t: usize) -> bool
    requires fitted { IsFitted fitted.now }
    requires size { length positions.now ≡ length fitted.now.guest.entries }
    requires each { AreLeaves fitted.now next.now }
    requires thread { t < length fitted.now.guest.entries }
    ensures above { result ≡ true → HasAbove fitted.now positions.now next.now t }
    ensures none { result ≡ false → NoneAbove fitted.now positions.now next.now t }
{
    match next[t].checked_sub(1) {
        None => false,
        Some(last) => fitted.leaves(t)[last].position >= positions[t],
    }
}

// A thread for which the last of the leaves counted by `next` is no step of the cut.
fn thread_above(fitted: &Fitted, positions: &[u64], next: &[usize]) -> Option<usize>
    requires fitted { IsFitted fitted.now }
    requires size { length positions.now ≡ length fitted.now.guest.entries }
    requires each { AreLeaves fitted.now next.now }
    ensures found { IfSome result (λ t. (t < length fitted.now.guest.entries) × HasAbove fitted.now positions.now next.now t) }
    ensures none { IfNone result ((t : ℕ) → t < length fitted.now.guest.entries → NoneAbove fitted.now positions.now next.now t) }
{
    for t in 0..positions.len() {
        if is_above(fitted, positions, next, t) {
            return Some(t);
        }
    }
    None
}

// What needs the last of thread t's leaves counted by `next` is brought outside.
fn take_leave(fitted: &Fitted, positions: &mut Vec<u64>, next: &mut Vec<usize>, t: usize)
    requires fitted { IsFitted fitted.now }
    requires size { length positions.old.items ≡ length fitted.now.guest.entries }
    requires each { AreLeaves fitted.now next.old.items }
    requires thread { t < length fitted.now.guest.entries }
    requires above { HasAbove fitted.now positions.old.items next.old.items t }
    ensures size { length positions.new.items ≡ length positions.old.items }
    ensures each { AreLeaves fitted.now next.new.items }
    ensures fewer { leaves_left next.new.items < leaves_left next.old.items }
    ensures falls { (ps : List ℕ) (u k : ℕ) → EachRun fitted.now (Falling fitted.now ps u k positions.old.items next.old.items)
        → EachRun fitted.now (Falling fitted.now ps u k positions.new.items next.new.items) }
{
    let last = next[t] - 1;
    let leave = fitted.leaves(t)[last];
    lower_for(fitted, positions, leave);
    next[t] = last;
}

// Continues until what needs a leave that is outside is outside.
fn fall(fitted: &Fitted, positions: &mut Vec<u64>, next: &mut Vec<usize>)
    requires fitted { IsFitted fitted.now }
    requires size { length positions.old.items ≡ length fitted.now.guest.entries }
    requires each { AreLeaves fitted.now next.old.items }
    ensures size { length positions.new.items ≡ length positions.old.items }
    ensures falls { (ps : List ℕ) (u k : ℕ) → EachRun fitted.now (Falling fitted.now ps u k positions.old.items next.old.items)
        → EachRun fitted.now (Falling fitted.now ps u k positions.new.items next.new.items) }
    ensures over { (t : ℕ) → t < length fitted.now.guest.entries → NoneAbove fitted.now positions.new.items next.new.items t }
{
    'leaves: while let Some(t) = thread_above(fitted, positions.as_slice(), next.as_slice()) {
        take_leave(fitted, positions, next, t);
    }
}

/// The consistent cut at or below `cut` with thread t at k or before it that lies above every other such cut. Where k is
/// not above the thread's position in `cut`, it has the thread exactly at k. Takes time linear in the leaves between both
/// cuts, the entries that need these, and the logarithm of the leaves before.
///
/// # Errors
/// Out of memory.
pub fn greatest(
    alloc: Global,
    fitted: &Fitted,
    cut: &Cut,
    t: usize,
    k: u64,
) -> Result<Cut, AllocError>
    requires size { length cut.now ≡ length fitted.now.guest.entries }
    requires consistent { IsConsistentCut fitted.now cut.now }
    requires thread { t < length fitted.now.guest.entries }
    ensures greatest { IfOk result (λ c. IsGreatestCut fitted.now cut.now t k c) }
    // What holds whatever run has the trace.
    ensures below { IfOk result (λ c. (u : ℕ) → cut_of c u ≤ cut_of cut.now u) }
    ensures consistent { IfOk result (λ c. IsConsistentCut fitted.now c) }
    ensures exact { IfOk result (λ c. k ≤ cut_of cut.now t → cut_of c t ≡ k) }
{
    fitted.known();
    let mut next = leaves_inside(alloc, fitted, cut.positions())?;
    let mut positions = Vec::from_slice(alloc, cut.positions())?;
    positions[t] = positions[t].min(k);
    fall(fitted, &mut positions, &mut next);
    Ok(Cut::new(positions))
}
