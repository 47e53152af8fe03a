//! The rows in which the boxes of a run are drawn.

ghost use Rattle.std.specs.Prelude.{◌≡◌, ◌<◌, ◌≤◌, ◌↔◌, ℕ, Some, IfOk, IsTrue, true, false, length};
ghost use Rattle.std.specs.List.{slice_get, Contains};
ghost use Rattle.ir_holds.specs.Spans.{IsOverSpan, IsTaken, IsFreeRow, AreRows};
ghost use Rattle.ir_holds.specs.Open.{AreRising, IsLate, AreOfFirst, HasAllOver, KeepsLate};
ghost use Rattle.ir_holds.specs.declared.span.Span.{Span};

use crate::span::Span;
use std::alloc::{AllocError, Global};

// Whether a box of a number hasn't ended where another of its thread begins.
fn is_late(spans: &[Span], number: usize, other: &Span) -> bool
    requires { number < length spans.now }
    ensures late { result ≡ true → (a : Span) → slice_get spans.now number ≡ Some a → IsLate a other.now }
    ensures ended { result ≡ false → (a : Span) → slice_get spans.now number ≡ Some a → IsLate a other.now → ⊥ }
{
    let one = spans[number];
    one.thread == other.thread && other.first < one.last
}

// Whether a box has begun, and hasn't ended, where another of its thread begins.
fn is_over(one: &Span, other: &Span) -> bool
    ensures { IsTrue result ↔ IsOverSpan one.now other.now }
{
    one.thread == other.thread && one.first < other.first && other.first < one.last
}

// Whether a box before the next one takes a row there.
fn takes(spans: &[Span], rows: &[usize], number: usize, own: &Span, row: usize) -> bool
    requires within { length rows.now ≤ length spans.now }
    requires number { number < length rows.now }
    ensures taken { result ≡ true → IsTaken spans.now rows.now (length rows.now) own.now row }
    ensures free { result ≡ false → (a : Span) → slice_get spans.now number ≡ Some a → slice_get rows.now number ≡ Some row → IsOverSpan a own.now → ⊥ }
{
    rows[number] == row && is_over(&spans[number], own)
}

// Whether a row is taken where the next box begins. The boxes that are over it are among those of these numbers.
fn is_taken(spans: &[Span], rows: &[usize], held: &[usize], own: &Span, row: usize) -> bool
    requires within { length rows.now ≤ length spans.now }
    requires held { AreOfFirst (length rows.now) held.now }
    requires all { HasAllOver spans.now (length rows.now) own.now held.now }
    ensures taken { result ≡ true → IsTaken spans.now rows.now (length rows.now) own.now row }
    ensures free { result ≡ false → IsTaken spans.now rows.now (length rows.now) own.now row → ⊥ }
{
    for number in held {
        if takes(spans, rows, *number, own, row) {
            return true;
        }
    }
    false
}

// The first row that isn't taken where the next box begins. The row that has the box's number is free, since no box before it has that.
fn free_row(spans: &[Span], rows: &[usize], held: &[usize], own: &Span) -> usize
    requires within { length rows.now ≤ length spans.now }
    requires held { AreOfFirst (length rows.now) held.now }
    requires all { HasAllOver spans.now (length rows.now) own.now held.now }
    requires low { (m y : ℕ) → slice_get rows.now m ≡ Some y → y ≤ m }
    ensures row { IsFreeRow spans.now rows.now (length rows.now) own.now result }
    ensures low { result ≤ length rows.now }
{
    for row in 0..rows.len() {
        if !is_taken(spans, rows, held, own, row) {
            return row;
        }
    }
    rows.len()
}

// Of boxes of these numbers those that haven't ended where another begins.
fn still_open(
    alloc: Global,
    spans: &[Span],
    held: &[usize],
    own: &Span,
) -> Result<Vec<usize>, AllocError>
    requires { AreOfFirst (length spans.now) held.now }
    ensures some { IfOk result (λ v. (k : ℕ) → Contains v.items k → Contains held.now k) }
    ensures all { IfOk result (λ v. KeepsLate spans.now own.now held.now v.items) }
{
    let mut still = Vec::new(alloc);
    for number in held {
        if is_late(spans, *number, own) {
            still.push(*number)?;
        }
    }
    Ok(still)
}

/// The rows of boxes that go so. Time is linear in the boxes, times those that a thread holds at once.
///
/// # Errors
/// Out of memory.
pub fn rows_of(alloc: Global, spans: &[Span]) -> Result<Vec<usize>, AllocError>
    requires { AreRising spans.now }
    ensures { IfOk result (λ v. AreRows spans.now v.items) }
{
    let mut rows = Vec::with_capacity(alloc, spans.len())?;
    let mut held = Vec::new(alloc);
    for own in spans {
        held = still_open(alloc, spans, &held, own)?;
        let row = free_row(spans, &rows, &held, own);
        held.push(rows.len())?;
        rows.push(row)?;
    }
    Ok(rows)
}
