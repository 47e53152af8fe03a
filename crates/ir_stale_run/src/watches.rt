//! The rows of each thread, before the first step.

ghost use Rattle.std.specs.Prelude.{◌≡◌, ◌+◌, ◌++◌, ◌∷◌, [], ◌<◌, ℕ, length, slice_index_or, IfOk, OnOk};
ghost use Rattle.std.specs.List.Sorted.{IsNonDecreasingBy};
ghost use Rattle.ir_stale_run.specs.declared.span.Span.{Span};
ghost use Rattle.ir_stale_run.specs.declared.watch.Watch.{Watch};
ghost use Rattle.ir_stale_run.specs.Watch.{IsGuide, is_looked_at, AreBegun, AreBuilt, IsSorted, AreWatchesSorted};

use crate::found::Found;
use crate::guide::Guide;
use crate::span::Span;
use crate::spans::span_of;
use crate::watch::Watch;
use std::alloc::{AllocError, Global};

// No row.
fn empty_watch(alloc: Global) -> Watch
    ensures next { result.next ≡ 0 }
    ensures spans { result.spans.items ≡ [] }
    ensures opened { result.opened.items ≡ [] }
{
    Watch {
        spans: Vec::new(alloc),
        next: 0,
        opened: Vec::new(alloc),
    }
}

// One more row.
fn add_span(watch: &mut Watch, span: Span) -> Result<(), AllocError>
    ensures { OnOk result ((watch.new.next ≡ watch.old.next) × (watch.new.opened.items ≡ watch.old.opened.items) × (watch.new.spans.items ≡ watch.old.spans.items ++ span ∷ [])) }
{
    watch.spans.push(span)?;
    Ok(())
}

// Brings its rows into the order of their read entries.
fn sort(watch: &mut Watch) -> Result<(), AllocError>
    ensures { OnOk result (IsSorted watch.old watch.new) }
{
    watch.spans.sort_by_key(|span| span.read)?;
    Ok(())
}

// Whether a row is looked at on a walk: each, where no thread is copied, and else those that are unknown.
fn is_looked_at(copies: bool, found: Found) -> bool
    ensures { result ≡ is_looked_at copies found }
{
    match found {
        Found::Unknown => true,
        Found::Known(_) => !copies,
    }
}

// Adds a row to those of its thread, if it is looked at and its write entry is left.
fn add_row(
    guide: Guide<'_, '_>,
    found: &[Found],
    watches: &mut [Watch],
    row: usize,
) -> Result<(), AllocError>
    requires guide { IsGuide guide.route.fitted.now guide.rows.now guide.route.ends.now guide.route.code.now }
    requires size { length watches.old ≡ length guide.route.fitted.now.guest.entries }
    requires row { row < length guide.rows.now }
    requires same { length found.now ≡ length guide.rows.now }
    requires begun { AreBegun guide.copies guide.route.fitted.now guide.rows.now found.now }
    requires built { AreBuilt guide.copies guide.route.fitted.now guide.rows.now found.now row watches.old }
    ensures size { length watches.new ≡ length watches.old }
    ensures built { OnOk result (AreBuilt guide.entry.copies guide.entry.route.fitted.now guide.entry.rows.now found.now (row + 1) watches.new) }
{
    if !is_looked_at(guide.copies, found[row]) {
        return Ok(());
    }
    let stale = guide.rows[row];
    match span_of(guide.route.fitted, row, &stale) {
        Some(span) => add_span(&mut watches[stale.thread as usize], span),
        None => Ok(()),
    }
}

// Each thread without rows.
fn empty_watches(guide: Guide<'_, '_>, found: &[Found]) -> Result<Vec<Watch>, AllocError>
    ensures size { IfOk result (λ v. length v.items ≡ length guide.entry.route.fitted.now.guest.entries) }
    ensures built { IfOk result (λ v. AreBuilt guide.entry.copies guide.entry.route.fitted.now guide.entry.rows.now found.now 0 v.items) }
{
    let threads = guide.route.fitted.image().entries().len();
    let mut watches = Vec::with_capacity(guide.route.alloc, threads)?;
    for _ in 0..threads {
        watches.push(empty_watch(guide.route.alloc))?;
    }
    Ok(watches)
}

// Sorts the rows of each thread.
fn sort_all(watches: &mut [Watch]) -> Result<(), AllocError>
    ensures size { length watches.new ≡ length watches.old }
    ensures sorted { OnOk result (AreWatchesSorted watches.old watches.new) }
{
    for t in 0..watches.len() {
        sort(&mut watches[t])?;
    }
    Ok(())
}

/// The rows of each thread that are looked at, in the order of their read entries.
pub fn watches(guide: Guide<'_, '_>, found: &[Found]) -> Result<Vec<Watch>, AllocError>
    requires guide { IsGuide guide.route.fitted.now guide.rows.now guide.route.ends.now guide.route.code.now }
    requires same { length found.now ≡ length guide.rows.now }
    requires begun { AreBegun guide.copies guide.route.fitted.now guide.rows.now found.now }
    ensures size { IfOk result (λ v. length v.items ≡ length guide.entry.route.fitted.now.guest.entries) }
    ensures built { IfOk result (λ v. AreBuilt guide.entry.copies guide.entry.route.fitted.now guide.entry.rows.now found.now (length guide.entry.rows.now) v.items) }
    ensures sorted { IfOk result (λ v. (t : ℕ) (d : Watch) → t < length v.items → IsNonDecreasingBy (λ (s : Span). s.read) (slice_index_or v.items t d).spans.items) }
{
    let mut watches = empty_watches(guide, found)?;
    for row in 0..guide.rows.len() {
        add_row(guide, found, &mut watches, row)?;
    }
    sort_all(&mut watches)?;
    Ok(watches)
}
