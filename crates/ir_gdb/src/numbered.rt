//! Points of gdb and of a session as the points of one search, each with a number that says which it is.

ghost use Rattle.std.specs.Prelude.{◌≡◌, ◌≤◌, ◌+◌, ◌*◌, ◌^◌, ◌<◌, ◌++◌, OnOk, IfOk, length};
ghost use Rattle.std.specs.List.{AllByRecursion};
ghost use Rattle.ir_gdb.specs.Stub.{IsWatched};
ghost use Rattle.ir_hits.specs.Watchable.{AreWatchable};
ghost use Rattle.ir_gdb.specs.Points.{word_points, watch_points, break_points, own_points, watched_words, points_upwards, points_downwards, with_stub_point};

use crate::guarded::Guarded;
use crate::point::Watched;
use ir_command::Point;
use ir_hits::NumberedPoint;
use std::alloc::{AllocError, Global};

/// What may stop a thread.
#[derive(Clone, Copy)]
pub struct Halts<'a> {
    /// Watches of gdb.
    pub watches: &'a [Watched],
    /// Breakpoints of gdb.
    pub breaks: &'a [Guarded],
    /// Points of the session.
    pub own: &'a [NumberedPoint],
}

// How many words the bytes of a watch lie in.
fn words_in(watched: Watched) -> u32
    requires { IsWatched watched }
    ensures { result ≡ watched_words watched }
{
    (watched.address + watched.size + 3) / 4 - watched.address / 4
}

// Puts this many words from an address on at the end, under one number.
#[tactic(auto, unfolding(crate::specs::Points::word_points))]
fn put_words(
    out: &mut Vec<NumberedPoint>,
    thread: u32,
    number: u32,
    count: u32,
    address: u32,
) -> Result<(), AllocError>
    requires { address + 4 * count < 2 ^ 32 }
    ensures { OnOk result (out.new.items ≡ out.old.items ++ word_points thread number count address) }
{
    if count == 0 {
        return Ok(());
    }
    out.push(NumberedPoint::new(number, Point::Watch { thread, address }))?;
    put_words(out, thread, number, count - 1, address + 4)
}

// Puts the watched words of a thread at the end, the first watch by this number, the others by the next.
#[tactic(auto, unfolding(crate::specs::Points::watch_points))]
fn put_watches(
    out: &mut Vec<NumberedPoint>,
    thread: u32,
    number: u32,
    watches: &[Watched],
) -> Result<(), AllocError>
    requires few { number + length watches.now ≤ 64 }
    requires watched { AllByRecursion IsWatched watches.now }
    ensures { OnOk result (out.new.items ≡ out.old.items ++ watch_points thread number watches.now) }
{
    match watches {
        [] => Ok(()),
        [first, rest @ ..] => {
            let address = first.address / 4 * 4;
            put_words(out, thread, number, words_in(*first), address)?;
            put_watches(out, thread, number + 1, rest)
        }
    }
}

// Puts the breakpoints of a thread at the end, the first at this place among the points, the others at the next.
#[tactic(auto, unfolding(crate::specs::Points::break_points))]
fn put_breaks(
    out: &mut Vec<NumberedPoint>,
    thread: u32,
    place: u32,
    breaks: &[Guarded],
) -> Result<(), AllocError>
    requires { place + length breaks.now ≤ 64 }
    ensures { OnOk result (out.new.items ≡ out.old.items ++ break_points thread place breaks.now) }
{
    match breaks {
        [] => Ok(()),
        [first, rest @ ..] => {
            let number = first.number_at(place);
            let address = first.point().address;
            out.push(NumberedPoint::new(number, Point::Break { thread, address }))?;
            put_breaks(out, thread, place + 1, rest)
        }
    }
}

// Puts points of a session at the end, under one number.
#[tactic(auto, unfolding(crate::specs::Points::own_points))]
fn put_own(
    out: &mut Vec<NumberedPoint>,
    number: u32,
    points: &[NumberedPoint],
) -> Result<(), AllocError>
    ensures { OnOk result (out.new.items ≡ out.old.items ++ own_points number points.now) }
{
    match points {
        [] => Ok(()),
        [first, rest @ ..] => {
            out.push(NumberedPoint::new(number, first.point()))?;
            put_own(out, number, rest)
        }
    }
}

/// The points of a thread that watches alone make.
///
/// # Errors
/// Out of memory.
pub fn watch_points(
    alloc: Global,
    thread: u32,
    watches: &[Watched],
) -> Result<Vec<NumberedPoint>, AllocError>
    requires few { length watches.now ≤ 64 }
    requires watched { AllByRecursion IsWatched watches.now }
    ensures points { IfOk result (λ v. v.items ≡ watch_points thread 0 watches.now) }
    ensures watchable { IfOk result (λ v. AreWatchable v.items) }
{
    let mut points = Vec::new(alloc);
    put_watches(&mut points, thread, 0, watches)?;
    Ok(points)
}

/// The points of a thread for a search upwards: watches have lower numbers than breakpoints.
///
/// # Errors
/// Out of memory.
pub fn points_upwards(
    alloc: Global,
    thread: u32,
    halts: Halts<'_>,
) -> Result<Vec<NumberedPoint>, AllocError>
    requires few { length halts.breaks.now + length halts.watches.now ≤ 64 }
    requires watched { AllByRecursion IsWatched halts.watches.now }
    requires own { AreWatchable halts.own.now }
    ensures points { IfOk result (λ v. v.items ≡ points_upwards thread halts.entry.watches.now halts.entry.breaks.now halts.entry.own.now) }
    ensures watchable { IfOk result (λ v. AreWatchable v.items) }
{
    let mut points = Vec::new(alloc);
    let watches = halts.watches.len() as u32;
    let all = watches + halts.breaks.len() as u32;
    put_watches(&mut points, thread, 0, halts.watches)?;
    put_breaks(&mut points, thread, watches, halts.breaks)?;
    put_own(&mut points, all, halts.own)?;
    Ok(points)
}

/// The points of a thread for a search downwards: breakpoints have lower numbers than watches.
///
/// # Errors
/// Out of memory.
pub fn points_downwards(
    alloc: Global,
    thread: u32,
    halts: Halts<'_>,
) -> Result<Vec<NumberedPoint>, AllocError>
    requires few { length halts.breaks.now + length halts.watches.now ≤ 64 }
    requires watched { AllByRecursion IsWatched halts.watches.now }
    requires own { AreWatchable halts.own.now }
    ensures points { IfOk result (λ v. v.items ≡ points_downwards thread halts.entry.watches.now halts.entry.breaks.now halts.entry.own.now) }
    ensures watchable { IfOk result (λ v. AreWatchable v.items) }
{
    let mut points = Vec::new(alloc);
    let breaks = halts.breaks.len() as u32;
    let all = breaks + halts.watches.len() as u32;
    put_breaks(&mut points, thread, 0, halts.breaks)?;
    put_watches(&mut points, thread, breaks, halts.watches)?;
    put_own(&mut points, all, halts.own)?;
    Ok(points)
}

/// The points of a thread for a search upwards, and one more breakpoint.
///
/// # Errors
/// Out of memory.
pub fn points_with(
    alloc: Global,
    thread: u32,
    halts: Halts<'_>,
    address: u32,
) -> Result<Vec<NumberedPoint>, AllocError>
    requires few { length halts.breaks.now + length halts.watches.now ≤ 64 }
    requires watched { AllByRecursion IsWatched halts.watches.now }
    requires own { AreWatchable halts.own.now }
    ensures points { IfOk result (λ v. v.items ≡ with_stub_point (points_upwards thread halts.entry.watches.now halts.entry.breaks.now halts.entry.own.now) thread address) }
    ensures watchable { IfOk result (λ v. AreWatchable v.items) }
{
    let mut points = points_upwards(alloc, thread, halts)?;
    points.push(NumberedPoint::new(0, Point::Break { thread, address }))?;
    Ok(points)
}
