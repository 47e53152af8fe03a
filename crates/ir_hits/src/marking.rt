//! The code of a guest, marked wherever points may hit a thread.

ghost use Rattle.std.specs.Prelude.{◌≡◌, ◌↔◌, true, false, length, map, IfOk, IsTrue};
ghost use Rattle.ir_mach.specs.Marks.{is_marked, AreStoresMarked};
ghost use Rattle.ir_hits.specs.Passing.{stores_at, KeepsMarks, IsBreakMarked, AreBreaksMarked, Watches, NoneWatches, AreCovered};

use crate::point::{NumberedPoint, OBJECTS_START};
use ir_command::Point;
use ir_image::{CODE_START, Code};
use ir_isa::{Inst, decode};
use ir_mach::MarkedCode;
use std::alloc::{AllocError, Global};

// Whether the word is the code of an instruction that stores.
fn stores(word: u32) -> bool
    ensures { result ≡ stores_at word }
{
    matches!(decode(word), Ok(Inst::Store { .. }))
}

// The marks of the code's stores, or of nothing.
fn first_marks(alloc: Global, code: &Code, is_watched: bool) -> Result<Vec<bool>, AllocError>
    ensures { IfOk result (λ v. is_watched ≡ true → AreStoresMarked code.now v.items) }
{
    if is_watched {
        code.words().iter().copied().map(stores).collect(alloc)
    } else {
        vec![in alloc; false; code.words().len()]
    }
}

// Marks the word at an address.
fn mark(marks: &mut [bool], address: u32)
    ensures marked { is_marked marks.new address ≡ true }
    ensures kept { KeepsMarks marks.old marks.new }
    ensures size { length marks.new ≡ length marks.old }
{
    if address < CODE_START {
        return;
    }
    let place = ((address - CODE_START) / 4) as usize;
    if place < marks.len() {
        marks[place] = true;
    }
}

// Marks the word at the point, where it is a breakpoint of thread t.
fn mark_break(marks: &mut [bool], t: usize, point: Point)
    ensures marked { IsBreakMarked marks.new t point }
    ensures kept { KeepsMarks marks.old marks.new }
    ensures size { length marks.new ≡ length marks.old }
{
    if let Point::Break { thread, address } = point {
        if thread as usize == t {
            mark(marks, address);
        }
    }
}

// Marks the words at all of thread t's breakpoints.
fn mark_breaks(marks: &mut [bool], t: usize, points: &[NumberedPoint])
    ensures marked { AreBreaksMarked marks.new t points.now (length points.now) }
    ensures kept { KeepsMarks marks.old marks.new }
    ensures size { length marks.new ≡ length marks.old }
{
    for i in 0..points.len() {
        mark_break(marks, t, points[i].point());
    }
}

// Whether the point watches a word of thread t's private memory.
fn watches(t: usize, point: Point) -> bool
    ensures { IsTrue result ↔ Watches t point }
{
    match point {
        Point::Watch { thread, address } => thread as usize == t && address < OBJECTS_START,
        Point::Break { .. } | Point::WatchObject { .. } => false,
    }
}

// Whether some point does.
fn some_watches(t: usize, points: &[NumberedPoint]) -> bool
    ensures { result ≡ false → NoneWatches t points.now (length points.now) }
{
    for i in 0..points.len() {
        if watches(t, points[i].point()) {
            return true;
        }
    }
    false
}

/// The code with a mark wherever a point may hit thread t: at its breakpoints, and at every store where a word of its private memory is
/// watched.
///
/// # Errors
/// Out of memory.
pub fn marked_code<'a>(
    alloc: Global,
    code: &'a Code,
    t: usize,
    points: &[NumberedPoint],
) -> Result<MarkedCode<'a>, AllocError>
    ensures words { IfOk result (λ m. m.words ≡ code.now) }
    ensures covered { IfOk result (λ m. AreCovered m t points.now) }
{
    let mut marks = first_marks(alloc, code, some_watches(t, points))?;
    mark_breaks(marks.as_mut_slice(), t, points);
    MarkedCode::new(alloc, code, marks)
}
