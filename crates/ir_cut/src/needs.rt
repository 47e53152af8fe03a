//! What the entries of a cut need, and what needs its leaves.

ghost use Rattle.std.specs.Prelude.{◌≡◌, ◌<◌, ℕ, length, IsTrue, ◌↔◌};
ghost use Rattle.ir_runs.specs.Machine.{EnteredAt};
ghost use Rattle.ir_runs.specs.declared.access.Access.TheVariants.{Reading};
ghost use Rattle.ir_log.specs.Logging.{label_of};
ghost use Rattle.ir_cut.specs.Positions.{EachRun, cut_of};
ghost use Rattle.ir_fit.specs.Within.{IsFitted};
ghost use Rattle.ir_cut.specs.Searching.{AreInside, IsEntryAt, NeededBy, Needing, RaisedFor, LoweredFor};

use crate::moving::{are_inside, lower, raise};
use ir_fit::{Fitted, Leave};
use ir_log::Event;
use ir_runs::Access;

// Whether the leave that made the version is inside. No leave made the first.
fn is_made(fitted: &Fitted, positions: &[u64], object: u8, version: u32) -> bool
    requires fitted { IsFitted fitted.now }
    requires size { length positions.now ≡ length fitted.now.guest.entries }
    ensures { IsTrue result ↔ EachRun fitted.now (λ run. AreInside fitted.now run (NeededBy (EnteredAt object Reading version 0)) (cut_of positions.now)) }
{
    match version.checked_sub(1) {
        None => true,
        Some(before) => {
            let places = fitted.leaves_at(object, Access::Writing, before);
            are_inside(positions, places)
        }
    }
}

// Whether what the event needs is inside.
pub fn are_met(fitted: &Fitted, positions: &[u64], event: Event) -> bool
    requires fitted { IsFitted fitted.now }
    requires size { length positions.now ≡ length fitted.now.guest.entries }
    ensures { IsTrue result ↔ EachRun fitted.now (λ run. AreInside fitted.now run (NeededBy (label_of event)) (cut_of positions.now)) }
{
    match event {
        Event::Answer(..) | Event::Try { .. } => true,
        Event::Read { object, version } => is_made(fitted, positions, object, version),
        Event::Write {
            object,
            version,
            ..
        } => {
            let readers = fitted.leaves_at(object, Access::Reading, version);
            is_made(fitted, positions, object, version) && are_inside(positions, readers)
        }
    }
}

// The positions are raised until the leave that made the version is inside.
fn raise_to_maker(fitted: &Fitted, positions: &mut Vec<u64>, object: u8, version: u32)
    requires fitted { IsFitted fitted.now }
    requires size { length positions.old.items ≡ length fitted.now.guest.entries }
    ensures raised { EachRun fitted.now (λ run. RaisedFor fitted.now run (NeededBy (EnteredAt object Reading version 0)) positions.old.items positions.new.items) }
    ensures size { length positions.new.items ≡ length positions.old.items }
{
    if let Some(before) = version.checked_sub(1) {
        raise(positions, fitted.leaves_at(object, Access::Writing, before));
    }
}

// The positions are raised until what the event needs is inside, and no further.
pub fn raise_for(fitted: &Fitted, positions: &mut Vec<u64>, event: Event)
    requires fitted { IsFitted fitted.now }
    requires size { length positions.old.items ≡ length fitted.now.guest.entries }
    ensures raised { EachRun fitted.now (λ run. RaisedFor fitted.now run (NeededBy (label_of event)) positions.old.items positions.new.items) }
    ensures size { length positions.new.items ≡ length positions.old.items }
{
    match event {
        Event::Answer(..) | Event::Try { .. } => {}
        Event::Read { object, version } => raise_to_maker(fitted, positions, object, version),
        Event::Write {
            object,
            version,
            ..
        } => {
            raise_to_maker(fitted, positions, object, version);
            let left = fitted.leaves_at(object, Access::Reading, version);
            raise(positions, left);
        }
    }
}

// The positions are lowered until the entries at the version are outside.
fn lower_from(fitted: &Fitted, positions: &mut Vec<u64>, object: u8, version: u32)
    requires fitted { IsFitted fitted.now }
    requires size { length positions.old.items ≡ length fitted.now.guest.entries }
    ensures lowered { EachRun fitted.now (λ run. LoweredFor fitted.now run (IsEntryAt object version) positions.old.items positions.new.items) }
    ensures size { length positions.new.items ≡ length positions.old.items }
{
    lower(
        positions,
        fitted.entries_at(object, Access::Reading, version),
    );
    lower(
        positions,
        fitted.entries_at(object, Access::Writing, version),
    );
}

// The positions are lowered until what needs the leave is outside, and no further.
pub fn lower_for(fitted: &Fitted, positions: &mut Vec<u64>, leave: Leave)
    requires fitted { IsFitted fitted.now }
    requires size { length positions.old.items ≡ length fitted.now.guest.entries }
    ensures lowered { EachRun fitted.now (λ run. LoweredFor fitted.now run (Needing leave) positions.old.items positions.new.items) }
    ensures size { length positions.new.items ≡ length positions.old.items }
{
    match leave.access {
        Access::Reading => lower(
            positions,
            fitted.entries_at(leave.object, Access::Writing, leave.version),
        ),
        Access::Writing => {
            if let Some(made) = leave.version.checked_add(1) {
                lower_from(fitted, positions, leave.object, made);
            }
        }
    }
}
