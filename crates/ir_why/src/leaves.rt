//! Where what is needed is among the steps of a run.

ghost use Rattle.std.specs.Prelude.{◌≡◌, IfOk};
ghost use Rattle.ir_opened.specs.Positions.{IsInside, IsLeft};
ghost use Rattle.ir_cut.specs.Positions.{first_cut, IsConsistentCut};
ghost use Rattle.ir_why.specs.FitAnswers.{AreEventsInside, IsNeed, AreNeedsOf, IsLeastFor};
ghost use Rattle.ir_opened.specs.Paired.{ArePaired};
ghost use Rattle.ir_why.specs.Tables.{HasTables};

use crate::need::Need;
use crate::tables::Tables;
use ir_cut::{Cut, least};
use ir_fit::Fitted;
use ir_opened::{leave_of, step_of};
use ir_past::{Place, event_of};
use std::alloc::{AllocError, Global};

// Where a thread leaves what an event entered.
fn left_of(fitted: &Fitted, place: Place) -> Option<u64>
    requires { IsInside fitted.now place.thread place.event }
    ensures { IsLeft fitted.now place.thread place.event result }
{
    leave_of(fitted, place)
}

// An event that is needed, with what it logged and where what it entered is left.
fn need_of(fitted: &Fitted, place: Place) -> Need
    requires { IsInside fitted.now place.thread place.event }
    ensures { IsNeed fitted.now place result }
{
    fitted.known();
    let event = event_of(fitted.trace(), place);
    let left = left_of(fitted, place);
    Need { place, event, left }
}

// Events that are needed, each with what it logged and where what it entered is left.
fn needs_left(alloc: Global, fitted: &Fitted, places: &[Place]) -> Result<Vec<Need>, AllocError>
    requires { AreEventsInside fitted.now places.now }
    ensures { IfOk result (λ needs. ArePaired (IsNeed fitted.now) places.now needs.items) }
{
    let mut needs = Vec::new(alloc);
    for place in places {
        needs.push(need_of(fitted, *place))?;
    }
    Ok(needs)
}

/// What an event of a run needs of other threads.
///
/// # Errors
/// Out of memory.
pub fn needs_of(
    alloc: Global,
    fitted: &Fitted,
    tables: &Tables,
    here: Place,
) -> Result<Vec<Need>, AllocError>
    requires tables { HasTables fitted.now.recorded tables.now }
    requires inside { IsInside fitted.now here.thread here.event }
    ensures { IfOk result (λ needs. AreNeedsOf fitted.now here needs.items) }
{
    fitted.known();
    let places = tables.needs_of(alloc, fitted.trace(), here)?;
    needs_left(alloc, fitted, &places)
}

// All threads at 0.
fn first_cut(alloc: Global, fitted: &Fitted) -> Result<Cut, AllocError>
    ensures first { IfOk result (λ c. c ≡ first_cut fitted.now) }
    ensures consistent { IfOk result (λ c. IsConsistentCut fitted.now c) }
{
    let positions = vec![in alloc; 0u64; fitted.image().entries().len()]?;
    Ok(Cut::new(positions))
}

/// The least consistent cut that has the step by which an event is logged.
///
/// # Errors
/// Out of memory.
pub fn least_for(alloc: Global, fitted: &Fitted, here: Place) -> Result<Cut, AllocError>
    requires { IsInside fitted.now here.thread here.event }
    ensures { IfOk result (λ cut. IsLeastFor fitted.now here cut) }
{
    fitted.known();
    let first = first_cut(alloc, fitted)?;
    let behind = step_of(fitted, here) + 1;
    least(alloc, fitted, &first, here.thread as usize, behind)
}
