//! Why a thread waited, link by link.

ghost use Rattle.std.specs.Prelude.{◌≡◌, ◌<◌, ◌≤◌, ◌⊎◌, ℕ, true, false, [], length, MatchOption, IfOk, Some};
ghost use Rattle.ir_coherence.specs.Before.{IsBefore};
ghost use Rattle.ir_trace.specs.Recorded.{recorded_thread};
ghost use Rattle.ir_past.specs.Answers.{AreCoherent};
ghost use Rattle.ir_past.specs.declared.place.Place as place;
ghost use Rattle.ir_picture.specs.Boxes.{AreBoxes};
ghost use Rattle.ir_picture.specs.Boxing.{AreBoxesApart};
ghost use Rattle.ir_picture.specs.Placing.{events_of_all};
ghost use Rattle.ir_why.specs.Chain.{IsLink, WaitsForNone, AreLinks};
ghost use Rattle.ir_why.specs.Tables.{HasTables, HaveBoxes, IsLatestIn};

use crate::link::Link;
use crate::starts::start_of;
use crate::tables::Tables;
use ir_past::Place;
use ir_picture::PlacedBox;
use ir_trace::Trace;
use std::alloc::{AllocError, Global};

// Whether an event comes before another by thread, and then by its place there.
fn comes_before(one: Place, other: Place) -> bool
    ensures set { result ≡ true → IsBefore one.thread one.event other.thread other.event }
    ensures clear { result ≡ false → IsBefore one.thread one.event other.thread other.event → ⊥ }
{
    one.thread < other.thread || one.thread == other.thread && one.event < other.event
}

// Whether an event that starts there is placed after another.
fn is_later(start: u64, one: Place, most: u64, other: Place) -> bool
    ensures set { result ≡ true → (most < start) ⊎ ((start ≡ most) × IsBefore one.thread one.event other.thread other.event) }
    ensures clear { result ≡ false → (start ≤ most) × (start ≡ most → IsBefore one.thread one.event other.thread other.event → ⊥) }
{
    start > most || start == most && comes_before(one, other)
}

// Of these events the one that is placed latest; of such the first by thread and event.
fn latest(boxes: &[PlacedBox], needs: &[Place]) -> Option<Place>
    requires apart { AreBoxesApart (events_of_all boxes.now) }
    requires there { HaveBoxes boxes.now needs.now }
    ensures { MatchOption result (needs.now ≡ []) (IsLatestIn boxes.now needs.now) }
{
    let mut best = *needs.first()?;
    let mut most = start_of(boxes, best);
    for place in needs {
        let start = start_of(boxes, *place);
        if is_later(start, *place, most, best) {
            best = *place;
            most = start;
        }
    }
    Some(best)
}

/// What the thread of an event waited for last, up to that event. Time is linear in its events up to there.
///
/// # Errors
/// Out of memory.
#[tactic(auto, using(ir_picture::proofs::CallerLemmas::boxes_are_apart, crate::proofs::Linked::needed_have_boxes))]
pub fn link_from(
    alloc: Global,
    trace: &Trace,
    tables: &Tables,
    boxes: &[PlacedBox],
    here: Place,
) -> Result<Option<Link>, AllocError>
    requires coherent { AreCoherent trace.now }
    requires tables { HasTables trace.now tables.now }
    requires boxes { AreBoxes trace.now (events_of_all boxes.now) }
    requires thread { here.thread < length trace.now.threads }
    requires event { here.event < length (recorded_thread trace.now here.thread).events }
    ensures { IfOk result (λ found. MatchOption found (WaitsForNone trace.now here.thread here.event) (IsLink trace.now boxes.now here.thread here.event)) }
{
    let mut event = here.event;
    loop {
        let waiting = Place {
            thread: here.thread,
            event,
        };
        let needs = tables.needs_of(alloc, trace, waiting)?;
        if let Some(needed) = latest(boxes, &needs) {
            return Ok(Some(Link { waiting, needed }));
        }
        if event == 0 {
            return Ok(None);
        }
        event -= 1;
    }
}

/// The chain of waits that led to an event, the last wait first: at most this many links. Each link goes on from what the one before it needed.
/// Time is linear in the events of the threads that are passed.
///
/// # Errors
/// Out of memory.
pub fn chain_of(
    alloc: Global,
    trace: &Trace,
    tables: &Tables,
    boxes: &[PlacedBox],
    here: Place,
    most: u32,
) -> Result<Vec<Link>, AllocError>
    requires coherent { AreCoherent trace.now }
    requires tables { HasTables trace.now tables.now }
    requires boxes { AreBoxes trace.now (events_of_all boxes.now) }
    requires thread { here.thread < length trace.now.threads }
    requires event { here.event < length (recorded_thread trace.now here.thread).events }
    ensures { IfOk result (λ links. AreLinks trace.now boxes.now most here.thread here.event links.items) }
{
    let mut links = Vec::new(alloc);
    let mut last = here;
    for _ in 0..most {
        let Some(link) = link_from(alloc, trace, tables, boxes, last)? else {
            return Ok(links);
        };
        last = link.needed;
        links.push(link)?;
    }
    Ok(links)
}
