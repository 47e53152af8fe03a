//! What the boxes of a picture see of other threads.

ghost use Rattle.std.specs.Prelude.{◌≡◌, ◌+◌, ◌<◌, ℕ, Some, None, true, false, length, slice_set, IfSome, IfNone, OnOk, IfOk};
ghost use Rattle.ir_trace.specs.Recorded.{recorded_thread};
ghost use Rattle.ir_past.specs.Past.{entered};
ghost use Rattle.ir_past.specs.Progress.{FitsSoFar, Makes};
ghost use Rattle.ir_past.specs.Answers.{AreCoherent};
ghost use Rattle.ir_picture.specs.Boxing.{AreSomeBoxes};
ghost use Rattle.ir_picture.specs.Needs.{IsMakerOf};
ghost use Rattle.ir_picture.specs.Placing.{events_of_all};
ghost use Rattle.ir_picture.specs.Chrome.{SeesNew, AreSights};
ghost use Rattle.ir_picture.specs.Seeing.{Enters, entry_noted, HoldsEntries, SeesAt, SightsBefore};
ghost use Rattle.ir_picture.specs.declared.sights.Sight.{Sight};

use crate::finding::box_of;
use crate::placed_box::PlacedBox;
use crate::repeats::is_noted;
use crate::sights::Sight;
use ir_log::Event;
use ir_past::{Makers, Place, event_of, events_of, makers_of, thread_count};
use ir_trace::Trace;
use std::alloc::{AllocError, Global};

/// An object that is entered, at a version.
#[derive(Clone, Copy, Debug, PartialEq, Eq)]
pub struct Found {
    /// The object.
    pub object: u8,
    /// The version.
    pub version: u32,
}

// What an event enters.
fn found_by(event: Event) -> Option<Found>
    ensures found { IfSome result (λ f. Enters event f.object f.version) }
    ensures none { IfNone result (entered event ≡ None) }
{
    match event {
        Event::Read { object, version } => Some(Found { object, version }),
        Event::Write {
            object,
            version,
            ..
        } => Some(Found { object, version }),
        Event::Answer(..) | Event::Try { .. } => None,
    }
}

// Notes a version of an object; what was noted before.
fn turn(last: &mut [Option<u32>], found: Found) -> Option<u32>
    requires { found.object < length last.old }
    ensures value { result ≡ entry_noted last.old found.object }
    ensures rest { last.new ≡ slice_set last.old found.object (Some found.version) }
{
    let before = last[found.object as usize];
    last[found.object as usize] = Some(found.version);
    before
}

// Notes what an event enters; what its thread's entry of the object before didn't find.
fn note(last: &mut [Option<u32>], trace: &Trace, here: Place) -> Option<Found>
    requires thread { here.thread < length trace.now.threads }
    requires event { here.event < length (recorded_thread trace.now here.thread).events }
    requires fits { FitsSoFar (recorded_thread trace.now here.thread).events (length last.old) }
    requires holds { HoldsEntries trace.now here.thread here.event last.old }
    ensures length { length last.new ≡ length last.old }
    ensures holds { HoldsEntries trace.now here.thread (here.event + 1) last.new }
    ensures found { IfSome result (λ f. SeesNew trace.now here.thread here.event f.object f.version) }
    ensures none { IfNone result ((o v : ℕ) → SeesNew trace.now here.thread here.event o v → ⊥) }
{
    match found_by(event_of(trace, here)) {
        None => None,
        Some(found) => {
            let before = turn(last, found);
            if is_noted(before, found.version) {
                None
            } else {
                Some(found)
            }
        }
    }
}

// The write entry that made the version that is found; nothing made the first version.
fn maker_of(makers: &Makers, trace: &Trace, here: Place, found: Found) -> Option<Place>
    requires makes { Makes trace.now (length trace.now.threads) 0 makers.now }
    requires new { SeesNew trace.now here.thread here.event found.object found.version }
    ensures found { IfSome result (λ p. IsMakerOf trace.now here.thread here.event p.thread p.event) }
    ensures none { IfNone result ((u j : ℕ) → IsMakerOf trace.now here.thread here.event u j → ⊥) }
{
    if found.version == 0 {
        return None;
    }
    makers.get(found.object, found.version - 1)
}

// The sight of an event that finds a version, if both its box and that of the version's maker are shown and of two threads.
fn sight_of(
    boxes: &[PlacedBox],
    makers: &Makers,
    trace: &Trace,
    here: Place,
    found: Found,
) -> Option<Sight>
    requires coherent { AreCoherent trace.now }
    requires boxes { AreSomeBoxes trace.now (events_of_all boxes.now) }
    requires makes { Makes trace.now (length trace.now.threads) 0 makers.now }
    requires new { SeesNew trace.now here.thread here.event found.object found.version }
    ensures found { IfSome result (λ s. SeesAt trace.now boxes.now here.thread here.event s) }
    ensures none { IfNone result ((s : Sight) → SeesAt trace.now boxes.now here.thread here.event s → ⊥) }
{
    let maker = maker_of(makers, trace, here, found)?;
    if maker.thread == here.thread {
        return None;
    }
    Some(Sight {
        object: found.object,
        maker: box_of(boxes, maker)?,
        seer: box_of(boxes, here)?,
    })
}

// Adds what an event sees.
fn add_event(
    sights: &mut Vec<Sight>,
    last: &mut [Option<u32>],
    trace: &Trace,
    boxes: &[PlacedBox],
    makers: &Makers,
    here: Place,
) -> Result<(), AllocError>
    requires coherent { AreCoherent trace.now }
    requires boxes { AreSomeBoxes trace.now (events_of_all boxes.now) }
    requires makes { Makes trace.now (length trace.now.threads) 0 makers.now }
    requires thread { here.thread < length trace.now.threads }
    requires event { here.event < length (recorded_thread trace.now here.thread).events }
    requires fits { FitsSoFar (recorded_thread trace.now here.thread).events (length last.old) }
    requires holds { HoldsEntries trace.now here.thread here.event last.old }
    requires sights { SightsBefore trace.now boxes.now here.thread here.event sights.old.items }
    ensures length { length last.new ≡ length last.old }
    ensures holds { HoldsEntries trace.now here.thread (here.event + 1) last.new }
    ensures sights { OnOk result (SightsBefore trace.now boxes.now here.thread (here.event + 1) sights.new.items) }
{
    if let Some(found) = note(last, trace, here) {
        if let Some(sight) = sight_of(boxes, makers, trace, here, found) {
            sights.push(sight)?;
        }
    }
    Ok(())
}

// Adds what a thread sees.
fn add_thread(
    alloc: Global,
    sights: &mut Vec<Sight>,
    trace: &Trace,
    boxes: &[PlacedBox],
    makers: &Makers,
    thread: u8,
) -> Result<(), AllocError>
    requires coherent { AreCoherent trace.now }
    requires boxes { AreSomeBoxes trace.now (events_of_all boxes.now) }
    requires makes { Makes trace.now (length trace.now.threads) 0 makers.now }
    requires thread { thread < length trace.now.threads }
    requires sights { SightsBefore trace.now boxes.now thread 0 sights.old.items }
    ensures { OnOk result (SightsBefore trace.now boxes.now (thread + 1) 0 sights.new.items) }
{
    let mut last: Vec<Option<u32>> = vec![in alloc; None; trace.objects() as usize]?;
    for event in 0..events_of(trace, thread).len() as u32 {
        add_event(
            sights,
            &mut last,
            trace,
            boxes,
            makers,
            Place { thread, event },
        )?;
    }
    Ok(())
}

/// What boxes of a coherent trace see of other threads, in the order of those that see it.
///
/// # Errors
/// Out of memory.
pub fn sights_of(
    alloc: Global,
    trace: &Trace,
    boxes: &[PlacedBox],
) -> Result<Vec<Sight>, AllocError>
    requires coherent { AreCoherent trace.now }
    requires boxes { AreSomeBoxes trace.now (events_of_all boxes.now) }
    ensures { IfOk result (λ sights. AreSights trace.now boxes.now sights.items) }
{
    let makers = makers_of(alloc, trace)?;
    let mut sights = Vec::new(alloc);
    for thread in 0..thread_count(trace) {
        add_thread(alloc, &mut sights, trace, boxes, &makers, thread)?;
    }
    Ok(sights)
}
