//! All lines about an event.

ghost use Rattle.std.specs.Prelude.{◌≡◌, ◌<◌, ◌++◌, List, length, flat_map, IfOk, OnOk};
ghost use Rattle.ir_trace.specs.Recorded.{recorded_thread};
ghost use Rattle.ir_past.specs.Answers.{AreCoherent};
ghost use Rattle.ir_why.specs.Answers.{IsReason};
ghost use Rattle.ir_why.specs.Lines.{need_line, link_line};
ghost use Rattle.ir_why.specs.Tables.{AreThere};
ghost use Rattle.ir_picture.specs.Boxes.{AreBoxes};
ghost use Rattle.ir_picture.specs.Placing.{events_of_all};
ghost use Rattle.ir_picture.specs.Places.{AreBoxesPlaced};
ghost use Rattle.ir_picture.specs.declared.placed_box.Point.{Point};

use crate::before::past_of;
use crate::chain::chain_of;
use crate::lines::{link_line, past_line, push_event};
use crate::link::Link;
use crate::tables::tables_of;
use ir_past::Place;
use ir_picture::PlacedBox;
use ir_trace::Trace;
use std::alloc::{AllocError, Global};

// Adds the line of an event that is needed.
fn push_need(
    alloc: Global,
    text: &mut Vec<u8>,
    trace: &Trace,
    place: Place,
) -> Result<(), AllocError>
    requires thread { place.thread < length trace.now.threads }
    requires event { place.event < length (recorded_thread trace.now place.thread).events }
    ensures { OnOk result (text.new.items ≡ text.old.items ++ need_line trace.now place) }
{
    text.extend_from_slice(b"needs ")?;
    push_event(alloc, text, trace, place)
}

// Adds the lines of what is needed.
fn push_needs(
    alloc: Global,
    text: &mut Vec<u8>,
    trace: &Trace,
    needs: &[Place],
) -> Result<(), AllocError>
    requires { AreThere trace.now needs.now }
    ensures { OnOk result (text.new.items ≡ text.old.items ++ flat_map (need_line trace.now) needs.now) }
{
    for place in needs {
        push_need(alloc, text, trace, *place)?;
    }
    Ok(())
}

// Adds the lines of a chain.
fn push_links(alloc: Global, text: &mut Vec<u8>, links: &[Link]) -> Result<(), AllocError>
    ensures { OnOk result (text.new.items ≡ text.old.items ++ flat_map link_line links.now) }
{
    for link in links {
        text.extend_from_slice(link_line(alloc, link)?.as_bytes())?;
    }
    Ok(())
}

/// The lines about an event of a coherent trace whose boxes these are, with at most this many waits.
///
/// # Errors
/// Out of memory.
pub fn reason_of(
    alloc: Global,
    trace: &Trace,
    here: Place,
    most: u32,
    boxes: &[PlacedBox],
) -> Result<Vec<u8>, AllocError>
    requires coherent { AreCoherent trace.now }
    requires thread { here.thread < length trace.now.threads }
    requires event { here.event < length (recorded_thread trace.now here.thread).events }
    requires boxes { AreBoxes trace.now (events_of_all boxes.now) }
    ensures { IfOk result (λ text. (ends : List Point) → AreBoxesPlaced trace.now boxes.now ends → IsReason trace.now here most text.items) }
{
    let tables = tables_of(alloc, trace)?;
    let needs = tables.needs_of(alloc, trace, here)?;
    let past = past_of(alloc, trace, &tables, here)?;
    let links = chain_of(alloc, trace, &tables, boxes, here, most)?;
    let mut text = Vec::new(alloc);
    push_event(alloc, &mut text, trace, here)?;
    push_needs(alloc, &mut text, trace, &needs)?;
    text.extend_from_slice(past_line(alloc, &past)?.as_bytes())?;
    push_links(alloc, &mut text, &links)?;
    Ok(text)
}
