//! A picture as events for other viewers.

ghost use Rattle.std.specs.Prelude.{◌≡◌, ◌++◌, IfOk, IfErr, OnOk, flat_map, length, false};
ghost use Rattle.std.specs.Io.KnownBytes.{Appends};
ghost use Rattle.ir_files.specs.Writers.{writer_of};
ghost use Rattle.ir_text.specs.Buffered.{Buffered};
ghost use Rattle.ir_past.specs.Past.{IsRising};
ghost use Rattle.ir_past.specs.Answers.{AreCoherent, Answered, NotAnswered, Stops};
ghost use Rattle.ir_picture.specs.Chrome.{box_line, picture_slices, thread_lines, all_threads, chrome_head, chrome_end, chrome_text, IsChromeAnswer};
ghost use Rattle.ir_picture.specs.Progress.{AreBoxesOf, IsOfPicture};

use crate::arrows::write_arrows;
use crate::asked::Around;
use crate::ends::push_ends_part;
use crate::picture::Picture;
use crate::pieces::{empty_text, push_number, push_words, write_last, write_piece};
use crate::placed_box::{PlacedBox, Point};
use crate::sighting::sights_of;
use crate::sights::Sight;
use crate::slices::{push_box, push_row};
use ir_files::ExitStatus;
use ir_past::{PastErr, StaleWrite, thread_count};
use ir_stream::Sink;
use ir_trace::Trace;
use std::alloc::{AllocError, Global};

const HEAD: &str = "{\"traceEvents\":[
{\"name\":\"process_name\",\"ph\":\"M\",\"pid\":1,\"tid\":0,\"args\":{\"name\":\"guest\"}}";

const END: &str = "
],\"displayTimeUnit\":\"ns\",\"otherData\":{\"source\":\"ir view\"}}
";

// Adds what names a thread's row, and what sets its place.
fn push_thread(text: &mut Vec<u8>, thread: u8) -> Result<(), AllocError>
    ensures { OnOk result (text.new.items ≡ text.old.items ++ thread_lines thread) }
{
    push_row(
        text,
        b",\n{\"name\":\"thread_name\",\"ph\":\"M\",\"pid\":1,\"tid\":",
        thread,
    )?;
    push_number(text, b",\"args\":{\"name\":\"thread ", thread)?;
    push_row(
        text,
        b"\"}},\n{\"name\":\"thread_sort_index\",\"ph\":\"M\",\"pid\":1,\"tid\":",
        thread,
    )?;
    push_row(text, b",\"args\":{\"sort_index\":", thread)?;
    push_words(text, b"}}")
}

// Adds the lines of the threads.
fn push_threads(text: &mut Vec<u8>, threads: u8) -> Result<(), AllocError>
    ensures { OnOk result (text.new.items ≡ text.old.items ++ all_threads threads) }
{
    for thread in 0..threads {
        push_thread(text, thread)?;
    }
    Ok(())
}

/// The lines before those of boxes, where threads end so.
///
/// # Errors
/// Out of memory.
pub fn chrome_head(
    alloc: Global,
    trace: &Trace,
    near: &Option<Around>,
    ends: &[Point],
) -> Result<Vec<u8>, AllocError>
    requires { length ends.now ≡ length trace.now.threads }
    ensures { IfOk result (λ v. v.items ≡ chrome_head trace.now near.now ends.now) }
{
    let mut text = empty_text(alloc)?;
    push_words(&mut text, HEAD.as_bytes())?;
    push_threads(&mut text, thread_count(trace))?;
    push_ends_part(alloc, &mut text, trace, near, ends)?;
    Ok(text)
}

/// What comes after the lines of arrows.
pub fn chrome_end() -> &'static str
    ensures { result.now ≡ chrome_end }
{
    END
}

// Adds the lines of boxes to a text that is written in pieces.
fn write_slices<O: Sink>(
    alloc: Global,
    text: &mut Vec<u8>,
    trace: &Trace,
    boxes: &[PlacedBox],
    stale: &[StaleWrite],
    out: &mut O,
) -> Result<(), PastErr>
    requires works { O.broken out.old ≡ false }
    requires boxes { AreBoxesOf trace.now boxes.now }
    requires rising { IsRising stale.now }
    ensures ok { OnOk result (Buffered (O.written out.old) (O.written out.new) text.new.items (text.old.items ++ flat_map (box_line trace.now stale.now) boxes.now)) }
    ensures works { OnOk result (O.broken out.new ≡ false) }
    ensures fails { IfErr result (λ e. Stops e (writer_of (O.written out.old) (O.written out.new) (O.broken out.new)) (text.old.items ++ flat_map (box_line trace.now stale.now) boxes.now)) }
{
    for own in boxes {
        write_piece(text, out)?;
        push_box(alloc, text, trace, stale, own)?;
    }
    Ok(())
}

// Writes the lines of a picture of which all that boxes see is known.
fn write_lines<O: Sink>(
    alloc: Global,
    trace: &Trace,
    near: &Option<Around>,
    picture: &Picture,
    sights: &[Sight],
    out: &mut O,
) -> Result<(), PastErr>
    requires works { O.broken out.old ≡ false }
    requires of_trace { IsOfPicture trace.now picture.now }
    ensures ok { OnOk result (Appends (O.written out.old) (O.written out.new) (chrome_text trace.now near.now (picture.now).ends.items (picture_slices trace.now picture.now) sights.now)) }
    ensures works { OnOk result (O.broken out.new ≡ false) }
    ensures fails { IfErr result
        (λ e. Stops e (writer_of (O.written out.old) (O.written out.new) (O.broken out.new))
        (chrome_text trace.now near.now (picture.now).ends.items (picture_slices trace.now picture.now) sights.now)) }
{
    let mut text = chrome_head(alloc, trace, near, &picture.ends)?;
    write_slices(alloc, &mut text, trace, &picture.boxes, &picture.stale, out)?;
    write_arrows(&mut text, sights, out)?;
    write_last(&mut text, chrome_end().as_bytes(), out)
}

/// Writes the events for other viewers, 64 KiB and a line at a time at most. All that is in them is found before the first are written.
///
/// # Errors
/// Out of memory, or the writer failed; then a prefix was written at most.
pub fn write_chrome<O: Sink>(
    alloc: Global,
    trace: &Trace,
    near: &Option<Around>,
    picture: &Picture,
    out: &mut O,
) -> Result<ExitStatus, PastErr>
    requires works { O.broken out.old ≡ false }
    requires coherent { AreCoherent trace.now }
    requires of_trace { IsOfPicture trace.now picture.now }
    ensures ok { IfOk result
        (λ answered. Answered (IsChromeAnswer trace.now near.now picture.now (picture_slices trace.now picture.now)) answered
        (writer_of (O.written out.old) (O.written out.new) (O.broken out.new))) }
    ensures fails { IfErr result
        (λ e. NotAnswered (IsChromeAnswer trace.now near.now picture.now (picture_slices trace.now picture.now)) e
        (writer_of (O.written out.old) (O.written out.new) (O.broken out.new))) }
{
    let sights = sights_of(alloc, trace, &picture.boxes)?;
    write_lines(alloc, trace, near, picture, &sights, out)?;
    Ok(ExitStatus::Done)
}
