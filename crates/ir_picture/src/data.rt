//! The data of a picture: numbers in brackets.

ghost use Rattle.std.specs.Prelude.{◌≡◌, ◌++◌, IfOk, IfErr, OnOk, false, length};
ghost use Rattle.std.specs.Io.KnownBytes.{Appends};
ghost use Rattle.std.specs.String.{string_bytes};
ghost use Rattle.ir_files.specs.Writers.{writer_of};
ghost use Rattle.ir_text.specs.Buffered.{Buffered};
ghost use Rattle.ir_past.specs.Answers.{Stops};
ghost use Rattle.ir_picture.specs.Numbers.{picture_profile_number, around_part, steps_word, data_start, rows_from, thread_rows, thread_list, box_row, stale_row};
ghost use Rattle.ir_picture.specs.Progress.{data_head, stale_head, data_rows, AreBoxesOf, IsOfPicture};

use crate::asked::Around;
use crate::frame::Frame;
use crate::picture::Picture;
use crate::pieces::{empty_text, push_words, write_last, write_piece};
use crate::placed_box::{PlacedBox, Point};
use crate::rows::{push_box_row, push_stale_row, row_start, thread_row};
use ir_past::{PastErr, StaleWrite};
use ir_stream::Sink;
use ir_thread::Profile;
use ir_trace::{ThreadTrace, Trace};
use std::alloc::{AllocError, Global};

// The number of a profile.
fn profile_number(profile: Profile) -> u8
    ensures { result ≡ picture_profile_number profile }
{
    match profile {
        Profile::One => 1,
        Profile::Two => 2,
    }
}

// The event that a part is around, and how far it goes.
fn around_part(alloc: Global, near: &Option<Around>) -> Result<String, AllocError>
    ensures { IfOk result (λ s. string_bytes s ≡ around_part near.now) }
{
    match near {
        None => Ok(String::new(alloc)),
        Some(near) => {
            let Around {
                thread,
                event,
                span,
            } = *near;
            format!(in alloc; ",\"around\":[{thread},{event},{span}]")
        }
    }
}

// Whether the boxes have steps, in a word.
fn steps_word(steps: bool) -> &'static str
    ensures { result.now ≡ steps_word steps }
{
    if steps { "true" } else { "false" }
}

// What the data has before its lists.
fn data_start(
    alloc: Global,
    steps: bool,
    trace: &Trace,
    near: &Option<Around>,
) -> Result<String, AllocError>
    ensures { IfOk result (λ s. string_bytes s ≡ data_start steps trace.now near.now) }
{
    let steps = steps_word(steps);
    let objects = trace.objects();
    let profile = profile_number(trace.profile());
    let around = around_part(alloc, near)?;
    format!(in alloc;
        "{{\"ir_view\":1,\"steps\":{steps},\"objects\":{objects},\"profile\":{profile}{around}"
    )
}

// Adds the rows of threads.
fn push_thread_rows(
    alloc: Global,
    text: &mut String,
    threads: &[ThreadTrace],
    ends: &[Point],
) -> Result<(), AllocError>
    requires { length ends.now ≡ length threads.now }
    ensures { OnOk result (string_bytes text.new ≡ string_bytes text.old ++ thread_rows 0 threads.now ends.now) }
{
    for (number, thread) in threads.iter().enumerate() {
        text.push_str(row_start(number))?;
        text.push_str(thread_row(alloc, thread, ends[number])?.as_str())?;
    }
    Ok(())
}

// Adds the list of the threads to the data.
fn push_threads(
    alloc: Global,
    text: &mut String,
    trace: &Trace,
    ends: &[Point],
) -> Result<(), AllocError>
    requires { length ends.now ≡ length trace.now.threads }
    ensures { OnOk result (string_bytes text.new ≡ string_bytes text.old ++ thread_list trace.now ends.now) }
{
    text.push_str(",\"threads\":[")?;
    push_thread_rows(alloc, text, trace.threads(), ends)?;
    text.push_str("\n]")?;
    Ok(())
}

/// The text of a picture up to the rows of its boxes, after this.
///
/// # Errors
/// Out of memory.
pub fn data_head(
    alloc: Global,
    steps: bool,
    trace: &Trace,
    near: &Option<Around>,
    ends: &[Point],
    before: &[u8],
) -> Result<Vec<u8>, AllocError>
    requires { length ends.now ≡ length trace.now.threads }
    ensures { IfOk result (λ v. v.items ≡ before.now ++ data_head steps trace.now near.now ends.now) }
{
    let mut start = data_start(alloc, steps, trace, near)?;
    push_threads(alloc, &mut start, trace, ends)?;
    start.push_str(",\"boxes\":[")?;
    let mut text = empty_text(alloc)?;
    push_words(&mut text, before)?;
    push_words(&mut text, start.as_bytes())?;
    Ok(text)
}

// Adds the rows of boxes to a text that is written in pieces.
fn write_box_rows<O: Sink>(
    alloc: Global,
    text: &mut Vec<u8>,
    trace: &Trace,
    boxes: &[PlacedBox],
    out: &mut O,
) -> Result<(), PastErr>
    requires works { O.broken out.old ≡ false }
    requires boxes { AreBoxesOf trace.now boxes.now }
    ensures ok { OnOk result (Buffered (O.written out.old) (O.written out.new) text.new.items (text.old.items ++ rows_from (box_row trace.now) 0 boxes.now)) }
    ensures works { OnOk result (O.broken out.new ≡ false) }
    ensures fails { IfErr result (λ e. Stops e (writer_of (O.written out.old) (O.written out.new) (O.broken out.new)) (text.old.items ++ rows_from (box_row trace.now) 0 boxes.now)) }
{
    for (number, own) in boxes.iter().enumerate() {
        write_piece(text, out)?;
        push_box_row(alloc, text, number, trace, own)?;
    }
    Ok(())
}

// Adds the rows of stale writes to a text that is written in pieces.
fn write_stale_rows<O: Sink>(
    text: &mut Vec<u8>,
    rows: &[StaleWrite],
    out: &mut O,
) -> Result<(), PastErr>
    requires { O.broken out.old ≡ false }
    ensures ok { OnOk result (Buffered (O.written out.old) (O.written out.new) text.new.items (text.old.items ++ rows_from stale_row 0 rows.now)) }
    ensures works { OnOk result (O.broken out.new ≡ false) }
    ensures fails { IfErr result (λ e. Stops e (writer_of (O.written out.old) (O.written out.new) (O.broken out.new)) (text.old.items ++ rows_from stale_row 0 rows.now)) }
{
    for (number, row) in rows.iter().enumerate() {
        write_piece(text, out)?;
        push_stale_row(text, number, row)?;
    }
    Ok(())
}

// Adds the end of the boxes, and the rows of the stale writes after their name.
fn write_stale<O: Sink>(text: &mut Vec<u8>, rows: &[StaleWrite], out: &mut O) -> Result<(), PastErr>
    requires { O.broken out.old ≡ false }
    ensures ok { OnOk result (Buffered (O.written out.old) (O.written out.new) text.new.items (text.old.items ++ (stale_head ++ rows_from stale_row 0 rows.now))) }
    ensures works { OnOk result (O.broken out.new ≡ false) }
    ensures fails { IfErr result (λ e. Stops e (writer_of (O.written out.old) (O.written out.new) (O.broken out.new)) (text.old.items ++ (stale_head ++ rows_from stale_row 0 rows.now))) }
{
    push_words(text, b"\n],\"stale\":[")?;
    write_stale_rows(text, rows, out)
}

/// Writes the data of a trace's picture in a frame, 64 KiB and a row at a time at most.
///
/// # Errors
/// Out of memory, or the writer failed; then a prefix was written at most.
pub fn write_data<O: Sink>(
    alloc: Global,
    trace: &Trace,
    near: &Option<Around>,
    picture: &Picture,
    frame: &Frame,
    out: &mut O,
) -> Result<(), PastErr>
    requires works { O.broken out.old ≡ false }
    requires of_trace { IsOfPicture trace.now picture.now }
    ensures ok { OnOk result (Appends (O.written out.old) (O.written out.new) ((frame.now).before.items ++ (data_rows trace.now near.now picture.now ++ (frame.now).after.items))) }
    ensures works { OnOk result (O.broken out.new ≡ false) }
    ensures fails { IfErr result
        (λ e. Stops e (writer_of (O.written out.old) (O.written out.new) (O.broken out.new))
        ((frame.now).before.items ++ (data_rows trace.now near.now picture.now ++ (frame.now).after.items))) }
{
    let mut text = data_head(alloc, false, trace, near, &picture.ends, &frame.before)?;
    write_box_rows(alloc, &mut text, trace, &picture.boxes, out)?;
    write_stale(&mut text, &picture.stale, out)?;
    write_last(&mut text, &frame.after, out)
}
