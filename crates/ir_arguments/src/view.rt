//! The arguments of `ir view`.

ghost use Rattle.std.specs.Prelude.{codes, map};
ghost use Rattle.ir_arguments.specs.Reading.{large_number};
ghost use Rattle.ir_arguments.specs.Asking.{picture_asked, part_asked, part_of_texts};
ghost use Rattle.ir_arguments.specs.Values.{YieldsOrNothing, rows_of_matches, text_for};
ghost use Rattle.ir_arguments.specs.Views.{AsksFor};

use crate::argument_err::ArgumentErr;
use crate::asked::{Asked, Print};
use crate::bonds::Bond;
use crate::forms::Form;
use crate::options::no_number;
use crate::subcommands::Row;
use crate::values::{
    FROM_IMAGE, TRACE, TRACE_FORM, given_text, has_flag, number_in, text_for, text_of, texts_for,
};
use clap::ArgMatches;
use ir_record_command::number_within;
use std::alloc::Global;

/// What follows the help of `ir view`.
pub const VIEW_AFTER: &str =
    "The page is a single HTML file for a browser, and loads nothing else: `ir view guest.trc > guest.html`. Each thread has a lane,
from left to right, and each event a box: filled for a write entry, pale for a read entry. An arrow leads from a write to each
thread that sees what it wrote. Each box is right of the boxes that it needs, and no further. That isn't its time. Without --image
an event that a thread logs while it holds an object may be drawn right of an event that came after it in every run. With it a
box goes from entering to leaving, in a row for each object that its thread holds, and waits can be seen. Repeated reads of
the same version, and repeated refused tries, are a single box. The writes that `ir stale` lists are marked. The button Keys
lists what the keys do, and #T.E after the page's name shows event E of thread T.
  --json            the data of the page: for each box its thread, its first event, its number of events, the event's
                    number in a trace's bytes, object or value, version, readers, and where it starts and ends
  --chrome          the same as events in the Trace Event format, for Perfetto and other viewers
If events need each other in a cycle, no run has the trace, and the single line is `circle thread T event E`: the lowest thread
that is stuck, and its next event. If a page would have over 200000 boxes, the single line is `too many boxes N`. A refused or
incoherent trace has the line that `ir stale` has.
Exit status: 0 printed, 1 a file that can't be read or standard output that can't be written, 2 bad arguments, or an event
that the trace doesn't have, 3 a refused trace or image, 4 an incoherent trace, a trace of no run of the image, a cycle or too many
boxes.
";

/// What the help says of it, and its arguments.
pub const ROW: Row<'static> = Row {
    name: "view",
    about: "Prints a picture of a trace as an HTML page",
    after: VIEW_AFTER,
    forms: &[
        TRACE_FORM,
        Form::Flag(JSON, "Prints only the data of the page"),
        Form::Flag(CHROME, "Prints events in the Trace Event format"),
        Form::Event(AROUND, "Shows only the boxes near event E of thread T"),
        Form::ValuedOr(
            SPAN,
            "N",
            "1000",
            "How near: boxes that start at most N places left or right of that event's box",
        ),
        Form::Valued(
            FROM_IMAGE,
            "IMAGE",
            "The file with the image, or an ELF file of the guest: boxes from entering to leaving, their steps, and only stale writes that rest on what was read",
        ),
    ],
    bonds: &[Bond::Excludes(CHROME, JSON), Bond::Needs(SPAN, AROUND)],
};

const JSON: &str = "json";

const CHROME: &str = "chrome";

const AROUND: &str = "around";

const SPAN: &str = "span";

/// The part that is shown.
#[derive(Clone, Copy, Debug, PartialEq, Eq)]
pub struct Part {
    /// The thread of the event that it is around.
    pub thread: u32,
    /// The event, by its place in the thread's log.
    pub event: u32,
    /// How far from the event's box others may start.
    pub span: u64,
}

/// Which trace is shown, and how.
#[derive(Drop)]
pub struct ViewArguments {
    /// The file of the trace.
    pub trace: String,
    /// Whether the data of the page is printed alone.
    pub json: bool,
    /// Whether events for other viewers are printed.
    pub chrome: bool,
    /// The part that is shown; if there is none, all is.
    pub part: Option<Part>,
    /// The file of the image, if steps are shown too.
    pub image: Option<String>,
}

// How far the part goes, or else what is wrong with the number.
fn span_of(alloc: Global, matches: &ArgMatches<'_>) -> Result<u64, ArgumentErr>
    ensures { YieldsOrNothing (λ v. v) result (large_number (text_for (rows_of_matches matches.now) (codes "span"))) }
{
    let text = text_for(matches, SPAN);
    match number_within(0, u64::MAX, text) {
        Some(span) => Ok(span),
        None => Err(ArgumentErr::Wrong(no_number(alloc, SPAN, text, u64::MAX)?)),
    }
}

// The part around the event that two texts give, or else what is wrong with them.
fn part_around(alloc: Global, span: u64, texts: &[&str]) -> Result<Option<Part>, ArgumentErr>
    ensures { YieldsOrNothing (λ v. v) result (part_of_texts span (map (λ s. s.now) texts.now)) }
{
    let [thread, event] = texts else {
        return Ok(None);
    };
    let thread = number_in(alloc, "--around", thread)?;
    let event = number_in(alloc, "--around", event)?;
    Ok(Some(Part {
        thread,
        event,
        span,
    }))
}

// The part that is asked for, if one is, or else what is wrong with it.
fn part_of(alloc: Global, matches: &ArgMatches<'_>) -> Result<Option<Part>, ArgumentErr>
    ensures { YieldsOrNothing (λ v. v) result (part_asked (rows_of_matches matches.now)) }
{
    let span = span_of(alloc, matches)?;
    part_around(alloc, span, texts_for(matches, AROUND))
}

/// What its arguments ask for.
#[tactic(auto, unfolding(crate::specs::Asking::picture_in))]
pub fn asked(alloc: Global, matches: &ArgMatches<'_>) -> Result<Asked, ArgumentErr>
    ensures { AsksFor picture_asked matches.now result }
{
    let part = part_of(alloc, matches)?;
    Ok(Asked::Print(Print::View(ViewArguments {
        trace: text_of(alloc, matches, TRACE)?,
        json: has_flag(matches, JSON),
        chrome: has_flag(matches, CHROME),
        part,
        image: given_text(alloc, matches, FROM_IMAGE)?,
    })))
}
