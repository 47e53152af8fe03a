//! The arguments of `ir why`.

ghost use Rattle.std.specs.Prelude.{codes, option_map};
ghost use Rattle.ir_arguments.specs.Reading.{if_given, large_numbers, small_number};
ghost use Rattle.ir_arguments.specs.Asking.{reasons_asked};
ghost use Rattle.ir_arguments.specs.Values.{YieldsOrNothing, rows_of_matches, first_given, text_for};
ghost use Rattle.ir_arguments.specs.Views.{AsksFor};

use crate::argument_err::ArgumentErr;
use crate::asked::{Asked, Print};
use crate::bonds::Bond;
use crate::forms::Form;
use crate::subcommands::Row;
use crate::values::{
    FROM_IMAGE, TRACE, TRACE_FORM, given, given_text, number_in, numbers_in, text_for, text_of,
};
use clap::ArgMatches;
use std::alloc::Global;

/// What follows the help of `ir why`.
pub const WHY_AFTER: &str =
    "Prints why event E of thread T came when it did. The first line is the event, as in `ir trace`. Then come
  needs thread U event F ENTRY                   an entry of a different thread that has to be left before
  past C C ..                                    for each thread how many of its events are before this event
  since thread T event E waited for thread U event F
A read entry needs the write entry that made its version. A write entry needs that entry too, and each read entry of the
version that it writes over. An event is before this event if it is an earlier event of its thread, if it is needed, or if it is
before an event that is. The chain of waits begins at the last event of T, up to E, that needs other threads. Of what that event
needs it names the entry that `ir view` places furthest right. Then it continues from there. If a thread waited for a second
object while it held the first, the chain follows that wait only with --image.
With --image each event has the position before its step, as ` step S`. What is needed has where its thread leaves the object,
as ` left at step S`, and so has what was waited for. There is a line more:
  least P P ..                                   the least consistent cut with T just after E: what `goto T S+1` answers
The past then is the events below that cut, without E. The chain continues from the last event before the object is left.
With --at P0,P1,.. too, the positions of a consistent cut, what is needed is ` met` if it is left there, or otherwise ` open`.
If events need each other in a cycle, no run has the trace, and the single line is `circle thread T event E`: the lowest thread
that is stuck, and its next event. What is refused has the lines that `ir stale` has.
Exit status: 0 printed, 1 a file that can't be read or standard output that can't be written, 2 bad arguments, an event that
the trace doesn't have, or positions that are no consistent cut, 3 a refused image or trace, 4 an incoherent trace, a cycle,
or a trace of no run of the image.
";

/// What the help says of it, and its arguments.
pub const ROW: Row<'static> = Row {
    name: "why",
    about: "Prints what an event needs, and the chain of waits that led to it",
    after: WHY_AFTER,
    forms: &[
        TRACE_FORM,
        Form::NeededPlace(THREAD, "The number of the thread"),
        Form::NeededPlace(EVENT, "The number of the event in the thread's log, from 0"),
        Form::ValuedOr(LINES, "N", "20", "The most lines of the chain of waits"),
        Form::Valued(
            FROM_IMAGE,
            "IMAGE",
            "The file with the image, or an ELF file of the guest: the steps of the events and of the leaves, the least cut that has the event, and waits of threads that held an object",
        ),
        Form::Valued(
            AT,
            "P0,P1,..",
            "The positions of a consistent cut, a position for each thread: tells if what is needed has been left there",
        ),
    ],
    bonds: &[Bond::Needs(AT, FROM_IMAGE)],
};

/// The number of the thread.
const THREAD: &str = "T";

/// The number of the event.
const EVENT: &str = "E";

const LINES: &str = "lines";

const AT: &str = "at";

/// The event that is asked about.
#[derive(Drop)]
pub struct WhyArguments {
    /// The file of the trace.
    pub trace: String,
    /// The thread of the event.
    pub thread: u32,
    /// The event, by its place in the thread's log.
    pub event: u32,
    /// How many waits of the chain are printed at most.
    pub lines: u32,
    /// The file of the image, if steps are told too.
    pub image: Option<String>,
    /// The positions of the threads of a cut, if it is asked what is left there.
    pub at: Option<Vec<u64>>,
}

// The number of an argument, or else what is wrong with it.
fn number_of(
    alloc: Global,
    matches: &ArgMatches<'_>,
    argument: &str,
    name: &str,
) -> Result<u32, ArgumentErr>
    ensures { YieldsOrNothing (λ v. v) result (small_number (text_for (rows_of_matches matches.now) argument.now)) }
{
    number_in(alloc, name, text_for(matches, argument))
}

// The positions of a cut, if they are given, or else what is wrong with them.
fn positions_of(alloc: Global, matches: &ArgMatches<'_>) -> Result<Option<Vec<u64>>, ArgumentErr>
    ensures { YieldsOrNothing (option_map (λ v. v.items)) result (if_given large_numbers (first_given (rows_of_matches matches.now) (codes "at"))) }
{
    match given(matches, AT) {
        Some(text) => Ok(Some(numbers_in(alloc, "--at", text)?)),
        None => Ok(None),
    }
}

/// What its arguments ask for.
#[tactic(auto, unfolding(crate::specs::Asking::reasons_in))]
pub fn asked(alloc: Global, matches: &ArgMatches<'_>) -> Result<Asked, ArgumentErr>
    ensures { AsksFor reasons_asked matches.now result }
{
    let thread = number_of(alloc, matches, THREAD, THREAD)?;
    let event = number_of(alloc, matches, EVENT, EVENT)?;
    let lines = number_of(alloc, matches, LINES, "--lines")?;
    let at = positions_of(alloc, matches)?;
    Ok(Asked::Print(Print::Why(WhyArguments {
        trace: text_of(alloc, matches, TRACE)?,
        thread,
        event,
        lines,
        image: given_text(alloc, matches, FROM_IMAGE)?,
        at,
    })))
}
