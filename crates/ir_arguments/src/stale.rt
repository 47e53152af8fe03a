//! The arguments of `ir stale`.

ghost use Rattle.ir_arguments.specs.Asking.{stale_asked};
ghost use Rattle.ir_arguments.specs.Views.{AsksFor};

use crate::argument_err::ArgumentErr;
use crate::asked::{Asked, Print};
use crate::forms::Form;
use crate::subcommands::Row;
use crate::values::{FROM_IMAGE, TRACE, TRACE_FORM, given_text, text_of};
use clap::ArgMatches;
use std::alloc::Global;

/// What follows the help of `ir stale`.
pub const STALE_AFTER: &str =
    "A write entry is stale if the last entry of its object by the same thread was for reading, at an earlier version. So
others wrote over what the thread had read, before it wrote. The first line is `stale N of M`: N stale writes among M
write entries. Then comes a line for each, by rising thread and event:
  thread T event E write O version W read event I version V overwritten by thread U event F
The write entry is at version W, and the read entry, event I of thread T, was at version V. Event F of thread U was the first
to write over version V. Events are numbered as in `ir trace`. A trace has no values, so a right guest is listed too if it looks
again in its write entry.
With --image only the stale writes are listed that rest on what was read: if the thread had read the words that were there
when it wrote, it would have put a different value into the object, or would have made a different call, or with a different
object or word, or not the same call within 65536 steps more. Each event has its step, and the line goes on:
  word K was X is Y value
Word K is the lowest that the thread read and that is different when it writes; X and Y are the words in hexadecimal digits.
The line ends in `value` if the thread would have put a different value, and otherwise in `way`. A write entry in which nothing
is put isn't listed.
If TRACE is no trace, the single line is `trace refused N`, and `incoherent thread T event E cause C` if its events contradict
each other, as `ir debug` has it. With --image it is `image refused N` if IMAGE is no image, and the lines with which
`ir debug` begins if the trace is of no run of the image.
Exit status: 0 printed, also if there are stale writes, 1 a file that can't be read or standard output that can't be
written, 2 bad arguments, 3 a refused image or trace, 4 an incoherent trace, or a trace of no run of the image.
";

/// What the help says of it, and its arguments.
pub const ROW: Row<'static> = Row {
    name: "stale",
    about: "Prints the writes that may rest on a read that was written over",
    after: STALE_AFTER,
    forms: &[
        TRACE_FORM,
        Form::Valued(
            FROM_IMAGE,
            "IMAGE",
            "The file with the image, or an ELF file of the guest: only writes that rest on what was read",
        ),
    ],
    bonds: &[],
};

/// Whose stale writes are printed.
#[derive(Drop)]
pub struct StaleArguments {
    /// The file of the trace.
    pub trace: String,
    /// The file of the image, if only the writes are printed that rest on what was read.
    pub image: Option<String>,
}

/// What its arguments ask for.
pub fn asked(alloc: Global, matches: &ArgMatches<'_>) -> Result<Asked, ArgumentErr>
    ensures { AsksFor stale_asked matches.now result }
{
    Ok(Asked::Print(Print::Stale(StaleArguments {
        trace: text_of(alloc, matches, TRACE)?,
        image: given_text(alloc, matches, FROM_IMAGE)?,
    })))
}
