//! The arguments of `ir events`.

ghost use Rattle.ir_arguments.specs.Asking.{events_asked};
ghost use Rattle.ir_arguments.specs.Views.{AsksFor};

use crate::argument_err::ArgumentErr;
use crate::asked::{Asked, Print};
use crate::subcommands::Row;
use crate::values::{IMAGE, IMAGE_FORM, MAP, NAMES_FORM, TRACE, TRACE_FORM, given_text, text_of};
use clap::ArgMatches;
use std::alloc::Global;

/// What follows the help of `ir events`.
pub const EVENTS_AFTER: &str =
    "For each event of each thread a line `thread T event I step S pc A EVENT` is printed: the event's number as in `ir trace`, the
thread's position before the step that logs it, the address of its ecall, and the event as `ir trace` prints it. In a session
of `ir debug` the command `goto T S` stops before that step, and `goto T S+1` after it, with the sum written out.
With MAP the address has its name: ` <NAME>` is at the symbol, ` <NAME+N>` is N bytes after it. MAP is what `nm -n` prints of a
program, and what `ir asm --map` writes: lines `A K NAME`, with the address in eight hexadecimal digits and a letter.
A trace that no run of the image has is refused, as `ir debug` does.
Exit status: 0 printed, 1 a file that can't be read or standard output that can't be written, 2 bad arguments, 3 a refused
image or trace, or a line of MAP that is no symbol, 4 a trace that doesn't fit.
";

/// What the help says of it, and its arguments.
pub const ROW: Row<'static> = Row {
    name: "events",
    about: "Prints each event of a recorded run with its position and address",
    after: EVENTS_AFTER,
    forms: &[IMAGE_FORM, TRACE_FORM, NAMES_FORM],
    bonds: &[],
};

/// Which events are listed, and by which names.
#[derive(Drop)]
pub struct EventsArguments {
    /// The file of the image.
    pub image: String,
    /// The file of the trace.
    pub trace: String,
    /// The file of the names, if there is one.
    pub map: Option<String>,
}

/// What its arguments ask for.
pub fn asked(alloc: Global, matches: &ArgMatches<'_>) -> Result<Asked, ArgumentErr>
    ensures { AsksFor events_asked matches.now result }
{
    Ok(Asked::Print(Print::Events(EventsArguments {
        image: text_of(alloc, matches, IMAGE)?,
        trace: text_of(alloc, matches, TRACE)?,
        map: given_text(alloc, matches, MAP)?,
    })))
}
