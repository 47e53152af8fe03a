//! The arguments of `ir trace`.

ghost use Rattle.ir_arguments.specs.Asking.{trace_asked};
ghost use Rattle.ir_arguments.specs.Views.{AsksFor};

use crate::argument_err::ArgumentErr;
use crate::asked::{Asked, Print};
use crate::subcommands::Row;
use crate::values::{TRACE, TRACE_FORM, text_of};
use clap::ArgMatches;
use std::alloc::Global;

/// What follows the help of `ir trace`.
pub const TRACE_AFTER: &str =
    "The first line is `threads N objects M budget B profile P`. Then comes for each thread its line as `ir record` prints it,
`thread T end E code C steps S events N`. Its events follow, as `log T` of `ir debug` shows them at the thread's end:
`log N of N`, and a line for each event, with its number from 0 on:
  I clock V                          CLOCK answered V
  I random V                         RANDOM answered V
  I input V                          INPUT answered V
  I read O version V                 entered object O for reading, at its version V
  I write O version V readers R      entered object O for writing, at its version V, after R readers of it
  I try O                            tried to enter object O for writing, and was refused
If TRACE is no trace, the one line is `trace refused N`, as `ir debug` has it.
Exit status: 0 printed, 1 a file that can't be read or standard output that can't be written, 2 bad arguments,
3 a refused trace.
";

/// What the help says of it, and its arguments.
pub const ROW: Row<'static> = Row {
    name: "trace",
    about: "Prints a trace in lines",
    after: TRACE_AFTER,
    forms: &[TRACE_FORM],
    bonds: &[],
};

/// Which trace is printed.
#[derive(Drop)]
pub struct TraceArguments {
    /// The file of the trace.
    pub trace: String,
}

/// What its arguments ask for.
pub fn asked(alloc: Global, matches: &ArgMatches<'_>) -> Result<Asked, ArgumentErr>
    ensures { AsksFor trace_asked matches.now result }
{
    Ok(Asked::Print(Print::Trace(TraceArguments {
        trace: text_of(alloc, matches, TRACE)?,
    })))
}
