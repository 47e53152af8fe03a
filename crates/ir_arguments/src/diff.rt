//! The arguments of `ir diff`.

ghost use Rattle.ir_arguments.specs.Asking.{difference_asked};
ghost use Rattle.ir_arguments.specs.Views.{AsksFor};

use crate::argument_err::ArgumentErr;
use crate::asked::{Asked, Print};
use crate::forms::Form;
use crate::subcommands::Row;
use crate::values::text_of;
use clap::ArgMatches;
use std::alloc::Global;

/// What follows the help of `ir diff`.
pub const DIFF_AFTER: &str =
    "Two recordings of a guest, say a bad and a good recording, begin alike and then part. The first line is `common C0 C1 ..`: of
each thread the first C events are common. Such an event is the same in both. If it is an entry, it finds the first words, or
what a common event made. If the budgets differ, the next line is `budget A and B`. Then comes for each thread:
  thread T same                                  all events are common, and the end, the code and the steps are equal
  thread T differs event E READY                 otherwise; E is its first event that isn't common
  1 EVENT by thread U event F                    what FIRST has there: the event as `ir trace` prints it and, of an entry,
                                                 who made the version that it finds; or `end E code C steps S`
  2 EVENT by first words                         the same of SECOND; here the entry finds the object's first words
READY is empty, `ready in 1`, `ready in 2` or `ready in 1 and 2`: in these traces all that the event needs of other threads is
common. Look at the threads that are ready first: the runs part there, and the others follow. If a thread held an object over an
event that isn't common, a thread that is ready may only follow too.
If the threads differ in number, the single line is `header differs 1`. If the objects do, it is `header differs 2`. A refused or
incoherent trace has the line that `ir stale` has, the first file first.
Exit status: 0 printed, 1 a file that can't be read or standard output that can't be written, 2 bad arguments, 3 a refused
trace, 4 an incoherent trace or headers that differ.
";

/// What the help says of it, and its arguments.
pub const ROW: Row<'static> = Row {
    name: "diff",
    about: "Prints what two recordings have in common, and where they part",
    after: DIFF_AFTER,
    forms: &[
        Form::NeededPlace(FIRST, "The file with a trace"),
        Form::NeededPlace(SECOND, "The file with the trace that it is compared with"),
    ],
    bonds: &[],
};

/// The file of the first trace.
const FIRST: &str = "FIRST";

/// The file of the second one.
const SECOND: &str = "SECOND";

/// Which traces are compared.
#[derive(Drop)]
pub struct DiffArguments {
    /// The file of the first trace.
    pub first: String,
    /// The file of the second one.
    pub second: String,
}

/// What its arguments ask for.
pub fn asked(alloc: Global, matches: &ArgMatches<'_>) -> Result<Asked, ArgumentErr>
    ensures { AsksFor difference_asked matches.now result }
{
    Ok(Asked::Print(Print::Diff(DiffArguments {
        first: text_of(alloc, matches, FIRST)?,
        second: text_of(alloc, matches, SECOND)?,
    })))
}
