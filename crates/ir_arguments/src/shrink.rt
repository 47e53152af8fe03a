//! The arguments of `ir shrink`.

ghost use Rattle.ir_arguments.specs.Asking.{shrinking_asked};
ghost use Rattle.ir_arguments.specs.Views.{AsksFor};

use crate::argument_err::ArgumentErr;
use crate::asked::Asked;
use crate::condition_text::ConditionText;
use crate::conditions::{UNTIL_FORM, wanted_by};
use crate::forms::Form;
use crate::options::random_in;
use crate::recording::{INPUT, INPUT_FORM, OUTPUT, OUTPUT_FORM, RANDOM_FORM};
use crate::seconds::{SECONDS, seconds_by};
use crate::subcommands::Row;
use crate::values::{IMAGE, IMAGE_FORM, TRACE, TRACE_FORM, given_text, text_of};
use clap::ArgMatches;
use std::alloc::Global;

const OUT: &str = "OUT";

/// What follows the help of `ir shrink`.
pub const SHRINK_AFTER: &str =
    "TRACE is a recording of IMAGE that fulfils each COND, as `ir hunt` or `ir record --order` wrote it. `ir` looks for a run that
fulfils each COND too and has fewer context switches. A step is a context switch if another thread took the step before it.
First `ir` makes an order of the threads that follows TRACE with few switches. Recorded by it, the guest has to give TRACE again.
Then `ir` leaves turns out and joins turns of one thread, as long as the run fulfils each COND with fewer switches: half of the
turns at once, then a quarter, and so on down to single turns. What is left out runs at the end, each thread as far as it can.
At a terminal standard error shows how many switches are left. The first line is `shrunk S0 to S1 order LIST`: the run had S0
switches and has S1 now, and `ir record --order LIST` records it. The next line is one of
  minimal              a last pass tried each item of LIST: left out, or made endless, with the next item or without it, the
                       run doesn't fulfil each COND, or has no fewer switches. Another order may have fewer
  stopped seconds      the time of `--seconds` was over before that was known
Then OUT is written, and the lines of `ir record` follow. COND is a single argument: one of these, `!` before it to negate it, or
several with ` | ` between them if any of them will do. `ir hunt --help` says more of them:
   end T E, code T V, word O I V, out T TEXT, fault, bad, budget, stale
S and FILE have to be those of the recording, which has to count its calls of CLOCK: a recording by real threads that call CLOCK
can't be shrunk. B and P are those of TRACE. OUT may not be TRACE.
Exit status: 0 shrunk, 1 a file that can't be read or written or is too long, 2 bad arguments, 3 a refused image or trace, or a
COND about what the guest hasn't, 4 no run of IMAGE has TRACE, or none with this S and FILE, 5 the run of TRACE doesn't fulfil a COND,
and a line says which, 6 the time was over: OUT is the best run so far.
";

/// What the help says of it, and its arguments.
pub const ROW: Row<'static> = Row {
    name: "shrink",
    about: "Records a run with fewer context switches that fulfils the same conditions",
    after: SHRINK_AFTER,
    forms: &[
        IMAGE_FORM,
        TRACE_FORM,
        Form::NeededPlace(
            OUT,
            "The file that the trace of the shrunk run is written to",
        ),
        UNTIL_FORM,
        Form::Valued(
            SECONDS,
            "N",
            "The seconds after which no further run is begun, from 1 to 1000000; without it the search goes on to its end",
        ),
        RANDOM_FORM,
        INPUT_FORM,
        OUTPUT_FORM,
    ],
    bonds: &[],
};

/// What is shrunk, how, and where to.
#[derive(Drop)]
pub struct ShrinkArguments {
    /// The file of the image.
    pub image: String,
    /// The file of the trace.
    pub trace: String,
    /// The file that the trace of the shrunk run is written to.
    pub out: String,
    /// The conditions, as they are written, but for those on stale writes.
    pub until: Vec<ConditionText>,
    /// Whether a stale write of the run has to rest on what was read, or none; `None` if nothing is asked of them.
    pub stale: Option<bool>,
    /// How many seconds the search may take; `None` if as many as it takes.
    pub seconds: Option<u32>,
    /// Where random words start.
    pub random: u64,
    /// The file that guests read.
    pub input: Option<String>,
    /// What the paths of the files of what threads print begin with, if they are asked for.
    pub output: Option<String>,
}

/// What its arguments ask for.
#[tactic(auto, unfolding(crate::specs::Asking::shrinking_in))]
pub fn asked(alloc: Global, matches: &ArgMatches<'_>) -> Result<Asked, ArgumentErr>
    ensures { AsksFor shrinking_asked matches.now result }
{
    let (until, stale) = wanted_by(alloc, matches)?;
    let seconds = seconds_by(alloc, matches)?;
    let random = random_in(alloc, matches)?;
    Ok(Asked::Shrink(ShrinkArguments {
        image: text_of(alloc, matches, IMAGE)?,
        trace: text_of(alloc, matches, TRACE)?,
        out: text_of(alloc, matches, OUT)?,
        until,
        stale,
        seconds,
        random,
        input: given_text(alloc, matches, INPUT)?,
        output: given_text(alloc, matches, OUTPUT)?,
    }))
}
