//! The arguments of `ir hunt`.

ghost use Rattle.std.specs.Prelude.{codes};
ghost use Rattle.ir_arguments.specs.Asking.{bounds_in, hunt_asked, jobs_given};
ghost use Rattle.ir_arguments.specs.Values.{YieldsOrNothing, rows_of_matches, first_given};
ghost use Rattle.ir_arguments.specs.Views.{AsksFor};

use crate::argument_err::ArgumentErr;
use crate::asked::Asked;
use crate::condition_text::ConditionText;
use crate::conditions::{UNTIL_FORM, wanted_by};
use crate::forms::Form;
use crate::options::options_of;
use crate::recording::{
    BUDGET_FORM, INPUT_FORM, OUTPUT_FORM, PROFILE_FORM, RANDOM_FORM, RecordingOptions,
};
use crate::seconds::{SECONDS, seconds_by};
use crate::seeds::{BY_FORM, seeds_by, way_by};
use crate::subcommands::Row;
use crate::values::{IMAGE, IMAGE_FORM, TRACE, TRACE_OUT_FORM, given, has_flag, text_for, text_of};
use clap::ArgMatches;
use ir_record_command::number_within;
use ir_schedule::{Seeds, Way};
use std::alloc::Global;

const SEEDS: &str = "seeds";

const JOBS: &str = "jobs";

// The most threads that can be asked for.
const MOST_JOBS: u64 = 64;

const SHRINK: &str = "shrink";

/// What follows the help of `ir hunt`.
pub const HUNT_AFTER: &str =
    "Each seed gives a schedule of the guest's threads, always the same. The guest is run by the schedules of A, A+1 and so on up to
B, on all processors. The lowest seed whose run fulfils each COND is recorded again: `found seed S order LIST` is printed, then
TRACE is written, and the lines of `ir record` follow. LIST is for `ir record --order`. If no seed does, `none A..B` is printed,
nothing is written, and the exit status isn't 0. That proves nothing of other schedules. A+N is N seeds from A on.
After the seconds of `--seconds` no further seeds are begun: then `none A..L` is of the seeds that were tried, and
`stopped seconds` follows, if any are left.
With --shrink the lines of `ir shrink` follow those of what was found, and TRACE is written again, of the run that it is shrunk to.
`--seconds` then bounds both searches, each by itself.
Threads change places only before an entry, and when a thread is done; with P 2 also before a leave. The ways to choose:
   walk    each thread that can continue has the same chance
   pct:D   the thread of the highest priority continues. Priorities are drawn; at D - 1 drawn places the thread that would continue
           falls below the others. A thread that enters again and again while others could continue falls too: it polls.
   mix     even seeds walk, odd seeds are pct:2, pct:3 and pct:4 in turn
COND is a single argument: one of these, `!` before one to negate it, or several with ` | ` between them, of which one has to hold.
Numbers are decimal, or hexadecimal after 0x:
   end T E       thread T's end is E
   code T V      thread T ended by END with code V
   word O I V    word I of object O is V at the end
   out T TEXT    TEXT, all that follows a single blank, up to ` | `, occurs in what thread T printed
   fault         some thread didn't end by END
   bad           some thread didn't end by END with code 0
   budget        some thread's budget is spent: that is how a guest ends that waits forever
   stale         `ir stale` with the image lists a write: it rests on a read that was written over. Not beside ` | `
CLOCK, RANDOM, FILE, P and PREFIX are those of `ir record` with LIST. Ctrl-C ends a hunt, and nothing is written.
Exit status: 0 found, 1 a file that can't be read or written or is too long, 2 bad arguments, 3 a refused image, a guest with
more threads or objects than P allows, or a COND about what the guest hasn't, 5 none was found, 6 none was found among the seeds
that were followed, and some were left out because their runs have too many turns, or because the time was over. With --shrink also what
`ir shrink` ends with.
";

/// What the help says of it, and its arguments.
pub const ROW: Row<'static> = Row {
    name: "hunt",
    about: "Records the first of many seeds' orders that fulfils conditions",
    after: HUNT_AFTER,
    forms: &[
        IMAGE_FORM,
        TRACE_OUT_FORM,
        Form::ValuedOr(
            SEEDS,
            "SEEDS",
            "0+10000",
            "The seeds that are tried: A..B, from A to B, or A+N, N from A on",
        ),
        UNTIL_FORM,
        BY_FORM,
        Form::Valued(
            JOBS,
            "N",
            "The most seeds that are run at once, from 1 to 64; without it as many as there are processors",
        ),
        Form::Valued(
            SECONDS,
            "N",
            "The seconds after which no further seeds are begun, from 1 to 1000000; without it all seeds are tried",
        ),
        Form::Flag(
            SHRINK,
            "Then shrinks what was found, as `ir shrink` does: TRACE is of the run with fewer context switches",
        ),
        BUDGET_FORM,
        RANDOM_FORM,
        PROFILE_FORM,
        INPUT_FORM,
        OUTPUT_FORM,
    ],
    bonds: &[],
};

/// What is hunted, how, and where what is found goes.
#[derive(Drop)]
pub struct HuntArguments {
    /// The file of the image.
    pub image: String,
    /// The file that the trace is written to.
    pub trace: String,
    /// The seeds that are tried.
    pub seeds: Seeds,
    /// How a seed chooses which thread goes on.
    pub way: Way,
    /// The conditions, as they are written, but for those on stale writes.
    pub until: Vec<ConditionText>,
    /// Whether a stale write of the run has to rest on what was read, or none; `None` if nothing is asked of them.
    pub stale: Option<bool>,
    /// The most threads that hunt at once.
    pub jobs: usize,
    /// How many seconds the hunt may take; `None` if as many as it takes.
    pub seconds: Option<u32>,
    /// Whether what is found is shrunk.
    pub shrinks: bool,
    /// How the guest is recorded, by whatever order.
    pub options: RecordingOptions,
}

// The most threads that are asked for, or what is wrong with their number.
fn jobs_by(alloc: Global, matches: &ArgMatches<'_>) -> Result<usize, ArgumentErr>
    ensures { YieldsOrNothing (λ v. v) result (jobs_given (first_given (rows_of_matches matches.now) (codes "jobs"))) }
{
    let Some(text) = given(matches, JOBS) else {
        return Ok(usize::MAX);
    };
    match number_within(1, MOST_JOBS, text) {
        Some(number) => Ok(number as usize),
        None => Err(ArgumentErr::Wrong(format!(in alloc;
            "--{JOBS}: '{text}' is no number from 1 to {MOST_JOBS}"
        )?)),
    }
}

// The most threads and seconds that are asked for, or what is wrong with one of the numbers.
fn bounds_by(alloc: Global, matches: &ArgMatches<'_>) -> Result<(usize, Option<u32>), ArgumentErr>
    ensures { YieldsOrNothing (λ v. v) result (bounds_in (rows_of_matches matches.now)) }
{
    let jobs = jobs_by(alloc, matches)?;
    let seconds = seconds_by(alloc, matches)?;
    Ok((jobs, seconds))
}

/// What its arguments ask for.
#[tactic(auto, unfolding(crate::specs::Asking::hunt_in))]
pub fn asked(alloc: Global, matches: &ArgMatches<'_>) -> Result<Asked, ArgumentErr>
    ensures { AsksFor hunt_asked matches.now result }
{
    let options = options_of(alloc, matches)?;
    let seeds = seeds_by(alloc, SEEDS, text_for(matches, SEEDS))?;
    let way = way_by(alloc, matches)?;
    let (until, stale) = wanted_by(alloc, matches)?;
    let (jobs, seconds) = bounds_by(alloc, matches)?;
    Ok(Asked::Hunt(HuntArguments {
        image: text_of(alloc, matches, IMAGE)?,
        trace: text_of(alloc, matches, TRACE)?,
        seeds,
        way,
        until,
        stale,
        jobs,
        seconds,
        shrinks: has_flag(matches, SHRINK),
        options,
    }))
}
