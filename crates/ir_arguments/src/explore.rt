//! The arguments of `ir explore`.

ghost use Rattle.std.specs.Prelude.{◌≤◌, codes, IfOk};
ghost use Rattle.ir_record_command.specs.Numerals.{number_within};
ghost use Rattle.ir_arguments.specs.Exploring.{ends_in, outcomes_in, reach_in, switches_given};
ghost use Rattle.ir_arguments.specs.Values.{YieldsOrNothing, rows_of_matches, first_given, text_for};

use crate::argument_err::ArgumentErr;
use crate::bonds::Bond;
use crate::condition_text::ConditionText;
use crate::forms::Form;
use crate::recording::{INPUT_FORM, OUTPUT, OUTPUT_FORM, PROFILE_FORM, RANDOM_FORM};
use crate::seconds::{SECONDS, seconds_by};
use crate::subcommands::Row;
use crate::values::{IMAGE_FORM, TRACE, UNTIL, given, text_for};
use crate::within::{ONLY, ONLY_FORM, WITHIN, WITHIN_FORM};
use clap::ArgMatches;
use ir_record_command::number_within;
use ir_thread::{MOST_BUDGET, Profile};
use std::alloc::Global;

/// What follows the help of `ir explore`.
pub const EXPLORE_AFTER: &str =
    "The outcome of a run is how each thread ended, with which code, what it printed, and the words of each object. Each different
outcome of the guest is printed once, by rising number of switches: how often the thread changes that makes the next entry or
try. A try may be refused, which is `T!` in LIST, or enter if no thread is in the object.
  outcome K switches C order LIST                `ir record --order LIST` with the same S, FILE and profile records a run that has
                                                 it, in a budget that suffices
  thread T end E code C out N                    each thread; then the N bytes that it printed, up to 32 a line
  object O words W0 W1 ..                        each object whose words aren't its first words
  hang switches C order LIST                     LIST leads to where no schedule reaches an end any more, if there is such a place
The last line says how the search ended, with K outcomes and N states in which each thread is before an entry or a try, or
done. States that differ only in registers that the code doesn't read any more count once:
  finished outcomes K states N hangs H           all outcomes are printed: each complete run of the guest has one of them. From H
                                                 states no run reaches an end any more
  covered C outcomes K states N                  all outcomes of runs of at most C switches are printed, as --switches C wants
  stopped WHY covered C outcomes K states N      it stopped before: what is printed is right, and complete up to C switches; `-`
                                                 is for not at all. WHY is `states`, the limit is reached; `private T`, thread T
                                                 reached the limit of steps without an entry or a try; `world T`, thread T has
                                                 called CLOCK too often to be counted; `log T`, a log is full; `seconds`, those
                                                 of --seconds are over; `outcomes`, as many as --max wants are found, and some
                                                 complete run has another; or `memory`
The line goes on with `clock counted` only if some run calls CLOCK, and after `finished` exactly then.
Without a last line, after a fault, what is printed is right, but nothing says how complete it is.
All this is about the runs in which no budget is spent and no log is full, and in which CLOCK, RANDOM and INPUT answer as
`ir record --order` answers them: CLOCK counts the calls of each thread from 0, and S and FILE say the rest. A recording by
real threads answers CLOCK with milliseconds, so its outcome may be a different one. At a terminal standard error shows once a
second how many states were found, after how many switches, and how many outcomes by the end of the level before.
With TRACE and COND the outcomes are printed up to the first that fulfils each COND, and the search ends there. Then come
  found outcome K switches C order LIST          no complete run of fewer than C switches has an outcome that fulfils them
and the lines of `ir record`. TRACE is written as `ir record IMAGE TRACE --order LIST --budget 1000000000000` writes it, with
the same S, FILE and profile.
If none fulfils them, the lines are those without COND, and TRACE isn't written. After `finished` no complete run of the guest
has an outcome that does, and after `covered C` and `stopped WHY covered C` none of at most C switches. COND is a single argument,
as in `ir hunt`: `end T E`, `code T V`, `word O I V`, `out T TEXT`, `fault`, `bad`, or one of them after `!`, or several of these
with ` | ` between them.
With `--until hang` alone all lines are printed, and if there is the line `hang`, TRACE is of the run by its LIST, and the lines of
`ir record` follow. The run goes on behind the hang until its budget ends it: each thread may take one step more than all threads
take together by LIST.
The seconds of --seconds are counted from where the program begins, over all of its searches. What a search has found by then is
still printed. With --within each search finds as many outcomes as --max wants at most.
With --within OTHER the outcomes are printed that the guest of OTHER doesn't have, each with its number and order, then
  image finished outcomes K states N hangs H     how the search for the outcomes of IMAGE ended, as above
  other finished outcomes K states N hangs H     the same of OTHER; if it isn't `finished`, IMAGE isn't searched
and one of
  within                                         each complete run of IMAGE comes to an outcome of OTHER
  outside M                                      M outcomes of IMAGE aren't any of OTHER's
  unknown                                        a search ended before either was known
With TRACE and OTHER the lines of `ir record` follow after `outside M`. TRACE is of the run by the LIST of the first printed
outcome, written as with COND. After `within` and `unknown` TRACE isn't written.
PARTS says what of outcomes counts, so that guests with other objects can be compared: `out` what each thread prints, `codes` how it
ends, `objects` the words of all objects, or a number the words of that object. Without --only all of it counts.
With --only PARTS and without OTHER outcomes that are the same in PARTS are a class. Of each class only the outcome that is found
first is printed, which has the fewest switches of them, with its number among all outcomes. After the line that says how the
search ended comes
  classes M                                      there are M classes among the outcomes that were found
Exit status: 0 finished without a hang, or covered, 1 a file that can't be read or written, memory that ran out outside the search,
or standard output that can't be written, 2 bad arguments, 3 a refused image, or a guest with more threads or objects than the
profile takes, or a COND about what the guest hasn't, 6 stopped, 7 finished, and from some state no run reaches an end any more.
With COND: 0 found, 5 finished or covered, and no outcome fulfils them, 6 stopped, and none was found. With `hang`: 0 found, 5
finished, and no run hangs, 6 covered or stopped. With OTHER: 0 within, 5 outside, 6 unknown.
";

/// What the help says of it, and its arguments.
pub const ROW: Row<'static> = Row {
    name: "explore",
    about: "Prints each different outcome of a guest, with an order that leads to it",
    after: EXPLORE_AFTER,
    forms: &[
        IMAGE_FORM,
        Form::Place(
            TRACE,
            "The file that the trace of the outcome is written to, with --until or --within",
        ),
        Form::Repeated(
            UNTIL,
            "COND",
            "What has to hold of the outcome that is recorded; given more than once, all of it",
        ),
        Form::ValuedOr(
            STATES,
            "N",
            "1000000",
            "The most states, from 1 to 100000000",
        ),
        Form::Valued(
            SWITCHES,
            "C",
            "The most switches, at most 1000000; without it all outcomes are looked for",
        ),
        Form::ValuedOr(
            PRIVATE,
            "N",
            "1000000",
            "The most steps of a thread up to its next entry or try, from 1 to 1000000000000",
        ),
        Form::Valued(
            SECONDS,
            "N",
            "The seconds after which the search stops, from 1 to 1000000; without it the search goes on to its end",
        ),
        Form::Valued(
            MAX,
            "K",
            "The most outcomes, from 1 to 100000000: the search stops once it knows one more; without it all are looked for",
        ),
        RANDOM_FORM,
        PROFILE_FORM,
        INPUT_FORM,
        OUTPUT_FORM,
        WITHIN_FORM,
        ONLY_FORM,
    ],
    bonds: &[
        Bond::Excludes(WITHIN, UNTIL),
        Bond::Excludes(ONLY, UNTIL),
        Bond::NeedsEither(TRACE, UNTIL, WITHIN),
        Bond::NeedsEither(OUTPUT, UNTIL, WITHIN),
        Bond::Needs(UNTIL, TRACE),
        Bond::Needs(OUTPUT, TRACE),
    ],
};

const STATES: &str = "states";

const SWITCHES: &str = "switches";

const PRIVATE: &str = "private";

const MAX: &str = "max";

// The most of each option.
const MOST_STATES: u64 = 100_000_000;

const MOST_SWITCHES: u64 = 1_000_000;

const MOST_PRIVATE: u64 = MOST_BUDGET;

const MOST_OUTCOMES: u64 = 100_000_000;

/// How far a guest is explored.
#[derive(Clone, Copy)]
pub struct Reach {
    /// The most states.
    pub states: usize,
    /// The most steps of a thread up to its next entry or try.
    pub private: u64,
    /// The most switches.
    pub switches: usize,
    /// How many seconds the search may take; `None` if as many as it takes.
    pub seconds: Option<u32>,
    /// How many different outcomes are printed at most; `None` if all are.
    pub outcomes: Option<usize>,
    ghost some: { 1 ≤ states },
}

/// Which guest is explored, how far, and what answers it.
#[derive(Drop)]
pub struct ExploreArguments {
    /// The file of the image.
    pub image: String,
    /// How far its guest is explored.
    pub reach: Reach,
    /// Which system calls there are.
    pub profile: Profile,
    /// Where random words start.
    pub random: u64,
    /// The file that guests read.
    pub input: Option<String>,
}

/// Which outcome is looked for, and where a run that has it goes.
#[derive(Drop)]
pub struct UntilArguments {
    /// Which guest is explored, and how far.
    pub explore: ExploreArguments,
    /// The file that the trace is written to.
    pub trace: String,
    /// The conditions, as they are written.
    pub until: Vec<ConditionText>,
    /// Whether a run that hangs is looked for in place of an outcome; then there are no conditions.
    pub hang: bool,
    /// What the paths of the files of what threads print begin with, if they are asked for.
    pub output: Option<String>,
}

// The number that the value of an option is, or else what is wrong with it.
fn number_in_option(
    alloc: Global,
    matches: &ArgMatches<'_>,
    option: &str,
    least: u64,
    most: u64,
) -> Result<u64, ArgumentErr>
    ensures value { YieldsOrNothing (λ v. v) result (number_within least most (text_for (rows_of_matches matches.now) option.now)) }
    ensures within { IfOk result (λ number. (least ≤ number) × (number ≤ most)) }
{
    let value = text_for(matches, option);
    match number_within(least, most, value) {
        Some(number) => Ok(number),
        None => Err(ArgumentErr::Wrong(format!(in alloc;
            "--{option}: '{value}' is no number from {least} to {most}"
        )?)),
    }
}

// The most switches that are asked for, if any are.
fn switches_of(alloc: Global, matches: &ArgMatches<'_>) -> Result<usize, ArgumentErr>
    ensures { YieldsOrNothing (λ v. v) result (switches_given (first_given (rows_of_matches matches.now) (codes "switches"))) }
{
    if given(matches, SWITCHES).is_none() {
        return Ok(usize::MAX);
    }
    let switches = number_in_option(alloc, matches, SWITCHES, 0, MOST_SWITCHES)?;
    Ok(switches as usize)
}

// The most outcomes that are asked for, if they are, or what is wrong with their number.
fn outcomes_of(alloc: Global, matches: &ArgMatches<'_>) -> Result<Option<usize>, ArgumentErr>
    ensures { YieldsOrNothing (λ v. v) result (outcomes_in (rows_of_matches matches.now)) }
{
    if given(matches, MAX).is_none() {
        return Ok(None);
    }
    let most = number_in_option(alloc, matches, MAX, 1, MOST_OUTCOMES)?;
    Ok(Some(most as usize))
}

// The most seconds and outcomes that are asked for, if they are, or what is wrong with one of the numbers.
fn ends_of(
    alloc: Global,
    matches: &ArgMatches<'_>,
) -> Result<(Option<u32>, Option<usize>), ArgumentErr>
    ensures { YieldsOrNothing (λ v. v) result (ends_in (rows_of_matches matches.now)) }
{
    let seconds = seconds_by(alloc, matches)?;
    let outcomes = outcomes_of(alloc, matches)?;
    Ok((seconds, outcomes))
}

/// How far a guest is explored, or what is wrong with an option.
#[tactic(auto, unfolding(crate::specs::Exploring::reach_in))]
pub fn reach_of(alloc: Global, matches: &ArgMatches<'_>) -> Result<Reach, ArgumentErr>
    ensures { YieldsOrNothing (λ r. (r.states, r.private, r.switches, r.seconds, r.outcomes)) result (reach_in (rows_of_matches matches.now)) }
{
    let states = number_in_option(alloc, matches, STATES, 1, MOST_STATES)?;
    let private = number_in_option(alloc, matches, PRIVATE, 1, MOST_PRIVATE)?;
    let switches = switches_of(alloc, matches)?;
    let (seconds, outcomes) = ends_of(alloc, matches)?;
    Ok(Reach {
        states: states as usize,
        private,
        switches,
        seconds,
        outcomes,
    })
}
