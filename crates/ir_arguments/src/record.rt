//! The arguments of `ir record`.

ghost use Rattle.std.specs.Prelude.{◌≡◌, Some, option_map};
ghost use Rattle.ir_arguments.specs.Asking.{chaos_by, chaos_in, recording_asked};
ghost use Rattle.ir_arguments.specs.Values.{YieldsOrNothing, rows_of_matches};
ghost use Rattle.ir_arguments.specs.Views.{AsksFor};

use crate::argument_err::ArgumentErr;
use crate::asked::Asked;
use crate::bonds::Bond;
use crate::forms::Form;
use crate::options::{no_number, options_of};
use crate::recording::{
    BUDGET_FORM, INPUT_FORM, OUTPUT_FORM, PROFILE_FORM, RANDOM_FORM, RecordingOptions,
};
use crate::seeds::{BY, BY_FORM, way_by};
use crate::subcommands::Row;
use crate::values::{
    IMAGE, IMAGE_FORM, TRACE, TRACE_OUT_FORM, given, given_text, has_flag, text_of,
};
use clap::ArgMatches;
use ir_record_command::{RecordPlan, number_within};
use ir_schedule::Way;
use std::alloc::Global;

const ORDER: &str = "order";

const ORDER_FILE: &str = "order-file";

const CHAOS: &str = "chaos";

const STATUS: &str = "status";

/// A seed that gives an order.
#[derive(Clone, Copy, Debug, PartialEq, Eq)]
pub struct Chaos {
    /// The seed.
    pub seed: u64,
    /// How it chooses which thread goes on.
    pub way: Way,
}

/// What follows the help of `ir record`.
pub const RECORD_AFTER: &str =
    "Without LIST and SEED each thread of the guest runs on a thread of its own, and TRACE is of the run that came about. Recordings
of a guest, with the same arguments, may differ in which thread enters an object first, in what CLOCK answers, and in what
follows from these. They don't differ otherwise. A thread that waits for an object takes no step, and the budget doesn't end
it. It continues when the threads that hold the object have left or ended, as their budgets make them do. At a terminal standard
error shows the steps so far, once a second. Ctrl-C stops a recording, and TRACE stays as it was.
With LIST all run on a single thread, and recordings don't differ. LIST is items joined by commas: `T` is a step of thread T,
and `TxN` is N steps of it, N from 1 to 1000000. A turn of a thread that is done or must wait takes no step. After the list,
rounds over the threads from 0 on take a step of each that has a step left, until all are done. 1x18 lets thread 1 take 18 steps
before thread 0 takes its first. 0x10 is ten steps of thread 0, and no hexadecimal number. A line feed may end LISTFILE.
`T!` is a step of thread T in which a try is answered 0 whether or not a thread holds the object, and `T!xN` is N such steps. If
the thread doesn't try, its step is the same as of `T`.
With SEED all run on a single thread too, by the order that SEED gives: `ir hunt --help` says how. The same SEED gives the same order.
A guest that polls enters an object again and again until a word there changes. It may take hundreds of turns before the
thread that changes the word gets in. It may end by 13, its budget spent, though with other turns it would have ended well: give a larger B, or LIST.
CLOCK gives milliseconds since the start, modulo 2^32; with LIST or SEED it counts its own calls from 0, in each thread.
RANDOM gives PCG32's words, started by S plus the thread's number. Each thread reads its own copy of FILE, of at most
1048576 bytes, or nothing. TRACE is written to a new file, TRACE.part, and renamed once it is whole.
With P 2 guests may call TRY_WRITE too, call 13, and TRACE is of the second form, IRT2. With P 1 it is an unknown call, TRACE
is an IRT1, and a guest has at most 8 threads and 16 objects. A try is answered 0 if another thread holds the object. It may
also be answered 0 if none does; with LIST only in a step of `T!`.
With PREFIX what thread T printed is then written to PREFIX.T, before the lines. The file is empty if T printed nothing.
A line is `thread T end E code C steps S events N`; the ends E are
   1 END                   6 a bad load              11 an object that isn't held
   2 EBREAK                7 a bad store             12 too much output
   3 no instruction        8 an unknown call         13 the budget is spent
   4 a misaligned jump     9 no such object or word  14 too many events
   5 outside the code     10 an entry out of order
At a terminal standard error says in words how a thread ended, unless it was by END with code 0.
Exit status: 0 recorded, 1 a file that can't be read or written or is too long, a clock that can't be read, or a run by SEED with
more than 1048576 turns, 2 bad arguments, 3 a refused image or LIST, or a guest with more threads or objects than P allows;
with --status 5 if it is recorded, and a thread doesn't end by END with code 0:
`until ! ir record --status IMAGE TRACE; do :; done` records until one doesn't.
";

/// What the help says of it, and its arguments.
pub const ROW: Row<'static> = Row {
    name: "record",
    about: "Records a guest, and prints a line for each thread",
    after: RECORD_AFTER,
    forms: &[
        IMAGE_FORM,
        TRACE_OUT_FORM,
        Form::Valued(
            ORDER,
            "LIST",
            "Which thread takes each next step; without it, --order-file and --chaos the guest runs on real threads",
        ),
        Form::Valued(
            ORDER_FILE,
            "LISTFILE",
            "The file with LIST, in place of --order",
        ),
        Form::Valued(
            CHAOS,
            "SEED",
            "The seed that gives the order, at most 18446744073709551615",
        ),
        BY_FORM,
        BUDGET_FORM,
        RANDOM_FORM,
        PROFILE_FORM,
        INPUT_FORM,
        OUTPUT_FORM,
        Form::Flag(
            STATUS,
            "Exits with status 5 if a thread doesn't end by END with code 0",
        ),
    ],
    bonds: &[
        Bond::Excludes(ORDER_FILE, ORDER),
        Bond::Excludes(CHAOS, ORDER),
        Bond::Excludes(CHAOS, ORDER_FILE),
        Bond::Excludes(BY, ORDER),
        Bond::Excludes(BY, ORDER_FILE),
        Bond::Needs(BY, CHAOS),
    ],
};

/// What is recorded, how, and where to.
#[derive(Drop)]
pub struct RecordArguments {
    /// The file of the image.
    pub image: String,
    /// The file that the trace is written to.
    pub trace: String,
    /// The list that writes the order out, if it is given.
    pub order: Option<String>,
    /// The file with that list, if it is given so.
    pub order_file: Option<String>,
    /// The seed that gives the order, and how, if it is given.
    pub chaos: Option<Chaos>,
    /// How the guest is recorded, by whatever order.
    pub options: RecordingOptions,
    /// Whether the exit status says that a thread didn't end by END with code 0.
    pub status: bool,
}

impl RecordArguments {
    /// The plan of the recording, in the order of this list if there is one, of a guest that reads these bytes.
    pub fn plan<'a>(&self, order: Option<&'a str>, input: &'a [u8]) -> RecordPlan<'a>
        ensures { result
            ≡ record {
              order = option_map (λ s. s.now) order.entry;
              budget = self.now.options.budget;
              random = self.now.options.random;
              input = input.now;
              profile = self.now.options.profile;
            } }
    {
        self.options.plan(order, input)
    }
}

// The seed that a text is and this way, or else what is wrong with the text.
fn chaos_by(alloc: Global, text: &str, way: Way) -> Result<Option<Chaos>, ArgumentErr>
    ensures { YieldsOrNothing (λ v. v) result (option_map (λ chaos. Some chaos) (chaos_by way text.now)) }
{
    match number_within(0, u64::MAX, text) {
        Some(seed) => Ok(Some(Chaos { seed, way })),
        None => Err(ArgumentErr::Wrong(no_number(alloc, CHAOS, text, u64::MAX)?)),
    }
}

// The seed that gives the order and how, if it is given, or else what is wrong with it.
fn chaos_of(alloc: Global, matches: &ArgMatches<'_>) -> Result<Option<Chaos>, ArgumentErr>
    ensures { YieldsOrNothing (λ v. v) result (chaos_in (rows_of_matches matches.now)) }
{
    let way = way_by(alloc, matches)?;
    match given(matches, CHAOS) {
        Some(text) => chaos_by(alloc, text, way),
        None => Ok(None),
    }
}

/// What its arguments ask for.
#[tactic(auto, unfolding(crate::specs::Asking::recording_in))]
pub fn asked(alloc: Global, matches: &ArgMatches<'_>) -> Result<Asked, ArgumentErr>
    ensures { AsksFor recording_asked matches.now result }
{
    let options = options_of(alloc, matches)?;
    let chaos = chaos_of(alloc, matches)?;
    Ok(Asked::Record(RecordArguments {
        image: text_of(alloc, matches, IMAGE)?,
        trace: text_of(alloc, matches, TRACE)?,
        order: given_text(alloc, matches, ORDER)?,
        order_file: given_text(alloc, matches, ORDER_FILE)?,
        chaos,
        options,
        status: has_flag(matches, STATUS),
    }))
}
