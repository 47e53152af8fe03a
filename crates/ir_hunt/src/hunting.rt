//! A hunt, and the recording of what it finds.

ghost use Rattle.std.specs.Prelude.{◌≡◌, ◌<◌, ℕ, false, true, IfOk, IfErr, IfSome, MatchOption, None, OnOk};
ghost use Rattle.std.specs.String.{string_bytes};
ghost use Rattle.ir_files.specs.Writers.{writer_of};
ghost use Rattle.ir_record_command.specs.Faults.{fault_status};
ghost use Rattle.ir_record_command.specs.Stopping.{telling, tellings, devices};
ghost use Rattle.ir_record_command.specs.declared.record_fault.RecordFault.{RecordFault};
ghost use Rattle.ir_record_command.specs.declared.record_fault.RecordFault.TheVariants.{Lines};
ghost use Rattle.ir_hunt.specs.Finding.{IsOrderOfSeed, by_list};
ghost use Rattle.ir_hunt.specs.Hunted.{IsFoundIn, IsNoneIn};
ghost use Rattle.ir_hunt.specs.Lines.{found_line, left_out_words, none_lines};
ghost use Rattle.ir_hunt.specs.Stopping.{RefusesHunt, IsTold, TellsLeftOut, none_status, RecordsFound, StopsHunt};

use crate::plan::HuntPlan;
use crate::report::{found_line, left_out_words, none_lines};
use crate::search::{Found, Search, lowest_seed};
use crate::seeker::{Lost, Seeker};
use ir_files::{ExitStatus, OutputSink, WholeSink, tell};
use ir_record_command::{
    ParsedImage, RecordFault, RecordFiles, RecordPlan, Recording, record_by_list,
};
use ir_schedule::{Seeds, Way};
use ir_stream::{Sink, write_all};
use ir_trace::Trace;
use std::alloc::{AllocError, Global};
use std::thread::Threads;
use std::time::Clock;

/// The list that spells the order of a seed, for a guest that is recorded so but for its order. There is none if the run
/// has too many turns, or too many answers of the world outside, to be followed.
///
/// # Errors
/// The image is refused, or has more threads or objects than the profile allows; or out of memory.
pub fn order_of_seed<C: Clock>(
    alloc: Global,
    clock: &C,
    image: &ParsedImage<'_>,
    how: RecordPlan<'_>,
    way: Way,
    seed: u64,
) -> Result<Option<String>, RecordFault>
    ensures found { IfOk result (λ o. IfSome o (λ list. IsOrderOfSeed image.now how.entry way seed (string_bytes list))) }
    ensures refused { IfErr result (λ e. RefusesHunt e image.now how.entry) }
{
    let guest = image.allowed(&how)?;
    let plan = HuntPlan {
        record: how,
        way,
        seeds: Seeds {
            first: seed,
            last: seed,
        },
        conditions: &[],
        stale: None,
        jobs: 1,
        seconds: None,
        is_shown: false,
    };
    let mut seeker = Seeker::new(alloc, clock, guest, &plan)?;
    let choices = seeker.choices()?;
    match seeker.list_of_seed(seed, &choices) {
        Ok(list) => Ok(list),
        Err(Lost::TooLong) => Ok(None),
        Err(Lost::NoMem) => Err(RecordFault::NoMem),
    }
}

// What a hunt comes to: the lines that say so, what was found, how many seeds were left out, if any were, and which was tried last.
#[derive(Drop)]
struct Sought {
    line: String,
    found: Option<Found>,
    left_out: Option<String>,
    last: u64,
}

// What a hunt comes to, by its search.
fn sought_by(alloc: Global, search: Search, seeds: Seeds) -> Result<Sought, AllocError>
    ensures found { IfOk result (λ s. s.found ≡ search.found) }
    ensures last { IfOk result (λ s. s.last ≡ search.last) }
    ensures line { IfOk result (λ s. MatchOption s.found (string_bytes s.line ≡ none_lines seeds.first s.last seeds.last)
        (λ f. string_bytes s.line ≡ found_line f.seed (string_bytes f.list))) }
    ensures left_out { IfOk result (λ s. MatchOption s.left_out (search.left_out ≡ 0)
        (λ words. (0 < search.left_out) × (string_bytes words ≡ left_out_words search.left_out))) }
{
    let Search {
        found,
        left_out,
        last,
    } = search;
    let left_out = left_out_words(alloc, left_out)?;
    match found {
        Some(found) => {
            let line = found_line(alloc, found.seed, found.list.as_str())?;
            Ok(Sought {
                line,
                found: Some(found),
                left_out,
                last,
            })
        }
        None => {
            let line = none_lines(alloc, seeds, last)?;
            Ok(Sought {
                line,
                found: None,
                left_out,
                last,
            })
        }
    }
}

// What the hunt of a plan comes to.
fn hunted<R: Threads + Clock + Sync + Eprint>(
    rt: &R,
    alloc: Global,
    image: &ParsedImage<'_>,
    plan: &HuntPlan<'_>,
) -> Result<Sought, RecordFault>
    ensures sought { IfOk result (λ s. (left_out : ℕ)
        × MatchOption s.found (IsNoneIn image.now plan.now s.last left_out) (λ f. IsFoundIn image.now plan.now left_out f.seed (string_bytes f.list))
        × MatchOption s.left_out (left_out ≡ 0) (λ words. (0 < left_out) × (string_bytes words ≡ left_out_words left_out))) }
    ensures line { IfOk result (λ s. MatchOption s.found (string_bytes s.line ≡ none_lines plan.now.seeds.first s.last plan.now.seeds.last)
        (λ f. string_bytes s.line ≡ found_line f.seed (string_bytes f.list))) }
    ensures refused { IfErr result (λ e. RefusesHunt e image.now plan.now.record) }
{
    let guest = image.allowed(&plan.record)?;
    let search = lowest_seed(rt, alloc, guest, plan)?;
    let sought = sought_by(alloc, search, plan.seeds)?;
    Ok(sought)
}

// Reports a fault in its own words.
fn told<E: Sink>(faults: &mut E, why: RecordFault) -> ExitStatus
    requires { E.broken faults.old ≡ false }
    ensures status { result ≡ fault_status why }
    ensures told { IsTold why (writer_of (E.written faults.old) (E.written faults.new) (E.broken faults.new)) }
{
    tell(faults, why.words());
    why.status()
}

// Reports how many seeds were left out, if any were.
fn tell_left_out<E: Sink>(faults: &mut E, words: &Option<String>)
    requires { E.broken faults.old ≡ false }
    ensures { (left_out : ℕ) → MatchOption words.now (left_out ≡ 0) (λ words. (0 < left_out) × (string_bytes words ≡ left_out_words left_out))
        → TellsLeftOut left_out (writer_of (E.written faults.old) (E.written faults.new) (E.broken faults.new)) (faults.new ≡ faults.old) }
{
    match words {
        Some(words) => tell(faults, words.as_str()),
        None => {}
    }
}

// The exit status of a hunt that found none, by whether its time was over, and by the words that say how many seeds were left out.
fn none_status(is_over: bool, words: &Option<String>) -> ExitStatus
    ensures { (left_out : ℕ) → MatchOption words.now (left_out ≡ 0) (λ words. (0 < left_out) × (string_bytes words ≡ left_out_words left_out)) → result ≡ none_status is_over left_out }
{
    if is_over {
        return ExitStatus::GaveUp;
    }
    match words {
        Some(_) => ExitStatus::GaveUp,
        None => ExitStatus::NotSo,
    }
}

/// How a guest is recorded by a list.
pub fn by_list<'a>(how: &RecordPlan<'a>, list: &'a str) -> RecordPlan<'a>
    ensures { result ≡ by_list how.now list.now }
{
    RecordPlan {
        order: Some(list),
        budget: how.budget,
        random: how.random,
        input: how.input,
        profile: how.profile,
    }
}

/// Tries the seeds of a plan. If the run of one fulfils each of its conditions, the run of the lowest is recorded: first a line
/// `found seed S order LIST` is written, and then all that `record_by_list` writes of the recording by LIST. Else a line
/// `none A..B` is all that is written, of the seeds that were tried; and if the plan bounds the time, and it was over before the last seed, a line
/// `stopped seconds` after it. How many of the seeds that were tried were left out is reported at the end, if any were.
/// What was recorded is handed back.
///
/// # Errors
/// The exit status. It is `NotSo` if no seed fulfils the conditions, and `GaveUp` if none is known to, but some were left out or not tried. Else it is
/// the status of a fault, as of `record_run`, which is reported in one line.
pub fn hunt_run<R, W, P, O, E>(
    rt: &R,
    image: &ParsedImage<'_>,
    plan: &HuntPlan<'_>,
    files: &mut RecordFiles<W, P>,
    out: &mut O,
    faults: &mut E,
) -> Result<Trace, ExitStatus>
where
    R: Threads + Sync + Clock + Eprint + AllocGlobal,
    W: WholeSink,
    P: OutputSink,
    O: Sink,
    E: Sink,
    requires writes { W.broken files.old.trace ≡ false }
    requires puts { P.broken files.old.outputs ≡ false }
    requires prints { O.broken out.old ≡ false }
    requires reports { E.broken faults.old ≡ false }
    // Of the lowest seed that is found, whose run fulfils each condition: the run's trace was written, what its threads printed, and the lines
    // with the list. If seeds were left out, it is reported how many.
    ensures done { IfOk result (λ recorded. RecordsFound (tellings (telling W.written W.broken W.called W.cause) (telling P.taken P.broken P.called P.cause) O.written O.broken)
        recorded image.now plan.now (devices files.old.trace files.old.outputs out.old) (devices files.new.trace files.new.outputs out.new)
        (writer_of (E.written faults.old) (E.written faults.new) (E.broken faults.new)) (faults.new ≡ faults.old)) }
    ensures whole { OnOk result (W.whole files.new.trace ≡ true) }
    // Else each seed was tried, or where the time is bounded each up to one, and none is found, which was written, and it is reported how many were
    // left out, if some were; or nothing was written; or the lines failed; or what was found is said, and its recording stopped.
    ensures stopped { IfErr result (λ status. StopsHunt (tellings (telling W.written W.broken W.called W.cause) (telling P.taken P.broken P.called P.cause) O.written O.broken)
        status image.now plan.now (devices files.old.trace files.old.outputs out.old) (devices files.new.trace files.new.outputs out.new)
        (writer_of (E.written faults.old) (E.written faults.new) (E.broken faults.new)) (faults.new ≡ faults.old)) }
    // The files are those of the same places.
    ensures homes { (W.home files.new.trace ≡ W.home files.old.trace) × (P.home files.new.outputs ≡ P.home files.old.outputs) }
{
    let alloc = rt.alloc();
    let sought = match hunted(rt, alloc, image, plan) {
        Ok(sought) => sought,
        Err(why) => return Err(told(faults, why)),
    };
    if write_all(out, sought.line.as_bytes()).is_err() {
        return Err(told(faults, RecordFault::Lines));
    }
    let Some(found) = &sought.found else {
        tell_left_out(faults, &sought.left_out);
        let is_over = sought.last < plan.seeds.last;
        return Err(none_status(is_over, &sought.left_out));
    };
    let list = found.list.as_str();
    let plan = &by_list(&plan.record, list);
    let recording = Recording { image, plan };
    let recorded = record_by_list(rt, &recording, list, files, out, faults)?;
    tell_left_out(faults, &sought.left_out);
    Ok(recorded)
}
