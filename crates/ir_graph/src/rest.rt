//! A thread that runs on alone to its next entry or try.

ghost use Rattle.std.specs.Prelude.{◌≡◌, ◌<◌, ◌≤◌, ℕ, List, Bool, Some, true, false, length, slice_get, slice_set, IfOk, IfErr, OnErr, OnOk};
ghost use Rattle.ir_flat.specs.Flat.{IsFlat, thread_of};
ghost use Rattle.ir_graph.specs.Plain.{IsFair, GoesPlain, OthersStay, Rests, sourced_flat};
ghost use Rattle.ir_graph.specs.Lone.{IsGiven};
ghost use Rattle.ir_graph.specs.Stops.{IsNotFollowed, IsSpent, StopsFollowing};
ghost use Rattle.ir_graph.specs.Turn.{GoesAlone};
ghost use Rattle.ir_world.specs.Sources.{Source, given};
ghost use Rattle.ir_search_laws.specs.Sources.{answer_of, left_of_source};
ghost use Rattle.ir_search.specs.declared.stop.Stop.TheVariants.{Log};
ghost use Rattle.ir_thread.specs.State.{ask_of, shared_ask};

use ir_flat::Flat;
use ir_search::Stop;
use ir_state_store::SourcedFlat;
use ir_thread::{Ask, End};
use ir_world::Sources;

// Whether a thread that asks so rests; if not, it may go on.
fn rests(thread: usize, asked: Ask) -> Result<bool, Stop>
    ensures rests { IfOk result (λ rests. rests ≡ true → Rests asked) }
    ensures plain { IfOk result (λ rests. rests ≡ false → IsFair asked) }
    ensures stopped { IfErr result (λ stop. (stop ≡ Log thread) × IsSpent asked) }
{
    match asked {
        Ask::Enter(_, _) | Ask::Try(_) | Ask::Done => Ok(true),
        Ask::End(End::BudgetSpent) | Ask::End(End::LogFull) => Err(Stop::Log(thread)),
        _ => Ok(false),
    }
}

// What the source answers a thread that asks so, if it calls the environment; else 0, at which nothing looks.
fn answer(source: &mut Sources<'_>, thread: usize, asked: Ask) -> Result<u32, Stop>
    ensures answer { IfOk result (λ r. r ≡ answer_of given (shared_ask asked) source.old) }
    ensures left { OnOk result (source.new ≡ left_of_source given (shared_ask asked) source.old) }
    ensures given { OnOk result (IsGiven source.old asked) }
    ensures stopped { IfErr result (λ stop. IsNotFollowed thread asked source.new stop) }
    ensures unchanged { OnErr result (source.new ≡ source.old) }
{
    let Ask::Env(kind) = asked else {
        return Ok(0);
    };
    match source.try_answer(kind) {
        Some(answer) => Ok(answer),
        None => Err(Stop::World(thread)),
    }
}

// A thread runs on alone as `run_to_rest` says, beside what answers it.
fn run_thread(
    flat: &mut Flat<'_>,
    source: &mut Sources<'_>,
    thread: usize,
    limit: u64,
) -> Result<u64, Stop>
    requires { thread < length flat.old.threads }
    ensures goes { (sources : List Source) → slice_get sources thread ≡ Some source.old
        → GoesPlain (sourced_flat flat.old sources) (sourced_flat flat.new (slice_set sources thread source.new)) }
    ensures alone { IfOk result (λ steps. (sources : List Source) → slice_get sources thread ≡ Some source.old → (refused : Bool)
        → GoesAlone (sourced_flat flat.old sources) (sourced_flat flat.new (slice_set sources thread source.new)) thread refused steps 0) }
    ensures within { IfOk result (λ steps. steps ≤ limit) }
    ensures others { (sources : List Source) → OthersStay (sourced_flat flat.old sources) (sourced_flat flat.new (slice_set sources thread source.new)) thread }
    ensures rests { OnOk result (Rests (ask_of flat.new.code (thread_of flat.new thread))) }
    ensures flat { IsFlat flat.new }
    ensures stopped { IfErr result (λ stop. (sources : List Source) → slice_get sources thread ≡ Some source.old
        → StopsFollowing (sourced_flat flat.old sources) (sourced_flat flat.new (slice_set sources thread source.new)) thread limit stop) }
{
    let mut taken = 0;
    'private: loop {
        let (steps, asked) = flat.run_to_ask(thread, limit - taken);
        taken += steps;
        let rests = match rests(thread, asked) {
            Ok(rests) => rests,
            Err(stop) => return Err(stop),
        };
        if rests {
            return Ok(taken);
        }
        if taken == limit {
            return Err(Stop::Private(thread));
        }
        let answer = match answer(source, thread, asked) {
            Ok(answer) => answer,
            Err(stop) => return Err(stop),
        };
        match flat.take(thread, asked, answer) {
            Ok(()) => {}
            Err(_) => unreachable!(),
        }
        taken += 1;
    }
}

/// A thread runs on alone, by at most `limit` steps, to its next entry or try or until it is done; how many they are. Its calls of the
/// environment are answered by its source.
///
/// # Errors
/// It takes as many steps without an entry or a try, calls for the time once more than can be counted, has a full log or a spent budget.
pub fn run_to_rest(state: &mut SourcedFlat<'_>, thread: usize, limit: u64) -> Result<u64, Stop>
    requires thread { thread < length state.old.flat.threads }
    requires source { thread < length state.old.sources }
    ensures goes { GoesPlain state.old state.new }
    ensures alone { IfOk result (λ steps. (refused : Bool) → GoesAlone state.old state.new thread refused steps 0) }
    ensures within { IfOk result (λ steps. steps ≤ limit) }
    ensures others { OthersStay state.old state.new thread }
    ensures rests { OnOk result (Rests (ask_of state.new.flat.code (thread_of state.new.flat thread))) }
    ensures flat { IsFlat state.new.flat }
    ensures stopped { IfErr result (λ stop. StopsFollowing state.old state.new thread limit stop) }
{
    run_thread(&mut state.flat, &mut state.sources[thread], thread, limit)
}
