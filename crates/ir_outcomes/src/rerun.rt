//! A guest that is run once more, turn by turn.

ghost use Rattle.std.specs.Prelude.{◌≡◌, ℕ, Bool, true, false, ◌<◌, ◌^◌, ◌++◌, List, [], ◌∷◌, Some, length, replicate, slice_get, All, IfOk, IfErr, OnErr, OnOk};
ghost use Rattle.ir_search.specs.Following.{BothWays};
ghost use Rattle.ir_search.specs.Origins.{AreReached, AreWaysOf};
ghost use Rattle.ir_flat.specs.Flat.{thread_of};
ghost use Rattle.ir_graph.specs.Graph.{IsGraph};
ghost use Rattle.ir_graph.specs.Nodes.{AllRest, LookAlike};
ghost use Rattle.ir_graph.specs.Plain.{GoesPlain, OthersStay, Rests};
ghost use Rattle.ir_graph.specs.Searched.{IsSearch};
ghost use Rattle.ir_graph.specs.Setup.{Setup, setup_start};
ghost use Rattle.ir_graph.specs.Stops.{MayStop, StopsFollowing};
ghost use Rattle.ir_graph.specs.Turn.{GoesAlone};
ghost use Rattle.ir_record.specs.Recording.{turns_of_items};
ghost use Rattle.ir_state_store.specs.Nodes.{SourcedFlat};
ghost use Rattle.ir_thread.specs.State.{IsAllowed, ask_of};
ghost use Rattle.ir_outcomes.specs.Again.{IsAgain, IsAgainBy, ways_by};
ghost use Rattle.ir_outcomes.specs.Along.{AlongPath, ArrivesBy, FailsBy, HaveWays, MayFail, StandsAt};
ghost use Rattle.ir_outcomes.specs.Path.{IsPathTo};
ghost use Rattle.ir_outcomes.specs.declared.rerun_error.RerunError.TheVariants.{NoMemory, Stopped};

use crate::path::refusals_to;
use crate::rerun_error::RerunError;
use ir_graph::{States, run_to_rest, same_state, way_result};
use ir_record::Item;
use ir_search::{Origin, Refusal, Stop};
use ir_state_store::SourcedFlat;
use std::alloc::Global;

// So many steps of a thread from where it rests, each up to where it rests again: all are refused tries, or all enter.
#[derive(Clone, Copy)]
struct Stretch {
    thread: usize,
    refused: bool,
    steps: usize,
}

// A thread that rests takes one step, a refused try or one that enters, and runs on alone to where it rests again; how many steps that takes.
// More than can be counted are out of memory.
fn enter(
    state: &mut SourcedFlat<'_>,
    thread: usize,
    refused: bool,
    limit: u64,
) -> Result<u64, RerunError>
    requires thread { thread < length state.old.flat.threads }
    requires source { thread < length state.old.sources }
    requires rests { Rests (ask_of state.old.flat.code (thread_of state.old.flat thread)) }
    ensures alone { IfOk result (λ steps. GoesAlone state.old state.new thread refused steps 1) }
    ensures rests { OnOk result (Rests (ask_of state.new.flat.code (thread_of state.new.flat thread))) }
    ensures arrives { OnOk result (ArrivesBy thread (refused ∷ []) state.old state.new) }
    ensures fails { IfErr result (λ e. FailsBy limit thread (refused ∷ []) state.old e) }
{
    let asked = state.flat.ask(thread);
    let Some(answer) = way_result(refused, asked) else {
        return Err(RerunError::NoWay);
    };
    if let Err(_) = state.flat.take(thread, asked, answer) {
        return Err(RerunError::NoWay);
    }
    let steps = match run_to_rest(state, thread, limit) {
        Ok(steps) => steps,
        Err(stop) => return Err(RerunError::Stopped(stop)),
    };
    match steps.checked_add(1) {
        Some(all) => Ok(all),
        None => Err(RerunError::NoMemory),
    }
}

// A thread runs on alone to where it rests, and then takes the steps of a stretch; how many steps that takes. Its source answers its calls.
fn take_stretch(
    state: &mut SourcedFlat<'_>,
    stretch: Stretch,
    limit: u64,
) -> Result<u64, RerunError>
    requires thread { stretch.thread < length state.old.flat.threads }
    requires source { stretch.thread < length state.old.sources }
    ensures alone { IfOk result (λ steps. GoesAlone state.old state.new stretch.thread stretch.refused steps stretch.steps) }
    ensures arrives { OnOk result (ArrivesBy stretch.thread (replicate stretch.steps stretch.refused) state.old state.new) }
    ensures fails { IfErr result (λ e. FailsBy limit stretch.thread (replicate stretch.steps stretch.refused) state.old e) }
{
    let mut steps = match run_to_rest(state, stretch.thread, limit) {
        Ok(steps) => steps,
        Err(stop) => return Err(RerunError::Stopped(stop)),
    };
    for _ in 0..stretch.steps {
        let more = match enter(state, stretch.thread, stretch.refused, limit) {
            Ok(more) => more,
            Err(e) => return Err(e),
        };
        steps = match steps.checked_add(more) {
            Some(all) => all,
            None => return Err(RerunError::NoMemory),
        };
    }
    Ok(steps)
}

// Whether the guest has such a thread, beside what answers it.
fn has_thread(state: &SourcedFlat<'_>, thread: usize) -> bool
    ensures has { result ≡ true → (thread < length state.now.flat.threads) × (thread < length state.now.sources) }
    ensures small { result ≡ true → thread < 2 ^ 8 }
    ensures none { result ≡ false → thread < length state.now.flat.threads → thread < length state.now.sources → ⊥ }
{
    thread < state.flat.threads().len() && thread < state.sources.len()
}

// So does a thread of the guest, and its steps are noted.
fn add_stretch(
    state: &mut SourcedFlat<'_>,
    items: &mut Vec<Item>,
    stretch: Stretch,
    limit: u64,
) -> Result<(), RerunError>
    ensures again { OnOk result
        ((setup : Setup) (before : List (ℕ × Bool)) → IsAgain setup (turns_of_items items.old.items) before state.old
        → IsAgain setup (turns_of_items items.new.items) (before ++ replicate stretch.steps (stretch.thread, stretch.refused))
        state.new) }
    ensures arrives { OnOk result (ArrivesBy stretch.thread (replicate stretch.steps stretch.refused) state.old state.new) }
    ensures fails { IfErr result (λ e. FailsBy limit stretch.thread (replicate stretch.steps stretch.refused) state.old e) }
{
    if !has_thread(state, stretch.thread) {
        if stretch.steps == 0 {
            return Ok(());
        }
        return Err(RerunError::NoWay);
    }
    let count = match take_stretch(state, stretch, limit) {
        Ok(count) => count,
        Err(e) => return Err(e),
    };
    let item = Item {
        thread: stretch.thread as u8,
        count,
        refused: stretch.refused,
    };
    match items.push(item) {
        Ok(()) => Ok(()),
        Err(_) => Err(RerunError::NoMemory),
    }
}

// A thread of the guest makes some entries, and then its try is refused.
fn add_refusal(
    state: &mut SourcedFlat<'_>,
    items: &mut Vec<Item>,
    thread: usize,
    refusal: Refusal,
    limit: u64,
) -> Result<(), RerunError>
    ensures again { OnOk result
        ((setup : Setup) (before : List (ℕ × Bool)) → IsAgain setup (turns_of_items items.old.items) before state.old
        → IsAgain setup (turns_of_items items.new.items) (before ++ ways_by thread (replicate refusal.entries false ++ true ∷ []))
        state.new) }
    ensures arrives { OnOk result (ArrivesBy thread (replicate refusal.entries false ++ true ∷ []) state.old state.new) }
    ensures fails { IfErr result (λ e. FailsBy limit thread (replicate refusal.entries false ++ true ∷ []) state.old e) }
{
    let entries = Stretch {
        thread,
        refused: false,
        steps: refusal.entries as usize,
    };
    if let Err(e) = add_stretch(state, items, entries, limit) {
        return Err(e);
    }
    let tries = Stretch {
        thread,
        refused: true,
        steps: 1,
    };
    match add_stretch(state, items, tries, limit) {
        Ok(()) => Ok(()),
        Err(e) => Err(e),
    }
}

// A thread of the guest has a turn.
fn add_turn(
    alloc: Global,
    state: &mut SourcedFlat<'_>,
    items: &mut Vec<Item>,
    table: &[Refusal],
    origin: Origin,
    limit: u64,
) -> Result<(), RerunError>
    requires { (ways : List Bool) × AreWaysOf table.now origin ways }
    ensures again { OnOk result
        ((setup : Setup) (before : List (ℕ × Bool)) → IsAgain setup (turns_of_items items.old.items) before state.old
        → (ways : List Bool) × AreWaysOf table.now origin ways
        × IsAgain setup (turns_of_items items.new.items) (before ++ ways_by origin.thread ways) state.new) }
    ensures arrives { OnOk result ((ways : List Bool) → AreWaysOf table.now origin ways → ArrivesBy origin.thread ways state.old state.new) }
    ensures fails { IfErr result (λ e. (ways : List Bool) → AreWaysOf table.now origin ways → FailsBy limit origin.thread ways state.old e) }
{
    let thread = origin.thread as usize;
    let Ok(refusals) = refusals_to(alloc, table, origin.last_refusal as usize) else {
        return Err(RerunError::NoMemory);
    };
    for k in 0..refusals.len() {
        let refusal = refusals[refusals.len() - 1 - k];
        if let Err(e) = add_refusal(state, items, thread, refusal, limit) {
            return Err(e);
        }
    }
    let entries = Stretch {
        thread,
        refused: false,
        steps: origin.entries as usize,
    };
    match add_stretch(state, items, entries, limit) {
        Ok(()) => Ok(()),
        Err(e) => Err(e),
    }
}

// The guest takes the turns of a path, the last of which comes first.
fn add_path(
    alloc: Global,
    state: &mut SourcedFlat<'_>,
    items: &mut Vec<Item>,
    table: &[Refusal],
    path: &[Origin],
    limit: u64,
) -> Result<(), RerunError>
    requires { HaveWays table.now path.now }
    ensures again { OnOk result ((setup : Setup) → IsAgain setup (turns_of_items items.old.items) [] state.old → IsAgainBy setup (turns_of_items items.new.items) table.now path.now state.new) }
    ensures arrives { OnOk result ((node : ℕ) (from : AlongPath table.now path.now node state.old) → StandsAt from.setup from.flats node state.new) }
    ensures fails { IfErr result (λ e. (node : ℕ) (from : AlongPath table.now path.now node state.old) → MayFail from.setup limit e) }
{
    for k in 0..path.len() {
        let origin = path[path.len() - 1 - k];
        if let Err(e) = add_turn(alloc, state, items, table, origin, limit) {
            return Err(e);
        }
    }
    Ok(())
}

// A thread runs on alone to its next entry or try, and its steps are noted.
fn add_rest(
    state: &mut SourcedFlat<'_>,
    items: &mut Vec<Item>,
    thread: usize,
    limit: u64,
) -> Result<(), RerunError>
    requires thread { thread < length state.old.flat.threads }
    requires source { thread < length state.old.sources }
    ensures again { OnOk result
        ((setup : Setup) (ways : List (ℕ × Bool)) → IsAgain setup (turns_of_items items.old.items) ways state.old
        → IsAgain setup (turns_of_items items.new.items) ways state.new) }
    ensures goes { GoesPlain state.old state.new }
    ensures others { OthersStay state.old state.new thread }
    ensures rests { OnOk result (Rests (ask_of state.new.flat.code (thread_of state.new.flat thread))) }
    ensures fails { IfErr result (λ e. (setup : Setup) → GoesPlain (setup_start setup) state.old → MayFail setup limit e) }
{
    let steps = match run_to_rest(state, thread, limit) {
        Ok(steps) => steps,
        Err(stop) => return Err(RerunError::Stopped(stop)),
    };
    let item = Item {
        thread: thread as u8,
        count: steps,
        refused: false,
    };
    match items.push(item) {
        Ok(()) => Ok(()),
        Err(_) => Err(RerunError::NoMemory),
    }
}

// Each thread does.
fn add_rests(
    state: &mut SourcedFlat<'_>,
    items: &mut Vec<Item>,
    limit: u64,
) -> Result<(), RerunError>
    requires { length state.old.sources ≡ length state.old.flat.threads }
    ensures again { OnOk result
        ((setup : Setup) (ways : List (ℕ × Bool)) → IsAgain setup (turns_of_items items.old.items) ways state.old
        → IsAgain setup (turns_of_items items.new.items) ways state.new) }
    ensures goes { GoesPlain state.old state.new }
    ensures rest { OnOk result (AllRest state.new.flat) }
    ensures fails { IfErr result (λ e. (setup : Setup) → state.old ≡ setup_start setup → MayFail setup limit e) }
{
    for thread in 0..state.flat.threads().len() {
        if let Err(e) = add_rest(state, items, thread, limit) {
            return Err(e);
        }
    }
    Ok(())
}

// The guest after the turns of a path, the last of which comes first, and the steps that its threads took. A thread goes on to its first entry or
// try only with its first turn, which leaves fewer turns to tell.
fn run_again<'a>(
    alloc: Global,
    states: &States<'a>,
    path: &[Origin],
) -> Result<(SourcedFlat<'a>, Vec<Item>), RerunError>
    requires allowed { IsAllowed states.now.graph.setup.profile states.now.graph.setup.guest }
    requires ways { HaveWays states.now.search.found.refusals.items path.now }
    ensures { IfOk result (λ run. IsAgainBy states.now.graph.setup (turns_of_items run.1.items) states.now.search.found.refusals.items path.now run.0) }
{
    let limit = states.graph.bounds.private;
    let mut state = states.graph.setup.start(alloc)?;
    let mut items = Vec::new(alloc);
    let table = states.search.found.refusals.as_slice();
    add_path(alloc, &mut state, &mut items, table, path, limit)?;
    add_rests(&mut state, &mut items, limit)?;
    Ok((state, items))
}

// The same, but each thread goes on to its first entry or try before the first turn, as the search did.
fn run_from_rest<'a>(
    alloc: Global,
    states: &States<'a>,
    path: &[Origin],
) -> Result<(SourcedFlat<'a>, Vec<Item>), RerunError>
    requires allowed { IsAllowed states.now.graph.setup.profile states.now.graph.setup.guest }
    requires ways { HaveWays states.now.search.found.refusals.items path.now }
    requires search { IsSearch states.now }
    ensures again { IfOk result (λ run. IsAgainBy states.now.graph.setup (turns_of_items run.1.items) states.now.search.found.refusals.items path.now run.0) }
    ensures stands { IfOk result (λ run. (node : ℕ) → IsPathTo states.now.search.found.nodes.items node path.now → StandsAt states.now.graph.setup states.now.graph.flats.items node run.0) }
    ensures fails { IfErr result (λ e. (node : ℕ) → IsPathTo states.now.search.found.nodes.items node path.now → MayFail states.now.graph.setup states.now.graph.bounds.private e) }
{
    let limit = states.graph.bounds.private;
    let mut first = states.graph.setup.start(alloc)?;
    let mut items = Vec::new(alloc);
    if let Err(e) = add_rests(&mut first, &mut items, limit) {
        return Err(e);
    }
    let table = states.search.found.refusals.as_slice();
    if let Err(e) = add_path(alloc, &mut first, &mut items, table, path, limit) {
        return Err(e);
    }
    Ok((first, items))
}

/// The guest after the turns of a path that led to a node, the last of which comes first, and the steps that its threads took. It looks the same
/// as the node to every thread.
///
/// # Errors
/// Out of memory, or a thread is not followed: a log fills on the way, which the node's own state may not show.
pub fn run_to_node<'a>(
    alloc: Global,
    states: &States<'a>,
    path: &[Origin],
    node: usize,
) -> Result<(SourcedFlat<'a>, Vec<Item>), Stop>
    requires allowed { IsAllowed states.now.graph.setup.profile states.now.graph.setup.guest }
    requires search { IsSearch states.now }
    requires node { node < length states.now.graph.flats.items }
    requires path { IsPathTo states.now.search.found.nodes.items node path.now }
    ensures again { IfOk result (λ run. IsAgainBy states.now.graph.setup (turns_of_items run.1.items) states.now.search.found.refusals.items path.now run.0) }
    ensures alike { IfOk result (λ run. (s : SourcedFlat) → slice_get states.now.graph.flats.items node ≡ Some s → LookAlike run.0 s) }
    ensures refused { IfErr result (λ stop. MayStop states.now.graph.setup states.now.graph.flats.items states.now.graph.bounds stop) }
{
    let kept = states.graph.flats.get(node)?;
    match run_again(alloc, states, path) {
        Ok((state, items)) => {
            if same_state(alloc, states.graph.flats.basis(), &state, &kept)? {
                return Ok((state, items));
            }
        }
        Err(_) => {}
    }
    match run_from_rest(alloc, states, path) {
        Ok(run) => Ok(run),
        Err(RerunError::NoMemory) => Err(Stop::Memory),
        Err(RerunError::Stopped(stop)) => Err(stop),
        Err(RerunError::NoWay) => unreachable!(),
    }
}
