//! The nodes that were found, and where threads lead from them.

ghost use Rattle.std.specs.Prelude.{◌≡◌, ◌⊎◌, ◌≤◌, true, false, Some, length, slice_get, IfOk, IfErr, IsErrOf};
ghost use Rattle.ir_search.specs.declared.stop.Stop.TheVariants.{Nodes, Memory};
ghost use Rattle.ir_graph.specs.Ahead.{AreTurns, IsTurnOf};
ghost use Rattle.ir_graph.specs.Kept.{IsNodeFor, IsRestingState, IsSuccessor, IsWayAt, NodesAdded, NodesKept};
ghost use Rattle.ir_graph.specs.Nodes.{AreNodes};
ghost use Rattle.ir_graph.specs.Reached.{IsReached, AllReached};
ghost use Rattle.ir_graph.specs.Stops.{MayStop};
ghost use Rattle.ir_graph.specs.Setup.{Setup};
ghost use Rattle.ir_state_store.specs.Nodes.{Grows, SourcedFlat, sourced_in};
ghost use Rattle.ir_state_store.specs.Table.{HaveTicks, HaveNoTicks};

use crate::ahead::Ahead;
use crate::bounds::Bounds;
use crate::hands::put_spots;
use crate::known::Turn;
use crate::rest::run_to_rest;
use crate::turns::{tries, turn_of};
use crate::way::{Way, way_result};
use ir_image::Code;
use ir_search::Stop;
use ir_state_store::{Node, Store};

// The node that looks the same as this state, a new one where none was found. It is noted if some call for the time was answered before it.
fn node_of<'a>(
    flats: &mut Store<'a>,
    timed: &mut bool,
    new: Node<'a>,
    most: usize,
) -> Result<usize, Stop>
    requires nodes { AreNodes flats.old.items }
    requires state { IsRestingState flats.old.items flats.old.shared flats.old.code new }
    requires room { length flats.old.items ≤ most }
    ensures adds { NodesAdded most flats.old.items flats.new.items }
    ensures shared { flats.new.shared ≡ flats.old.shared }
    ensures code { flats.new.code ≡ flats.old.code }
    ensures reached { (x : Setup) → AllReached x flats.old.items → IsReached x (sourced_in flats.old.shared new.entry) → AllReached x flats.new.items }
    ensures gives { IfOk result (λ w. IsNodeFor flats.old.items flats.new.items (sourced_in flats.old.shared new.entry) w) }
    ensures full { IsErrOf result Nodes → length flats.new.items ≡ most }
    ensures stopped { IfErr result (λ stop. (stop ≡ Memory) ⊎ ((stop ≡ Nodes) × (length flats.new.items ≡ most))) }
    ensures ticks { timed.new ≡ true → (timed.old ≡ true) ⊎ HaveTicks (sourced_in flats.old.shared new.entry).sources }
    ensures tickless { timed.new ≡ false → (timed.old ≡ false) × HaveNoTicks (sourced_in flats.old.shared new.entry).sources }
{
    *timed = *timed || flats.is_timed(&new);
    if let Some(v) = flats.find(&new) {
        return Ok(v);
    }
    let node = flats.len();
    if node >= most {
        return Err(Stop::Nodes);
    }
    flats.push(new)?;
    Ok(node)
}

// The node where a turn of a thread leads that doesn't wait.
fn node_by<'a>(
    flats: &mut Store<'a>,
    timed: &mut bool,
    way: Way,
    turn: &Turn,
    most: usize,
) -> Result<usize, Stop>
    requires nodes { AreNodes flats.old.items }
    requires way { IsWayAt flats.old.items way }
    requires turn { (s : SourcedFlat) → slice_get flats.old.items way.node ≡ Some s → IsTurnOf s.flat.code flats.old.shared s way.thread way.refused turn.now }
    requires leads { turn.now.waits ≡ false }
    requires code { (s : SourcedFlat) → slice_get flats.old.items way.node ≡ Some s → flats.old.code ≡ s.flat.code }
    requires room { length flats.old.items ≤ most }
    ensures kept { NodesKept most flats.old.items flats.new.items timed.old timed.new }
    ensures shared { flats.new.shared ≡ flats.old.shared }
    ensures code { flats.new.code ≡ flats.old.code }
    ensures next { IfOk result (λ w. IsSuccessor flats.old.items flats.new.items timed.new way (Some w)) }
    ensures full { IsErrOf result Nodes → length flats.new.items ≡ most }
    ensures stopped { IfErr result (λ stop. (stop ≡ Memory) ⊎ ((stop ≡ Nodes) × (length flats.new.items ≡ most))) }
{
    flats.thread_number(way.node, way.thread);
    let first = turn.numbers[0] as usize;
    let mut new = flats.with_both(way.node, way.thread, turn.to, first, turn.afters[0])?;
    put_spots(
        new.objects.as_mut_slice(),
        turn.numbers.as_slice(),
        turn.afters.as_slice(),
    );
    node_of(flats, timed, new, most)
}

// The node where a thread leads by its steps, one by one.
fn node_by_steps<'a>(
    flats: &mut Store<'a>,
    timed: &mut bool,
    way: Way,
    bounds: Bounds,
) -> Result<Option<usize>, Stop>
    requires nodes { AreNodes flats.old.items }
    requires way { IsWayAt flats.old.items way }
    requires code { (s : SourcedFlat) → slice_get flats.old.items way.node ≡ Some s → flats.old.code ≡ s.flat.code }
    requires room { length flats.old.items ≤ bounds.nodes }
    ensures kept { NodesKept bounds.nodes flats.old.items flats.new.items timed.old timed.new }
    ensures grows { Grows flats.old.shared flats.new.shared }
    ensures code { flats.new.code ≡ flats.old.code }
    ensures next { IfOk result (λ next. IsSuccessor flats.old.items flats.new.items timed.new way next) }
    ensures full { IsErrOf result Nodes → length flats.new.items ≡ bounds.nodes }
    ensures stopped { IfErr result (λ stop. (x : Setup) → AllReached x flats.old.items → MayStop x flats.new.items bounds stop) }
{
    let mut state = flats.get(way.node)?;
    let asked = state.flat.ask(way.thread);
    let Some(answer) = way_result(way.refused, asked) else {
        return Ok(None);
    };
    if let Err(_) = state.flat.take(way.thread, asked, answer) {
        return Ok(None);
    }
    if let Err(stop) = run_to_rest(&mut state, way.thread, bounds.private) {
        return Err(stop);
    }
    let new = flats.by_number_of(way.node, way.thread, &state)?;
    match node_of(flats, timed, new, bounds.nodes) {
        Ok(next) => Ok(Some(next)),
        Err(stop) => Err(stop),
    }
}

/// Where a thread leads from a node by one of its ways: to no node, to one of these, or to a new one after them.
///
/// # Errors
/// `Nodes` if the new one would be one too many, what `run_to_rest` gives, or out of memory.
pub fn successor<'a>(
    flats: &mut Store<'a>,
    timed: &mut bool,
    ahead: &mut Ahead,
    code: &Code,
    way: Way,
    bounds: Bounds,
) -> Result<Option<usize>, Stop>
    requires nodes { AreNodes flats.old.items }
    requires way { IsWayAt flats.old.items way }
    requires code { (s : SourcedFlat) → slice_get flats.old.items way.node ≡ Some s → s.flat.code ≡ code.now }
    requires store { flats.old.code ≡ code.now }
    requires turns { AreTurns code.now flats.old.shared ahead.old }
    requires room { length flats.old.items ≤ bounds.nodes }
    ensures kept { NodesKept bounds.nodes flats.old.items flats.new.items timed.old timed.new }
    ensures turns { AreTurns code.now flats.new.shared ahead.new }
    ensures store { flats.new.code ≡ flats.old.code }
    ensures next { IfOk result (λ next. IsSuccessor flats.old.items flats.new.items timed.new way next) }
    ensures full { IsErrOf result Nodes → length flats.new.items ≡ bounds.nodes }
    ensures stopped { IfErr result (λ stop. (x : Setup) → AllReached x flats.old.items → MayStop x flats.new.items bounds stop) }
{
    let number = flats.thread_number(way.node, way.thread);
    if flats.thread_over(number) {
        return Ok(None);
    }
    if way.refused && !tries(flats, ahead, code, number)? {
        return Ok(None);
    }
    if let Some(i) = turn_of(flats, ahead, code, way, bounds.private)? {
        let turn = ahead.turn(i);
        if turn.waits {
            return Ok(None);
        }
        return match node_by(flats, timed, way, turn, bounds.nodes) {
            Ok(next) => Ok(Some(next)),
            Err(stop) => Err(stop),
        };
    }
    node_by_steps(flats, timed, way, bounds)
}
