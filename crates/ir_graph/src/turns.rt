//! The turn of a thread at a node.

ghost use Rattle.std.specs.Prelude.{◌≡◌, ℕ, ◌<◌, [], true, false, Some, length, slice_get, IfOk, IfSome};
ghost use Rattle.std.specs.List.{slice_index_or};
ghost use Rattle.ir_graph.specs.Ahead.{AreTurns, IsAheadFrom, IsTurnOf};
ghost use Rattle.ir_graph.specs.Plain.{MayGo};
ghost use Rattle.ir_graph.specs.declared.known.Turn.{Turn};
ghost use Rattle.ir_state_store.specs.Nodes.{Grows, SourcedFlat};
ghost use Rattle.ir_state_store.specs.Table.{idle_beside};
ghost use Rattle.ir_thread.specs.State.{ask_of};

use crate::ahead::{Ahead, key_after, thread_key};
use crate::hands::{add_objects, hand_of, objects_at, spots_of, stand};
use crate::known::Turn;
use crate::lone::{turn_among, waits};
use crate::way::Way;
use ir_image::Code;
use ir_state_store::{Spot, Store};
use ir_thread::Ask;
use std::alloc::{AllocError, Global};

// The hash of a thread's number and of the objects of these numbers at a node, if it has them all.
fn key_at(flats: &Store<'_>, way: Way, from: usize, numbers: &[u8]) -> Option<u64>
    requires { way.node < length flats.now.items }
{
    let mut key = thread_key(from, way.refused);
    for number in numbers {
        let spot = flats.spot(way.node, *number as usize)?;
        key = key_after(key, spot);
    }
    Some(key)
}

// The number of the turn of a thread at a node, if it is known.
fn known_turn(flats: &Store<'_>, ahead: &Ahead, way: Way) -> Option<usize>
    requires node { way.node < length flats.now.items }
    requires thread { (s : SourcedFlat) → slice_get flats.now.items way.node ≡ Some s → way.thread < length s.flat.threads }
    ensures { IfSome result
        (λ i. (turn : Turn) × (slice_get ahead.now i ≡ Some turn)
        × ((s : SourcedFlat) → slice_get flats.now.items way.node ≡ Some s
        → IsAheadFrom flats.now.shared s way.thread way.refused turn)) }
{
    let from = flats.thread_number(way.node, way.thread);
    let first = ahead.first(from)?;
    let key = key_at(flats, way, from, first.numbers.as_slice())?;
    let i = ahead.noted(key)?;
    let turn = ahead.turn(i);
    if turn.from != from {
        return None;
    }
    if turn.refused != way.refused {
        return None;
    }
    if !stand(
        flats,
        way.node,
        turn.numbers.as_slice(),
        turn.spots.as_slice(),
    ) {
        return None;
    }
    Some(i)
}

// The object that a thread enters or tries to, and whether it tries, if it asks one of these.
fn object_of(asked: Ask) -> Option<(u8, bool)>
    ensures { IfSome result (λ found. found.1 ≡ false → MayGo true asked → ⊥) }
{
    match asked {
        Ask::Enter(object, _) => Some((object, false)),
        Ask::Try(object) => Some((object, true)),
        _ => None,
    }
}

// A thread that has to wait for the first of these objects.
fn waiting_turn(
    alloc: Global,
    from: usize,
    tries: bool,
    refused: bool,
    numbers: Vec<u8>,
    spots: Vec<Spot>,
) -> Turn
    ensures turn { result ≡ record { from = from; tries = tries; refused = refused; waits = true; to = from; numbers = numbers; spots = spots; afters = result.afters } }
    ensures none { result.afters.items ≡ [] }
{
    Turn {
        from,
        tries,
        refused,
        waits: true,
        to: from,
        numbers,
        spots,
        afters: Vec::new(alloc),
    }
}

// The turn of a thread at a node, if it is about no objects but the one that it enters or tries to and those that it holds, or it has to wait.
fn new_turn(
    flats: &mut Store<'_>,
    alloc: Global,
    code: &Code,
    way: Way,
    limit: u64,
) -> Result<Option<Turn>, AllocError>
    requires node { way.node < length flats.old.items }
    requires thread { (s : SourcedFlat) → slice_get flats.old.items way.node ≡ Some s → way.thread < length s.flat.threads }
    requires code { (s : SourcedFlat) → slice_get flats.old.items way.node ≡ Some s → s.flat.code ≡ code.now }
    ensures items { flats.new.items ≡ flats.old.items }
    ensures grows { Grows flats.old.shared flats.new.shared }
    ensures store { flats.new.code ≡ flats.old.code }
    ensures turn { IfOk result (λ found. IfSome found (λ turn. (s : SourcedFlat) → slice_get flats.new.items way.node ≡ Some s → IsTurnOf code.now flats.new.shared s way.thread way.refused turn)) }
{
    let from = flats.thread_number(way.node, way.thread);
    let mut own = flats.thread(from)?;
    let asked = own.thread.ask(code);
    let Some((number, tries)) = object_of(asked) else {
        return Ok(None);
    };
    let numbers = hand_of(alloc, number, own.thread.held())?;
    let Some(spots) = spots_of(alloc, flats, way.node, numbers.as_slice())? else {
        return Ok(None);
    };
    let mut objects = objects_at(alloc, flats, spots.as_slice())?;
    if waits(asked, &objects[0], number, way.refused) {
        let turn = waiting_turn(alloc, from, tries, way.refused, numbers, spots);
        return Ok(Some(turn));
    }
    if !turn_among(
        code,
        &mut own,
        &mut objects,
        numbers.as_slice(),
        way.refused,
        limit,
    ) {
        return Ok(None);
    }
    let to = flats.add_thread(&own)?;
    let afters = add_objects(alloc, flats, objects.as_slice())?;
    Ok(Some(Turn {
        from,
        tries,
        refused: way.refused,
        waits: false,
        to,
        numbers,
        spots,
        afters,
    }))
}

/// The number of the turn of a thread at a node, if it is about no objects but the one that it enters or tries to and those that it holds, or it
/// has to wait.
///
/// # Errors
/// Out of memory.
pub fn turn_of(
    flats: &mut Store<'_>,
    ahead: &mut Ahead,
    code: &Code,
    way: Way,
    limit: u64,
) -> Result<Option<usize>, AllocError>
    requires node { way.node < length flats.old.items }
    requires thread { (s : SourcedFlat) → slice_get flats.old.items way.node ≡ Some s → way.thread < length s.flat.threads }
    requires code { (s : SourcedFlat) → slice_get flats.old.items way.node ≡ Some s → s.flat.code ≡ code.now }
    requires turns { AreTurns code.now flats.old.shared ahead.old }
    ensures items { flats.new.items ≡ flats.old.items }
    ensures grows { Grows flats.old.shared flats.new.shared }
    ensures store { flats.new.code ≡ flats.old.code }
    ensures turns { AreTurns code.now flats.new.shared ahead.new }
    ensures turn { IfOk result
        (λ found. IfSome found
        (λ i. (turn : Turn) × (slice_get ahead.new i ≡ Some turn)
        × ((s : SourcedFlat) → slice_get flats.new.items way.node ≡ Some s
        → IsTurnOf code.now flats.new.shared s way.thread way.refused turn))) }
{
    if let Some(i) = known_turn(flats, ahead, way) {
        return Ok(Some(i));
    }
    let Some(turn) = new_turn(flats, ahead.alloc(), code, way, limit)? else {
        return Ok(None);
    };
    let i = ahead.note(turn)?;
    Ok(Some(i))
}

/// Whether the thread of a number tries to enter.
///
/// # Errors
/// Out of memory.
pub fn tries(
    flats: &Store<'_>,
    ahead: &Ahead,
    code: &Code,
    number: usize,
) -> Result<bool, AllocError>
    requires within { number < length flats.now.shared.threads }
    requires turns { AreTurns code.now flats.now.shared ahead.now }
    ensures { IfOk result (λ tries. tries ≡ false → MayGo true (ask_of code.now (slice_index_or flats.now.shared.threads number idle_beside).0) → ⊥) }
{
    if let Some(turn) = ahead.first(number) {
        return Ok(turn.tries);
    }
    let own = flats.thread(number)?;
    match own.thread.ask(code) {
        Ask::Try(_) => Ok(true),
        _ => Ok(false),
    }
}
