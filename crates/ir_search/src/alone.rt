//! A thread that goes on alone.

ghost use Rattle.std.specs.Prelude.{◌≡◌, ◌⊎◌, ◌++◌, ℕ, Bool, false, true, suc, [], ◌∷◌, ◌+◌, ◌-◌, ◌<◌, ◌≤◌, length, slice_set, IfOk, OnErr, IfErr, IsErrOf, OnOk};
ghost use Rattle.ir_search.specs.declared.stop.Stop.TheVariants.{Nodes, Memory, Time};
ghost use Rattle.ir_search.specs.Following.{IsNodeOpen, StaysOpen, GoesTo};
ghost use Rattle.ir_search.specs.Kept.{IsAllFound, IsRowFollowed, SearchKeeps};
ghost use Rattle.ir_search.specs.TurnSoFar.{IsTurnSoFar, IsAfter, left_to_open};
ghost use Rattle.ir_search.specs.Origins.{BeginsAt};

use crate::found::{Found, Pending};
use crate::observer::Observer;
use crate::origin::{Origin, Refusal, narrow};
use crate::stop::Stop;
use crate::successors::Successors;

// How the thread comes to a node by one step more, with its try refused or not.
fn origin_after(refusals: &mut Vec<Refusal>, origin: Origin, refused: bool) -> Result<Origin, Stop>
    ensures after { IfOk result (λ next. IsAfter refusals.old.items refusals.new.items origin refused next) }
    ensures err { OnErr result (refusals.new.items ≡ refusals.old.items) }
    ensures memory { IfErr result (λ stop. stop ≡ Memory) }
{
    if !refused {
        let entries = narrow(origin.entries as usize + 1)?;
        return Ok(Origin { entries, ..origin });
    }
    let number = narrow(refusals.len() + 1)?;
    refusals.push(Refusal {
        before: origin.last_refusal,
        entries: origin.entries,
    })?;
    Ok(Origin {
        last_refusal: number,
        entries: 0,
        ..origin
    })
}

// A node is opened for a thread, and is left to follow. A new one joins the nodes.
fn open<O: Observer>(
    opened: &mut Vec<bool>,
    found: &mut Found,
    next: Pending,
    observer: &O,
) -> Result<(), Stop>
    requires node { next.node ≤ length opened.old.items }
    requires wide { length opened.old.items ≡ length found.old.nodes.items }
    ensures old { OnOk result (next.node < length opened.old.items → (opened.new.items ≡ slice_set opened.old.items next.node true) × (found.new.nodes.items ≡ found.old.nodes.items)) }
    ensures new { OnOk result (next.node ≡ length opened.old.items → (opened.new.items ≡ opened.old.items ++ true ∷ []) × (found.new.nodes.items ≡ found.old.nodes.items ++ next.origin ∷ [])) }
    ensures pending { OnOk result (found.new.pending.items ≡ found.old.pending.items ++ next ∷ []) }
    ensures refusals { found.new.refusals.items ≡ found.old.refusals.items }
    ensures stays { StaysOpen opened.old.items opened.new.items }
    ensures nodes { (found.new.nodes.items ≡ found.old.nodes.items) ⊎ ((next.node ≡ length opened.old.items) × (found.new.nodes.items ≡ found.old.nodes.items ++ next.origin ∷ [])) }
    ensures memory { IfErr result (λ stop. stop ≡ Memory) }
{
    if next.node < opened.len() {
        opened[next.node] = true;
    } else {
        opened.push(true)?;
        found.nodes.push(next.origin)?;
        observer.searched(found.nodes.len(), next.origin.level as usize);
    }
    found.pending.push(next)?;
    Ok(())
}

// The thread goes on by one way from a node in hand. Where it comes to a node that isn't opened, that one is left to follow.
fn follow<S: Successors, O: Observer>(
    graph: &mut S,
    opened: &mut Vec<bool>,
    found: &mut Found,
    here: Pending,
    refused: bool,
    observer: &O,
) -> Result<(), Stop>
    requires turn { IsTurnSoFar (S.shape graph.old).noted here.origin.thread here.origin.level opened.old.items found.old.nodes.items found.old.refusals.items (here ∷ found.old.pending.items) }
    requires nodes { length found.old.nodes.items ≡ (S.shape graph.old).size }
    requires room { (S.shape graph.old).size ≤ (S.shape graph.old).most }
    requires sound { S.is_sound graph.old }

    // Once it has gone on
    ensures turn { OnOk result
        (IsTurnSoFar (S.shape graph.new).noted here.origin.thread here.origin.level opened.new.items found.new.nodes.items found.new.refusals.items
        (here ∷ found.new.pending.items)) }
    ensures follows { OnOk result (GoesTo ((S.shape graph.new).noted here.origin.thread refused) (IsNodeOpen opened.new.items) here.node) }
    ensures nodes { OnOk result (length found.new.nodes.items ≡ (S.shape graph.new).size) }
    ensures less { OnOk result
        (left_to_open (S.shape graph.new).most opened.new.items + length found.new.pending.items
        ≤ left_to_open (S.shape graph.old).most opened.old.items + length found.old.pending.items) }

    // Whatever comes
    ensures stays { StaysOpen opened.old.items opened.new.items }
    ensures keeps { SearchKeeps here.origin.level (S.shape graph.old) (S.shape graph.new) (S.is_sound graph.new) found.old.nodes.items found.new.nodes.items found.new.refusals.items }
    ensures full { IsErrOf result Nodes → (S.shape graph.new).size ≡ (S.shape graph.new).most }
    ensures stopped { IfErr result (λ stop. (stop ≡ Memory) ⊎ S.may_stop graph.new stop) }
{
    let Some(node) = graph.next(here.origin.thread as usize, refused, here.node)? else {
        return Ok(());
    };
    if node < opened.len() && opened[node] {
        return Ok(());
    }
    let origin = origin_after(&mut found.refusals, here.origin, refused)?;
    open(opened, found, Pending { node, origin }, observer)?;
    Ok(())
}

// Whether the seconds that a search over the graph may take are over.
fn is_late<S: Successors, O: Observer>(graph: &S, observer: &O) -> bool
    ensures { result ≡ true → S.may_stop graph.now Time }
{
    match graph.seconds() {
        Some(seconds) => observer.is_over(seconds),
        None => false,
    }
}

/// Opens a node for a thread, and each node to which the thread goes on from there, by either way, up to where it can't or to opened ones.
/// `start` is the turn: its node, its thread, its level, and no entry or try yet. What it finds joins the nodes.
///
/// # Errors
/// The graph stops, its seconds are over, or out of memory. What was opened stays so, but isn't followed.
pub fn go_alone<S: Successors, O: Observer>(
    graph: &mut S,
    opened: &mut Vec<bool>,
    found: &mut Found,
    start: Origin,
    observer: &O,
) -> Result<(), Stop>
    requires row { IsRowFollowed ((S.shape graph.old).noted start.thread) opened.old.items found.old.nodes.items }
    requires begins { BeginsAt found.old.nodes.items start.level start.from }
    requires none { (start.last_refusal ≡ 0) × (start.entries ≡ 0) }
    requires node { start.from < length found.old.nodes.items }
    requires all { IsAllFound (S.shape graph.old) (S.is_sound graph.old) found.old.nodes.items found.old.refusals.items }

    // Once it has gone on
    ensures row { OnOk result (IsRowFollowed ((S.shape graph.new).noted start.thread) opened.new.items found.new.nodes.items) }
    ensures opens { OnOk result (IsNodeOpen opened.new.items start.from) }
    ensures nodes { OnOk result (length found.new.nodes.items ≡ (S.shape graph.new).size) }

    // Whatever comes
    ensures stays { StaysOpen opened.old.items opened.new.items }
    ensures keeps { SearchKeeps start.level (S.shape graph.old) (S.shape graph.new) (S.is_sound graph.new) found.old.nodes.items found.new.nodes.items found.new.refusals.items }
    ensures full { IsErrOf result Nodes → (S.shape graph.new).size ≡ (S.shape graph.new).most }
    ensures stopped { IfErr result (λ stop. (stop ≡ Memory) ⊎ S.may_stop graph.new stop) }
{
    let from = start.from as usize;
    if opened[from] {
        return Ok(());
    }
    found.pending.clear();
    let first = Pending {
        node: from,
        origin: start,
    };
    open(opened, found, first, observer)?;
    'pending: while let Some(here) = found.pending.pop() {
        if is_late(graph, observer) {
            return Err(Stop::Time);
        }
        follow(graph, opened, found, here, false, observer)?;
        let thread = here.origin.thread as usize;
        if let Some(None) = graph.known(thread, true, here.node) {
            continue;
        }
        follow(graph, opened, found, here, true, observer)?;
    }
    Ok(())
}
