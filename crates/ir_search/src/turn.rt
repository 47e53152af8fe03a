//! A thread's turn in a level.

ghost use Rattle.std.specs.Prelude.{◌≡◌, ◌⊎◌, ◌≤◌, length, IfErr, IsErrOf, OnOk};
ghost use Rattle.ir_search.specs.declared.stop.Stop.TheVariants.{Nodes, Memory};
ghost use Rattle.ir_search.specs.Following.{AreOpen, StaysOpen, IsWayFollowed};
ghost use Rattle.ir_search.specs.Kept.{IsAllFound, IsRowFollowed, SearchKeeps};
ghost use Rattle.ir_search.specs.Origins.{IsLevel};

use crate::alone::go_alone;
use crate::found::Found;
use crate::observer::Observer;
use crate::origin::{Level, turn_from};
use crate::stop::Stop;
use crate::successors::Successors;

/// Opens each node of the level for a thread, and each node to which the thread goes on alone from there, by either way. What it finds joins
/// the nodes.
///
/// # Errors
/// The graph stops, or out of memory. What was opened stays so, but isn't followed.
pub fn take_turn<S: Successors, O: Observer>(
    graph: &mut S,
    opened: &mut Vec<bool>,
    found: &mut Found,
    thread: usize,
    level: Level,
    observer: &O,
) -> Result<(), Stop>
    requires followed { IsWayFollowed ((S.shape graph.old).noted thread) opened.old.items }
    requires level { IsLevel found.old.nodes.items level }
    requires until { level.until ≤ length found.old.nodes.items }
    requires row { length opened.old.items ≤ length found.old.nodes.items }
    requires all { IsAllFound (S.shape graph.old) (S.is_sound graph.old) found.old.nodes.items found.old.refusals.items }

    // Once it has had its turn
    ensures row { OnOk result (IsRowFollowed ((S.shape graph.new).noted thread) opened.new.items found.new.nodes.items) }
    ensures opens { OnOk result (AreOpen opened.new.items level.first level.until) }
    ensures nodes { OnOk result (length found.new.nodes.items ≡ (S.shape graph.new).size) }

    // Whatever comes
    ensures stays { StaysOpen opened.old.items opened.new.items }
    ensures keeps { SearchKeeps level.number (S.shape graph.old) (S.shape graph.new) (S.is_sound graph.new) found.old.nodes.items found.new.nodes.items found.new.refusals.items }
    ensures full { IsErrOf result Nodes → (S.shape graph.new).size ≡ (S.shape graph.new).most }
    ensures stopped { IfErr result (λ stop. (stop ≡ Memory) ⊎ S.may_stop graph.new stop) }
{
    opened.resize(found.nodes.len(), false)?;
    for from in level.first..level.until {
        let start = turn_from(from, thread, level.number)?;
        go_alone(graph, opened, found, start, observer)?;
    }
    Ok(())
}
