//! A level: each thread has a turn.

ghost use Rattle.std.specs.Prelude.{◌≡◌, ◌⊎◌, ◌≤◌, length, IfErr, IsErrOf, OnOk};
ghost use Rattle.ir_search.specs.declared.stop.Stop.TheVariants.{Nodes, Memory};
ghost use Rattle.ir_search.specs.Kept.{AreRowsFollowed, IsAllFound, SearchKeeps};
ghost use Rattle.ir_search.specs.Levels.{rows, AllOpen};
ghost use Rattle.ir_search.specs.Origins.{IsLevel};

use crate::found::Found;
use crate::observer::Observer;
use crate::origin::Level;
use crate::stop::Stop;
use crate::successors::Successors;
use crate::turn::take_turn;

/// Opens each node of the level for each thread, and each node to which that thread goes on alone from there. What it finds joins the
/// nodes.
///
/// # Errors
/// The graph stops, or out of memory.
pub fn take_level<S: Successors, O: Observer>(
    graph: &mut S,
    opened: &mut [Vec<bool>],
    found: &mut Found,
    level: Level,
    observer: &O,
) -> Result<(), Stop>
    requires rows { AreRowsFollowed (S.shape graph.old).noted (rows opened.old) found.old.nodes.items }
    requires before { AllOpen (rows opened.old) 0 level.first (length opened.old) }
    requires level { IsLevel found.old.nodes.items level }
    requires until { level.until ≤ length found.old.nodes.items }
    requires all { IsAllFound (S.shape graph.old) (S.is_sound graph.old) found.old.nodes.items found.old.refusals.items }

    // Once each has had its turn
    ensures rows { OnOk result (AreRowsFollowed (S.shape graph.new).noted (rows opened.new) found.new.nodes.items) }
    ensures opens { OnOk result (AllOpen (rows opened.new) 0 level.until (length opened.old)) }
    ensures nodes { OnOk result (length found.new.nodes.items ≡ (S.shape graph.new).size) }

    // Whatever comes
    ensures threads { length opened.new ≡ length opened.old }
    ensures keeps { SearchKeeps level.number (S.shape graph.old) (S.shape graph.new) (S.is_sound graph.new) found.old.nodes.items found.new.nodes.items found.new.refusals.items }
    ensures full { IsErrOf result Nodes → (S.shape graph.new).size ≡ (S.shape graph.new).most }
    ensures stopped { IfErr result (λ stop. (stop ≡ Memory) ⊎ S.may_stop graph.new stop) }
{
    for thread in 0..opened.len() {
        take_turn(graph, &mut opened[thread], found, thread, level, observer)?;
    }
    Ok(())
}
