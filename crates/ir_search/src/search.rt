//! A search that goes on level by level.

ghost use Rattle.std.specs.Prelude.{◌≡◌, ◌⊎◌, ℕ, suc, true, false, [], ◌∷◌, ◌<◌, ◌≤◌, length, replicate, IfOk, IfErr, IsErrOf, OnErr, OnOk};
ghost use Rattle.ir_search.specs.declared.stop.Stop.TheVariants.{Nodes, Memory};
ghost use Rattle.ir_search.specs.Following.{BothWays};
ghost use Rattle.ir_search.specs.Kept.{SearchKeeps};
ghost use Rattle.ir_search.specs.Levels.{rows, AreAsked};
ghost use Rattle.ir_search.specs.Origins.{first_origin};
ghost use Rattle.ir_search.specs.Searching.{HasGone, IsBetween};

use crate::found::Found;
use crate::level::take_level;
use crate::observer::Observer;
use crate::origin::{Level, Origin};
use crate::stop::Stop;
use crate::successors::Successors;
use std::alloc::{AllocError, Global};

/// How a search ended.
#[derive(Clone, Copy, Debug, PartialEq, Eq)]
pub enum Ended {
    /// Each thread was asked at each node.
    Finished,
    /// All levels that were wanted are gone over.
    Covered,
    /// It stopped before.
    Stopped(Stop),
}

/// A search that goes on level by level.
#[derive(Debug, Drop)]
pub struct Search {
    /// The nodes that were found, and how.
    pub found: Found,
    /// For each thread, whether each node is opened for it.
    pub opened: Vec<Vec<bool>>,
    /// The level that comes next.
    pub level: Level,
}

// No node is opened.
#[tactic(auto, using(crate::proofs::Rows::empty_row_pushed))]
fn no_rows(alloc: Global, threads: usize) -> Result<Vec<Vec<bool>>, AllocError>
    ensures { IfOk result (λ opened. rows opened.items ≡ replicate threads []) }
{
    let mut opened = Vec::with_capacity(alloc, threads)?;
    for _ in 0..threads {
        opened.push(Vec::new(alloc))?;
    }
    Ok(opened)
}

// The first node.
fn first_node(alloc: Global) -> Result<Vec<Origin>, AllocError>
    ensures { IfOk result (λ nodes. nodes.items ≡ first_origin ∷ []) }
{
    let mut nodes = Vec::new(alloc);
    nodes.push(Origin {
        from: 0,
        thread: 0,
        last_refusal: 0,
        entries: 0,
        level: 0,
    })?;
    Ok(nodes)
}

impl Search {
    /// Before the first level, in which each of these threads goes on alone from the one node of a graph.
    ///
    /// # Errors
    /// Out of memory.
    pub fn new(alloc: Global, threads: usize) -> Result<Search, AllocError>
        ensures threads { IfOk result (λ s. length (rows s.opened.items) ≡ threads) }
        ensures number { IfOk result (λ s. s.level.number ≡ 0) }
        ensures first { IfOk result (λ s. s.level.first ≡ 0) }
        ensures between { IfOk result (λ s. (noted : ℕ → BothWays) → IsBetween noted 1 s.found.nodes.items s.found.refusals.items (rows s.opened.items) s.level) }
    {
        let opened = no_rows(alloc, threads)?;
        let nodes = first_node(alloc)?;
        Ok(Search {
            found: Found {
                nodes,
                refusals: Vec::new(alloc),
                pending: Vec::new(alloc),
            },
            opened,
            level: Level {
                number: 0,
                first: 0,
                until: 1,
            },
        })
    }

    /// Whether the search is finished: no node was found in the last level.
    pub fn is_finished(&self) -> bool
        ensures finished { result ≡ true → (noted : ℕ → BothWays) (size : ℕ) → IsBetween noted size self.now.found.nodes.items self.now.found.refusals.items (rows self.now.opened.items) self.now.level
            → AreAsked noted (length (rows self.now.opened.items)) size }
        ensures over { result ≡ true → self.now.level.until ≤ self.now.level.first }
        ensures more { result ≡ false → self.now.level.first < self.now.level.until }
    {
        self.level.first >= self.level.until
    }

    /// Goes over the next level: each thread goes on alone from each node that was found in the level before. The observer is told of each node
    /// that is found.
    ///
    /// # Errors
    /// The graph stops, or out of memory. Then the search can't go on.
    pub fn go_over<S: Successors, O: Observer>(
        &mut self,
        graph: &mut S,
        observer: &O,
    ) -> Result<(), Stop>
        requires between { IsBetween (S.shape graph.old).noted (S.shape graph.old).size self.old.found.nodes.items self.old.found.refusals.items (rows self.old.opened.items) self.old.level }
        requires more { self.old.level.first < self.old.level.until }
        requires room { (S.shape graph.old).size ≤ (S.shape graph.old).most }
        requires sound { S.is_sound graph.old }

        // Once it has gone over it
        ensures between { OnOk result
            (IsBetween (S.shape graph.new).noted (S.shape graph.new).size self.new.found.nodes.items self.new.found.refusals.items
            (rows self.new.opened.items) self.new.level) }
        ensures next { OnOk result (self.new.level.number ≡ suc self.old.level.number) }

        // Whatever comes
        ensures has { HasGone (S.shape graph.new).noted (length (rows self.new.opened.items)) (S.shape graph.new).size self.new.found.nodes.items
            self.new.found.refusals.items self.old.level.number }
        ensures level { OnErr result (self.new.level ≡ self.old.level) }
        ensures keeps { SearchKeeps self.old.level.number (S.shape graph.old) (S.shape graph.new) (S.is_sound graph.new) self.old.found.nodes.items
            self.new.found.nodes.items self.new.found.refusals.items }
        ensures threads { length (rows self.new.opened.items) ≡ length (rows self.old.opened.items) }
        ensures full { IsErrOf result Nodes → (S.shape graph.new).size ≡ (S.shape graph.new).most }
        ensures stopped { IfErr result (λ stop. (stop ≡ Memory) ⊎ S.may_stop graph.new stop) }
    {
        let level = self.level;
        take_level(graph, &mut self.opened, &mut self.found, level, observer)?;
        self.level = Level {
            number: level.number + 1,
            first: level.until,
            until: self.found.nodes.len(),
        };
        Ok(())
    }
}
