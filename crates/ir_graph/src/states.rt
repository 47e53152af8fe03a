//! The states of a guest that its runs lead over, found level by level.

ghost use Rattle.std.specs.Prelude.{◌≡◌, ◌⊎◌, ℕ, suc, ◌≤◌, ◌<◌, true, false, length, IfOk, IfErr, OnErr, OnOk};
ghost use Rattle.ir_search.specs.declared.stop.Stop.TheVariants.{Memory};
ghost use Rattle.ir_graph.specs.Hangs.{AreMarked};
ghost use Rattle.ir_graph.specs.Searched.{AreSearched, IsSearch, SearchGoesOn, StandsBetween, IsWholeGraph};
ghost use Rattle.ir_graph.specs.Stops.{IsStop, MayStop};
ghost use Rattle.ir_thread.specs.State.{IsAllowed};

use crate::bounds::Bounds;
use crate::graph::Graph;
use crate::marks::mark_states;
use crate::setup::Setup;
use crate::start::start_graph;
use ir_search::{Observer, Search, Stop};
use std::alloc::{AllocError, Global};

/// The states that were found, and how.
#[derive(Drop)]
pub struct States<'a> {
    /// The graph: a state for each node.
    pub graph: Graph<'a>,
    /// How the search came to each node, and how far it is.
    pub search: Search,
}

impl<'a> States<'a> {
    /// The first state of a guest: where it comes to rest from its start.
    ///
    /// # Errors
    /// Some thread doesn't come to its first entry or try, as `run_to_rest` says, or out of memory.
    pub fn start(alloc: Global, setup: &Setup<'a>, bounds: Bounds) -> Result<States<'a>, Stop>
        requires allowed { IsAllowed setup.now.profile setup.now.guest }
        requires some { 1 ≤ bounds.nodes }
        ensures setup { IfOk result (λ s. s.graph.setup ≡ setup.now) }
        ensures bounds { IfOk result (λ s. s.graph.bounds ≡ bounds) }
        ensures is { IfOk result IsSearch }
        ensures between { IfOk result StandsBetween }
        ensures number { IfOk result (λ s. s.search.level.number ≡ 0) }
        ensures first { IfOk result (λ s. s.search.level.first ≡ 0) }
        ensures refused { IfErr result (λ stop. (stop ≡ Memory) ⊎ IsStop setup.now bounds.private stop) }
    {
        let graph = start_graph(alloc, setup, bounds)?;
        let search = Search::new(alloc, graph.rows.len())?;
        Ok(States { graph, search })
    }

    /// Whether all states are found.
    pub fn is_finished(&self) -> bool
        ensures finished { result ≡ true → IsSearch self.now → StandsBetween self.now → IsWholeGraph self.now }
        ensures over { result ≡ true → self.now.search.level.until ≤ self.now.search.level.first }
        ensures more { result ≡ false → self.now.search.level.first < self.now.search.level.until }
    {
        self.search.is_finished()
    }

    /// Goes over the next level: each thread goes on alone from each state that was found in the level before.
    ///
    /// # Errors
    /// Some thread isn't followed, there are as many states as there may be, or out of memory. Then the search can't go on.
    pub fn go_over<O: Observer>(&mut self, observer: &O) -> Result<(), Stop>
        requires is { IsSearch self.old }
        requires between { StandsBetween self.old }
        requires more { self.old.search.level.first < self.old.search.level.until }
        ensures kept { SearchGoesOn self.old self.new }
        // Once it has gone over it
        ensures between { OnOk result (StandsBetween self.new) }
        ensures next { OnOk result (self.new.search.level.number ≡ suc self.old.search.level.number) }
        ensures searched { OnOk result (AreSearched self.new.graph.setup self.new.graph.flats.items self.new.search.found.nodes.items self.new.search.level.number) }
        // Else it has found some states of it
        ensures level { OnErr result (self.new.search.level ≡ self.old.search.level) }
        ensures part { AreSearched self.new.graph.setup self.new.graph.flats.items self.new.search.found.nodes.items self.old.search.level.number }
        ensures stopped { IfErr result (λ stop. MayStop self.new.graph.setup self.new.graph.flats.items self.new.graph.bounds stop) }
    {
        self.search.go_over(&mut self.graph, observer)
    }

    /// Which of the states can be brought to an end.
    ///
    /// # Errors
    /// Out of memory.
    pub fn marks(&self, alloc: Global) -> Result<Vec<bool>, AllocError>
        requires is { IsSearch self.now }
        requires between { StandsBetween self.now }
        requires over { self.now.search.level.until ≤ self.now.search.level.first }
        ensures { IfOk result (λ marks. AreMarked self.now.graph.flats.items marks.items) }
    {
        mark_states(alloc, &self.graph)
    }
}
