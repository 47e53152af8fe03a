//! The outcomes of a guest, found level by level.

ghost use Rattle.std.specs.Prelude.{◌≡◌, ◌⊎◌, ℕ, suc, ◌<◌, ◌≤◌, true, false, length, Some, None, IfOk, IfErr, IsErrOf, OnErr};
ghost use Rattle.ir_search.specs.declared.search.Ended.TheVariants.{Finished, Covered, Stopped};
ghost use Rattle.ir_search.specs.declared.stop.Stop.{Stop};
ghost use Rattle.ir_search.specs.declared.stop.Stop.TheVariants.{Memory};
ghost use Rattle.ir_search.specs.Following.{Stay};
ghost use Rattle.ir_graph.specs.Searched.{IsWholeGraph};
ghost use Rattle.ir_graph.specs.Stops.{IsStop, MayStop};
ghost use Rattle.ir_outcomes.specs.Explored.{AreHangs, IsExplored, MayEnd};
ghost use Rattle.ir_outcomes.specs.Exploring.{ExploringGoesOn, IsExploring};
ghost use Rattle.ir_thread.specs.State.{IsAllowed};

use crate::explored::Explored;
use crate::hang::{count_lost, find_hang};
use crate::listing::{Listing, show_new};
use crate::shown::Shown;
use ir_graph::{Bounds, Setup, States};
use ir_search::{Ended, Observer, Stop};
use std::alloc::Global;

/// A guest whose outcomes are looked for.
#[derive(Drop)]
pub struct Exploring<'a> {
    alloc: Global,
    /// The states that were found.
    pub states: States<'a>,
    /// The different outcomes that were found.
    pub list: Listing,
    /// The most switches of the thread that enters or tries.
    pub most: usize,
    /// Why the search can't go on.
    pub stop: Option<Stop>,
}

// How a search ended.
#[derive(Drop)]
struct Ending {
    ended: Ended,
    // Of a finished search: how many of the states can't be brought to an end.
    hangs: usize,
    // A run that leads to the first of them.
    hang: Option<Shown>,
}

// Why one of two steps failed: of the first, if both did.
fn first_stop(first: Result<(), Stop>, second: Result<(), Stop>) -> Option<Stop>
    ensures none { result ≡ None → OnErr first ⊥ × OnErr second ⊥ }
    ensures some { (why : Stop) → result ≡ Some why → IsErrOf first why ⊎ IsErrOf second why }
{
    match (first, second) {
        (Err(why), _) => Some(why),
        (Ok(()), Err(why)) => Some(why),
        (Ok(()), Ok(())) => None,
    }
}

impl<'a> Exploring<'a> {
    /// A guest before it is explored: up to `most` switches from thread to thread.
    ///
    /// # Errors
    /// Some thread doesn't come to its first entry or try, or out of memory.
    pub fn start(
        alloc: Global,
        setup: &Setup<'a>,
        bounds: Bounds,
        most: usize,
    ) -> Result<Exploring<'a>, Stop>
        requires allowed { IsAllowed setup.now.profile setup.now.guest }
        requires some { 1 ≤ bounds.nodes }
        ensures setup { IfOk result (λ e. e.states.graph.setup ≡ setup.now) }
        ensures bounds { IfOk result (λ e. e.states.graph.bounds ≡ bounds) }
        ensures most { IfOk result (λ e. e.most ≡ most) }
        ensures none { IfOk result (λ e. length e.list.outcomes.items ≡ 0) }
        ensures is { IfOk result IsExploring }
        ensures refused { IfErr result (λ why. (why ≡ Memory) ⊎ IsStop setup.now bounds.private why) }
    {
        let states = States::start(alloc, setup, bounds)?;
        Ok(Exploring {
            alloc,
            states,
            list: Listing {
                outcomes: Vec::new(alloc),
                levels: 0,
                listed: Vec::new(alloc),
                seen: 0,
            },
            most,
            stop: None,
        })
    }

    /// Whether there is a level to go over.
    pub fn goes_on(&self) -> bool
        ensures stop { result ≡ true → self.now.stop ≡ None }
        ensures more { result ≡ true → self.now.states.search.level.first < self.now.states.search.level.until }
        ensures wanted { result ≡ true → self.now.states.search.level.number ≤ self.now.most }
        ensures over { result ≡ false → self.now.stop ≡ None → (self.now.states.search.level.until ≤ self.now.states.search.level.first) ⊎ (self.now.most < self.now.states.search.level.number) }
    {
        if self.stop.is_some() {
            return false;
        }
        if self.states.is_finished() {
            return false;
        }
        self.states.search.level.number <= self.most
    }

    /// Goes over the next level, and shows the new outcomes. The observer is told how far it is.
    pub fn go_over<O: Observer>(&mut self, observer: &O)
        requires allowed { IsAllowed self.old.states.graph.setup.profile self.old.states.graph.setup.guest }
        requires is { IsExploring self.old }
        requires stop { self.old.stop ≡ None }
        requires more { self.old.states.search.level.first < self.old.states.search.level.until }
        requires wanted { self.old.states.search.level.number ≤ self.old.most }
        ensures kept { ExploringGoesOn self.old self.new }
        ensures stay { Stay self.old.states.graph.flats.items self.new.states.graph.flats.items }
        ensures outcomes { Stay self.old.list.outcomes.items self.new.list.outcomes.items }
        ensures next { self.new.stop ≡ None → self.new.states.search.level.number ≡ suc self.old.states.search.level.number }
    {
        let searched = self.states.go_over(observer);
        let shown = show_new(self.alloc, &self.states, &mut self.list);
        self.stop = first_stop(shown, searched);
        observer.listed(self.list.outcomes.len());
    }

    // Of a finished search: how many of the states can't be brought to an end, and a run that leads to the first of them.
    fn hangs(&self) -> Result<(usize, Option<Shown>), Stop>
        requires allowed { IsAllowed self.now.states.graph.setup.profile self.now.states.graph.setup.guest }
        requires is { IsExploring self.now }
        requires stop { self.now.stop ≡ None }
        requires over { self.now.states.search.level.until ≤ self.now.states.search.level.first }
        requires whole { IsWholeGraph self.now.states }
        ensures hangs { IfOk result (λ found. AreHangs self.now.states.graph.setup self.now.states.graph.flats.items found.0 found.1) }
        ensures refused { IfErr result (λ why. MayStop self.now.states.graph.setup self.now.states.graph.flats.items self.now.states.graph.bounds why) }
    {
        let marks = self.states.marks(self.alloc)?;
        let lost = count_lost(marks.as_slice());
        match find_hang(self.alloc, &self.states, marks.as_slice()) {
            Ok(hang) => Ok((lost, hang)),
            Err(why) => Err(why),
        }
    }

    // How the search ended.
    #[tactic(auto, using(crate::proofs::Ends::may_end_by_stop))]
    fn ending(&self) -> Ending
        requires allowed { IsAllowed self.now.states.graph.setup.profile self.now.states.graph.setup.guest }
        requires is { IsExploring self.now }
        ensures stopped { (why : Stop) → result.ended ≡ Stopped why
            → MayEnd self.now.states.graph.setup self.now.states.graph.flats.items self.now.states.graph.bounds self.now.list.outcomes.items why }
        ensures finished { result.ended ≡ Finished → (self.now.stop ≡ None) × (self.now.states.search.level.until ≤ self.now.states.search.level.first) × IsWholeGraph self.now.states }
        ensures covered { result.ended ≡ Covered → (self.now.stop ≡ None) × (self.now.states.search.level.first < self.now.states.search.level.until) }
        ensures hangs { result.ended ≡ Finished → AreHangs self.now.states.graph.setup self.now.states.graph.flats.items result.hangs result.hang }
        ensures unknown { (result.ended ≡ Finished → ⊥) → result.hang ≡ None }
    {
        let (ended, hangs, hang) = match self.stop {
            Some(why) => (Ended::Stopped(why), 0, None),
            None if !self.states.is_finished() => (Ended::Covered, 0, None),
            None => match self.hangs() {
                Ok((hangs, hang)) => (Ended::Finished, hangs, hang),
                Err(why) => (Ended::Stopped(why), 0, None),
            },
        };
        Ending { ended, hangs, hang }
    }

    /// What was found out, once no level is to be gone over.
    pub fn end(self) -> Explored<'a>
        requires allowed { IsAllowed self.states.graph.setup.profile self.states.graph.setup.guest }
        requires is { IsExploring self }
        requires over { self.stop ≡ None → (self.states.search.level.until ≤ self.states.search.level.first) ⊎ (self.most < self.states.search.level.number) }
        ensures explored { IsExplored self.entry.states.graph.setup self.entry.states.graph.bounds self.entry.most result }
        ensures flats { result.states.graph.flats.items ≡ self.entry.states.graph.flats.items }
        ensures outcomes { result.outcomes.items ≡ self.entry.list.outcomes.items }
    {
        let Ending { ended, hangs, hang } = self.ending();
        let Exploring { states, list, .. } = self;
        let Listing {
            outcomes,
            levels,
            ..
        } = list;
        Explored {
            states,
            outcomes,
            levels,
            ended,
            hangs,
            hang,
        }
    }
}
