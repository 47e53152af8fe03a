//! Whether a stale write of a run rests on what was read.

ghost use Rattle.std.specs.Prelude.{List, IfOk};
ghost use Rattle.ir_fit.specs.Fit.{IsRunOf};
ghost use Rattle.ir_record.specs.Recording.{turns_of_items};
ghost use Rattle.ir_runs.specs.Run.{Step};
ghost use Rattle.ir_shrink.specs.Stale.{HasStaleInTurns, IsTraceInTurns, IsWantedInTurns};

use crate::judging::Judge;
use ir_hunt::{counted_worlds, rests_in_trace};
use ir_record::{Item, record_with_refusals};
use ir_trace::Trace;
use std::alloc::AllocError;
use std::time::Clock;

impl<C: Clock> Judge<'_, C> {
    /// The trace of the run by the turns of these items.
    ///
    /// # Errors
    /// Out of memory.
    pub fn trace_of(&self, items: &[Item]) -> Result<Trace, AllocError>
        ensures by { IfOk result (IsTraceInTurns self.now.image.now self.now.plan.now.record (turns_of_items items.now)) }
        ensures run { IfOk result (λ trace. (run : List Step) × IsRunOf self.now.image.now trace run) }
    {
        let (alloc, image, plan) = (self.alloc, self.image, &self.plan.record);
        let worlds = counted_worlds(alloc, self.clock, image, plan)?;
        match record_with_refusals(alloc, image, items, worlds, plan.budget, plan.profile) {
            Ok((trace, _)) => Ok(trace),
            // A world that counts its time fails only where it has no room for more answers.
            Err(_) => Err(AllocError),
        }
    }

    // Whether a stale write of the run by the turns of these items rests on what was read.
    fn has_stale(&self, items: &[Item]) -> Result<bool, AllocError>
        ensures { IfOk result (HasStaleInTurns self.now.image.now self.now.plan.now.record (turns_of_items items.now)) }
    {
        let trace = self.trace_of(items)?;
        rests_in_trace(self.alloc, self.image, trace)
    }

    /// Whether the run by the turns of these items has what the plan wants of its stale writes that rest on what was read, if it wants anything: one,
    /// or none.
    ///
    /// # Errors
    /// Out of memory.
    pub fn is_wanted(&self, items: &[Item]) -> Result<bool, AllocError>
        ensures { IfOk result (IsWantedInTurns self.now.image.now self.now.plan.now.record (turns_of_items items.now) self.now.plan.now.stale) }
    {
        match self.plan.stale {
            None => Ok(true),
            Some(true) => self.has_stale(items),
            Some(false) => Ok(!self.has_stale(items)?),
        }
    }
}
