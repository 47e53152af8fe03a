//! Runs by items, judged by what they have to fulfil.

ghost use Rattle.std.specs.Prelude.{◌≡◌, ◌<◌, List, true, false, length, slice_get, IfOk, IfSome, MatchOption};
ghost use Rattle.std.specs.List.{list_all};
ghost use Rattle.ir_record.specs.declared.item.Item.{Item};
ghost use Rattle.ir_schedule.specs.Conditions.{as_condition, fulfils, end_state};
ghost use Rattle.ir_shrink.specs.Played.{IsPlayed};
ghost use Rattle.ir_shrink.specs.Shrinking.{goal_of, IsNoBetter};
ghost use Rattle.ir_shrink.specs.Judging.{IsKeptOf, IsVerdict};
ghost use Rattle.ir_thread.specs.State.{IsAllowed};

use crate::plan::ShrinkPlan;
use crate::playing::{Played, play};
use crate::switches::switches;
use ir_flat::Flat;
use ir_image::Image;
use ir_record::Item;
use ir_schedule::Condition;
use std::alloc::{AllocError, Global};
use std::time::Clock;

/// Items whose run fulfils all, and how many switches it has.
#[derive(Drop)]
pub struct Kept {
    /// The items.
    pub items: Vec<Item>,
    /// The switches.
    pub switches: u64,
}

/// What runs a guest by items, and judges what it comes to.
#[derive(Drop)]
pub struct Judge<'a, C> {
    /// Where memory comes from.
    pub alloc: Global,
    /// A clock that isn't read: time is counted.
    pub clock: &'a C,
    /// The guest.
    pub image: &'a Image,
    /// What is shrunk.
    pub plan: &'a ShrinkPlan<'a>,
    ghost allowed: { IsAllowed plan.now.record.profile image.now },
}

/// Whether a run fulfils all.
#[derive(Clone, Copy, Debug, PartialEq, Eq)]
pub enum Verdict {
    /// It does.
    Good,
    /// It doesn't fulfil the condition of this number, from 0.
    Unmet(usize),
    /// It hasn't what is wanted of its stale writes.
    Stale,
}

// The first of the conditions that doesn't hold of what these threads and objects came to.
fn first_unmet(conditions: &[Condition<'_>], flat: &Flat<'_>) -> Option<usize>
    ensures { MatchOption result (list_all (λ c. fulfils (as_condition c) (end_state flat.now)) conditions.now ≡ true)
        (λ place. IfSome (slice_get conditions.now place) (λ c. fulfils (as_condition c) (end_state flat.now) ≡ false) × (place < length conditions.now)) }
{
    'places: for place in 0..conditions.len() {
        let is_met = conditions[place].holds(flat);
        if !is_met {
            return Some(place);
        }
    }
    None
}

impl<C: Clock> Judge<'_, C> {
    // Whether a run that fulfils each condition has what is wanted of its stale writes.
    fn stale_judged(&self, played: &Played<'_>) -> Result<Verdict, AllocError>
        requires { list_all (λ c. fulfils (as_condition c) (end_state played.now.flat)) self.now.plan.now.conditions.now ≡ true }
        ensures { IfOk result (λ verdict. (items : List Item) → (p : IsPlayed self.now.image.now self.now.plan.now.record items played.now.items.items played.now.flat)
            → IsVerdict (goal_of self.now.image.now self.now.plan.now) p.run verdict) }
    {
        let is_good = self.is_wanted(played.items.as_slice())?;
        if is_good {
            return Ok(Verdict::Good);
        }
        Ok(Verdict::Stale)
    }

    /// Whether a run fulfils all. Its stale writes are asked only where it fulfils each condition.
    ///
    /// # Errors
    /// Out of memory.
    pub fn judged(&self, played: &Played<'_>) -> Result<Verdict, AllocError>
        ensures { IfOk result (λ verdict. (items : List Item) → (p : IsPlayed self.now.image.now self.now.plan.now.record items played.now.items.items played.now.flat)
            → IsVerdict (goal_of self.now.image.now self.now.plan.now) p.run verdict) }
    {
        match first_unmet(self.plan.conditions, &played.flat) {
            Some(place) => Ok(Verdict::Unmet(place)),
            None => self.stale_judged(played),
        }
    }

    /// The run by items, if it fulfils all and has fewer switches than `limit`.
    ///
    /// # Errors
    /// Out of memory.
    pub fn better(&self, items: &[Item], limit: u64) -> Result<Option<Kept>, AllocError>
        ensures { IfOk result (λ o. MatchOption o (IsNoBetter (goal_of self.now.image.now self.now.plan.now) limit items.now)
            (λ kept. IsKeptOf (goal_of self.now.image.now self.now.plan.now) kept × (kept.switches < limit))) }
    {
        let played = play(self.alloc, self.clock, self.image, &self.plan.record, items)?;
        let count = switches(played.items.as_slice());
        if count >= limit {
            return Ok(None);
        }
        let verdict = self.judged(&played)?;
        match verdict {
            Verdict::Good => Ok(Some(Kept {
                items: played.items,
                switches: count,
            })),
            Verdict::Unmet(_) => Ok(None),
            Verdict::Stale => Ok(None),
        }
    }
}
