//! The search for a run with fewer switches: turns are left out and drawn together, by large chunks first, until no single turn boundary can be taken.

ghost use Rattle.std.specs.Prelude.{◌≡◌, ◌≤◌, ◌<◌, ℕ, Some, true, false, length, IfOk, IfSome, MatchOption};
ghost use Rattle.ir_shrink.specs.Judging.{IsKeptOf, IsSought};
ghost use Rattle.ir_shrink.specs.Items.{endless_of};
ghost use Rattle.ir_shrink.specs.Shrinking.{endless_at, goal_of, IsMinimal, IsNoBetter, IsNoneBetterAt, without};

use crate::changes::{endless_at, without};
use crate::judging::{Judge, Kept};
use crate::pace::Pace;
use crate::playing::endless_of;
use ir_record::Item;
use std::alloc::{AllocError, Global};
use std::time::Clock;

/// What a search for better items came to.
#[derive(Drop)]
pub enum Sought {
    /// Items with fewer switches.
    Better(Kept),
    /// There is none.
    Nothing,
    /// The time was over.
    Over,
}

/// Items that were found, and whether it is known that none is better by a turn boundary.
#[derive(Drop)]
pub struct Shrunken {
    /// The items.
    pub kept: Kept,
    /// Whether no turn boundary can be taken; else the time was over.
    pub is_minimal: bool,
}

// The place of the next item of the same thread behind a place, if there is one.
fn next_own(items: &[Item], place: usize) -> Option<usize>
    requires { place < length items.now }
    ensures { IfSome result (λ next. (place < next) × (next < length items.now)) }
{
    let item = items[place];
    'places: for next in place + 1..items.len() {
        if items[next].thread == item.thread {
            return Some(next);
        }
    }
    None
}

// The turns of an item drawn together with the next of its thread: before the items between them, or after these.
fn drawn(
    alloc: Global,
    items: &[Item],
    place: usize,
    next: usize,
    is_later: bool,
) -> Result<Vec<Item>, AllocError>
    requires place { place < next }
    requires next { next < length items.now }
{
    let mut all = Vec::with_capacity(alloc, items.len())?;
    all.extend_from_slice(&items[..place])?;
    let (first, last) = (items[place], items[next]);
    if is_later {
        all.extend_from_slice(&items[place + 1..next])?;
        all.push(first)?;
        all.push(last)?;
    } else {
        all.push(first)?;
        all.push(last)?;
        all.extend_from_slice(&items[place + 1..next])?;
    }
    all.extend_from_slice(&items[next + 1..])?;
    Ok(all)
}

impl<C: Clock + Eprint> Judge<'_, C> {
    // Something better where the item at a place has endless turns. Where so many items are left out there, or those after it, nothing is.
    fn longer_at(&self, kept: &Kept, place: usize, size: usize) -> Result<Option<Kept>, AllocError>
        requires place { place < length kept.now.items.items }
        requires left_out { IsNoBetter (goal_of self.now.image.now self.now.plan.now) kept.now.switches (without place size kept.now.items.items) }
        requires merged { IsNoBetter (goal_of self.now.image.now self.now.plan.now) kept.now.switches (endless_at (endless_of self.now.plan.now.record) place size kept.now.items.items) }
        ensures { IfOk result (λ o. MatchOption o (IsNoneBetterAt (goal_of self.now.image.now self.now.plan.now) kept.now.items.items kept.now.switches place size)
            (λ better. IsKeptOf (goal_of self.now.image.now self.now.plan.now) better × (better.switches < kept.now.switches))) }
    {
        let endless = endless_of(&self.plan.record);
        let longer = endless_at(self.alloc, kept.items.as_slice(), endless, place, 0)?;
        let found = self.better(longer.as_slice(), kept.switches)?;
        match found {
            Some(better) => Ok(Some(better)),
            None => Ok(None),
        }
    }

    // Something better where the item at a place has endless turns, without so many items after it or with them. Where so many are left out there,
    // nothing is.
    fn merged_at(&self, kept: &Kept, place: usize, size: usize) -> Result<Option<Kept>, AllocError>
        requires place { place < length kept.now.items.items }
        requires left_out { IsNoBetter (goal_of self.now.image.now self.now.plan.now) kept.now.switches (without place size kept.now.items.items) }
        ensures { IfOk result (λ o. MatchOption o (IsNoneBetterAt (goal_of self.now.image.now self.now.plan.now) kept.now.items.items kept.now.switches place size)
            (λ better. IsKeptOf (goal_of self.now.image.now self.now.plan.now) better × (better.switches < kept.now.switches))) }
    {
        let endless = endless_of(&self.plan.record);
        let merged = endless_at(self.alloc, kept.items.as_slice(), endless, place, size)?;
        let found = self.better(merged.as_slice(), kept.switches)?;
        match found {
            Some(better) => Ok(Some(better)),
            None => self.longer_at(kept, place, size),
        }
    }

    // Something better with a turn boundary less at a place: without so many items from there on, or with endless turns of the item there.
    fn better_at(&self, kept: &Kept, place: usize, size: usize) -> Result<Option<Kept>, AllocError>
        requires { place < length kept.now.items.items }
        ensures { IfOk result (λ o. MatchOption o (IsNoneBetterAt (goal_of self.now.image.now self.now.plan.now) kept.now.items.items kept.now.switches place size)
            (λ better. IsKeptOf (goal_of self.now.image.now self.now.plan.now) better × (better.switches < kept.now.switches))) }
    {
        let left = without(self.alloc, kept.items.as_slice(), place, size)?;
        let found = self.better(left.as_slice(), kept.switches)?;
        match found {
            Some(better) => Ok(Some(better)),
            None => self.merged_at(kept, place, size),
        }
    }

    // Something better where the turns of the item at a place are drawn together with the next of its thread.
    fn drawn_at(&self, kept: &Kept, place: usize) -> Result<Option<Kept>, AllocError>
        requires { place < length kept.now.items.items }
        ensures { IfOk result (λ o. IfSome o (λ better. IsKeptOf (goal_of self.now.image.now self.now.plan.now) better × (better.switches < kept.now.switches))) }
    {
        let items = kept.items.as_slice();
        let Some(next) = next_own(items, place) else {
            return Ok(None);
        };
        let earlier = drawn(self.alloc, items, place, next, false)?;
        if let Some(better) = self.better(earlier.as_slice(), kept.switches)? {
            return Ok(Some(better));
        }
        let later = drawn(self.alloc, items, place, next, true)?;
        self.better(later.as_slice(), kept.switches)
    }

    // Something better by one of these.
    fn tried_at(&self, kept: &Kept, place: usize, size: usize) -> Result<Option<Kept>, AllocError>
        requires { place < length kept.now.items.items }
        ensures { IfOk result (λ o. IfSome o (λ better. IsKeptOf (goal_of self.now.image.now self.now.plan.now) better × (better.switches < kept.now.switches))) }
    {
        match self.better_at(kept, place, size)? {
            Some(better) => Ok(Some(better)),
            None => self.drawn_at(kept, place),
        }
    }

    // Better items, if there are, after one sweep over all places with chunks of this size, or until the time is over.
    fn swept(&self, pace: &Pace, kept: Kept, size: usize) -> Result<Kept, AllocError>
        requires { IsKeptOf (goal_of self.now.image.now self.now.plan.now) kept }
        ensures kept { IfOk result (IsKeptOf (goal_of self.now.image.now self.now.plan.now)) }
        ensures fewer { IfOk result (λ better. better.switches ≤ kept.switches) }
    {
        let mut kept = kept;
        let mut place = 0;
        // Each time the place moves on, or there are fewer switches.
        let most = (kept.items.len() as u64).saturating_add(kept.switches);
        'places: for _ in 0..most {
            if place >= kept.items.len() {
                break;
            }
            if pace.is_over(self.clock) {
                break;
            }
            let tried = self.tried_at(&kept, place, size)?;
            match tried {
                Some(better) => {
                    pace.show(self.clock, better.switches);
                    kept = better;
                }
                None => place = place.saturating_add(size),
            }
        }
        Ok(kept)
    }

    // The same with chunks of half of the items, a quarter, and so on to single items.
    fn swept_by_chunks(&self, pace: &Pace, kept: Kept) -> Result<Kept, AllocError>
        requires { IsKeptOf (goal_of self.now.image.now self.now.plan.now) kept }
        ensures kept { IfOk result (IsKeptOf (goal_of self.now.image.now self.now.plan.now)) }
        ensures fewer { IfOk result (λ better. better.switches ≤ kept.switches) }
    {
        let mut kept = kept;
        let mut size = kept.items.len();
        'sizes: while size > 1 {
            size /= 2;
            kept = self.swept(pace, kept, size)?;
        }
        Ok(kept)
    }

    // Something better with one turn boundary less, or that there is nothing.
    fn sought(&self, pace: &Pace, kept: &Kept) -> Result<Sought, AllocError>
        ensures { IfOk result (IsSought (goal_of self.now.image.now self.now.plan.now) kept.now.items.items kept.now.switches pace.now.seconds) }
    {
        'places: for place in 0..kept.items.len() {
            let is_over = pace.is_over(self.clock);
            if is_over {
                return Ok(Sought::Over);
            }
            let found = self.better_at(kept, place, 1)?;
            match found {
                Some(better) => return Ok(Sought::Better(better)),
                None => {}
            }
        }
        Ok(Sought::Nothing)
    }

    // What a run is shrunk to, in rounds until there is nothing better.
    fn shrunken_by_rounds(&self, pace: &Pace, kept: Kept) -> Result<Shrunken, AllocError>
        requires { IsKeptOf (goal_of self.now.image.now self.now.plan.now) kept }
        ensures kept { IfOk result (λ s. IsKeptOf (goal_of self.now.image.now self.now.plan.now) s.kept) }
        ensures fewer { IfOk result (λ s. s.kept.switches ≤ kept.switches) }
        ensures minimal { IfOk result (λ s. s.is_minimal ≡ true → IsMinimal (goal_of self.now.image.now self.now.plan.now) s.kept.items.items s.kept.switches) }
        ensures over { IfOk result (λ s. s.is_minimal ≡ false → (n : ℕ) × (pace.now.seconds ≡ Some n)) }
    {
        let mut kept = self.swept_by_chunks(pace, kept)?;
        'rounds: loop {
            let next = self.sought(pace, &kept)?;
            match next {
                Sought::Better(better) => {
                    pace.show(self.clock, better.switches);
                    kept = better;
                }
                Sought::Nothing => {
                    return Ok(Shrunken {
                        kept,
                        is_minimal: true,
                    });
                }
                Sought::Over => {
                    return Ok(Shrunken {
                        kept,
                        is_minimal: false,
                    });
                }
            }
        }
    }

    /// What a run is shrunk to. What the pace shows is taken off the terminal then.
    ///
    /// # Errors
    /// Out of memory.
    pub fn shrunken(&self, pace: &Pace, kept: Kept) -> Result<Shrunken, AllocError>
        requires { IsKeptOf (goal_of self.now.image.now self.now.plan.now) kept }
        ensures kept { IfOk result (λ s. IsKeptOf (goal_of self.now.image.now self.now.plan.now) s.kept) }
        ensures fewer { IfOk result (λ s. s.kept.switches ≤ kept.switches) }
        ensures minimal { IfOk result (λ s. s.is_minimal ≡ true → IsMinimal (goal_of self.now.image.now self.now.plan.now) s.kept.items.items s.kept.switches) }
        ensures over { IfOk result (λ s. s.is_minimal ≡ false → (n : ℕ) × (pace.now.seconds ≡ Some n)) }
    {
        let shrunken = self.shrunken_by_rounds(pace, kept);
        pace.end(self.clock);
        shrunken
    }
}
