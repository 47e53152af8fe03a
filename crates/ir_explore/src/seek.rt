//! The first outcome that fulfils conditions, looked for by growing numbers of switches.

ghost use Rattle.std.specs.Prelude.{◌≡◌, ◌≤◌, ◌<◌, None, true, false, map, IfOk, IfErr};
ghost use Rattle.ir_schedule.specs.Conditions.{as_condition};
ghost use Rattle.ir_search.specs.declared.search.Ended.TheVariants.{Covered};
ghost use Rattle.ir_thread.specs.State.{IsAllowed};
ghost use Rattle.ir_explore.specs.Conditions.{IsFirst};
ghost use Rattle.ir_explore.specs.Texts.{IsStopReason, AreKnown, known_of};
ghost use Rattle.ir_explore.specs.Until.{IsSought};

use crate::conditions::first_fulfilling;
use crate::known::explore_by_plan;
use crate::plan::UntilPlan;
use ir_image::Image;
use ir_outcomes::Explored;
use ir_search::{Ended, Observer, Stop};
use std::alloc::Global;

// The most switches of the first search. Each further one goes over more than twice as many.
const FIRST_SWITCHES: usize = 1;

/// What a search came to, and the first outcome that fulfils each condition.
#[derive(Drop)]
pub struct Sought<'a> {
    /// What the search came to.
    pub explored: Explored<'a>,
    /// The place of the outcome, if there is one.
    pub first: Option<usize>,
}

// A search up to these many switches.
fn search<'a, W: Observer>(
    alloc: Global,
    image: &'a Image,
    plan: &UntilPlan<'a, '_, '_, W>,
    switches: usize,
) -> Result<Sought<'a>, Stop>
    requires { IsAllowed plan.now.explore.profile image.now }
    ensures known { IfOk result (λ s. AreKnown image.now (record plan.now.explore { switches = switches }) (known_of s.explored)) }
    ensures first { IfOk result (λ s. IsFirst image.now (map as_condition plan.now.conditions.now) s.explored.states.graph.flats.items s.explored.outcomes.items s.first) }
    ensures refused { IfErr result (λ why. IsStopReason image.now plan.now.explore why) }
{
    let explore = plan.explore.within(switches);
    let explored = explore_by_plan(alloc, image, &explore, plan.observer)?;
    let flats = &explored.states.graph.flats;
    let first = first_fulfilling(flats, explored.outcomes.as_slice(), plan.conditions)?;
    Ok(Sought { explored, first })
}

// Whether no search of more switches comes after.
fn is_last(sought: &Sought<'_>, switches: usize, most: usize) -> bool
    ensures over { result ≡ true → sought.now.first ≡ None → sought.now.explored.ended ≡ Covered → most ≤ switches }
    ensures more { result ≡ false → switches < most }
{
    sought.first.is_some() || sought.explored.ended != Ended::Covered || switches >= most
}

// More switches, and no more than the most: more than twice as many, if so many may be.
fn widened(switches: usize, most: usize) -> usize
    requires { switches < most }
    ensures more { switches < result }
    ensures within { result ≤ most }
{
    if switches < most - switches {
        switches + switches + 1
    } else {
        most
    }
}

/// The first outcome that fulfils each condition, if there is one, and what is known of the guest. It is looked for among the outcomes of few
/// switches, then of more, so that it is found long before the search for all is finished.
///
/// # Errors
/// The search doesn't begin.
pub fn seek<'a, W: Observer>(
    alloc: Global,
    image: &'a Image,
    plan: &UntilPlan<'a, '_, '_, W>,
) -> Result<Sought<'a>, Stop>
    requires { IsAllowed plan.now.explore.profile image.now }
    ensures sought { IfOk result (λ s. IsSought image.now plan.now.explore (map as_condition plan.now.conditions.now) (known_of s.explored) s.first) }
    ensures refused { IfErr result (λ why. IsStopReason image.now plan.now.explore why) }
{
    let most = plan.explore.most();
    let mut switches = FIRST_SWITCHES.min(most);
    'wider: loop {
        let sought = search(alloc, image, plan, switches)?;
        if is_last(&sought, switches, most) {
            return Ok(sought);
        }
        switches = widened(switches, most);
    }
}
