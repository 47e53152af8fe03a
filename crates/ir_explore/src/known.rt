//! What is known of the outcomes of a guest.

ghost use Rattle.std.specs.Prelude.{IfOk, IfErr};
ghost use Rattle.ir_thread.specs.State.{IsAllowed};
ghost use Rattle.ir_explore.specs.Texts.{IsStopReason, AreKnown, known_of};

use crate::plan::ExplorePlan;
use ir_image::Image;
use ir_outcomes::{Explored, explore};
use ir_search::{Observer, Stop};
use std::alloc::Global;

/// The outcomes of a guest, as far as the plan says. The observer is told how far the search is.
///
/// # Errors
/// The search doesn't begin.
pub fn explore_by_plan<'a, W: Observer>(
    alloc: Global,
    image: &'a Image,
    plan: &ExplorePlan<'a>,
    observer: &W,
) -> Result<Explored<'a>, Stop>
    requires { IsAllowed plan.now.profile image.now }
    ensures known { IfOk result (λ e. AreKnown image.now plan.now (known_of e)) }
    ensures refused { IfErr result (λ why. IsStopReason image.now plan.now why) }
{
    let setup = plan.setup(image);
    let explored = explore(alloc, &setup, plan.bounds, plan.switches, observer)?;
    Ok(explored)
}
