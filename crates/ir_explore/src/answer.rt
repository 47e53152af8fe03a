//! What is written about a guest.

ghost use Rattle.std.specs.Prelude.{◌≡◌, ◌<◌, ℕ, List, length, IfOk};
ghost use Rattle.std.specs.String.{string_bytes};
ghost use Rattle.ir_schedule.specs.Conditions.{Condition};
ghost use Rattle.ir_graph.specs.Reached.{AllReached};
ghost use Rattle.ir_image.specs.Guest.{Guest};
ghost use Rattle.ir_outcomes.specs.Explored.{AreExplored};
ghost use Rattle.ir_thread.specs.State.{IsAllowed};
ghost use Rattle.ir_explore.specs.Conditions.{NoneBefore, IsFulfilled};
ghost use Rattle.ir_explore.specs.Texts.{IsStopReason, IsStopped, AreKnown, IsEnding, IsKnownText, known_of, search_status};
ghost use Rattle.ir_explore.specs.Until.{IsHitText, vain_status_of};
ghost use Rattle.ir_explore.specs.Plan.{ExplorePlan, setup_of};

use crate::lines::found_line;
use crate::plan::ExplorePlan;
use crate::started::Started;
use crate::texts::{Ending, end_line, hang_text, outcomes_text};
use ir_files::ExitStatus;
use ir_flat::Flat;
use ir_image::Image;
use ir_order::list_of_items;
use ir_outcomes::Explored;
use ir_search::{Ended, Stop};
use std::alloc::{AllocError, Global};

// The exit status of a search that ended so, and knows so many states that can't be brought to an end.
fn status_of(ended: Ended, hangs: usize) -> ExitStatus
    ensures { result ≡ search_status ended hangs }
{
    match ended {
        Ended::Finished if hangs > 0 => ExitStatus::Hangs,
        Ended::Finished | Ended::Covered => ExitStatus::Done,
        Ended::Stopped(_) => ExitStatus::GaveUp,
    }
}

/// The exit status of a search that ended so, in which no outcome fulfils the conditions.
pub fn vain_status_of(ended: Ended) -> ExitStatus
    ensures { result ≡ vain_status_of ended }
{
    let stopped = matches!(ended, Ended::Stopped(_));
    if stopped {
        ExitStatus::GaveUp
    } else {
        ExitStatus::NotSo
    }
}

/// The lines after those of the outcomes: a hang, if one is known, and how the search ended. The exit status.
///
/// # Errors
/// Out of memory.
pub fn ending_text(
    alloc: Global,
    explored: &Explored<'_>,
) -> Result<(Vec<u8>, ExitStatus), AllocError>
    ensures { IfOk result (λ answer. IsEnding (known_of explored.now) answer.1 answer.0.items) }
{
    let outcomes = explored.outcomes.as_slice();
    let hang = hang_text(alloc, &explored.hang)?;
    let mut text = Vec::from_slice(alloc, hang.as_bytes())?;
    let ending = Ending {
        ended: explored.ended,
        levels: explored.levels,
        outcomes: outcomes.len(),
        states: explored.states.graph.flats.len(),
        hangs: explored.hangs,
        timed: explored.states.graph.timed,
    };
    let line = end_line(alloc, ending)?;
    text.extend_from_slice(line.as_bytes())?;
    Ok((text, status_of(explored.ended, explored.hangs)))
}

/// The lines of what was found out about a guest, and the exit status.
pub fn known_text(
    alloc: Global,
    image: &Image,
    plan: &ExplorePlan<'_>,
    explored: &Explored<'_>,
) -> Result<(Vec<u8>, ExitStatus), AllocError>
    requires allowed { IsAllowed plan.now.profile image.now }
    requires known { AreKnown image.now plan.now (known_of explored.now) }
    ensures { IfOk result (λ answer. IsKnownText image.now (known_of explored.now) answer.1 answer.0.items) }
{
    let start = Flat::start(alloc, image, 0, plan.profile)?;
    let flats = &explored.states.graph.flats;
    let outcomes = explored.outcomes.as_slice();
    let started = Started {
        words: image.object_words(),
        first: start.objects(),
    };
    let mut text = outcomes_text(alloc, started, flats, outcomes, 0, outcomes.len())?;
    let (ending, answered) = ending_text(alloc, explored)?;
    text.extend_from_slice(ending.as_slice())?;
    Ok((text, answered))
}

/// The line of a search that stopped before it began, and the exit status.
///
/// # Errors
/// Out of memory.
pub fn stopped_text(alloc: Global, why: Stop) -> Result<(Vec<u8>, ExitStatus), AllocError>
    ensures { IfOk result (λ answer. (guest : Guest) (plan : ExplorePlan) → IsStopReason guest plan why → IsStopped guest plan answer.1 answer.0.items) }
{
    let ending = Ending {
        ended: Ended::Stopped(why),
        levels: 0,
        outcomes: 0,
        states: 0,
        hangs: 0,
        timed: false,
    };
    let line = end_line(alloc, ending)?;
    let text = Vec::from_slice(alloc, line.as_bytes())?;
    Ok((text, ExitStatus::GaveUp))
}

/// The lines of the outcomes up to the one at a place, and of that one as what was found, with the list that spells its order.
pub fn hit_text(
    alloc: Global,
    image: &Image,
    plan: &ExplorePlan<'_>,
    explored: &Explored<'_>,
    place: usize,
) -> Result<(Vec<u8>, String), AllocError>
    requires allowed { IsAllowed plan.now.profile image.now }
    requires explored { AreExplored (setup_of image.now plan.now) explored.now.states.graph.flats.items explored.now.levels explored.now.outcomes.items }
    requires reached { AllReached (setup_of image.now plan.now) explored.now.states.graph.flats.items }
    requires place { place < length explored.now.outcomes.items }
    ensures { IfOk result (λ told. (conditions : List Condition) → NoneBefore image.now conditions explored.now.states.graph.flats.items explored.now.outcomes.items place
        → IsFulfilled image.now conditions explored.now.states.graph.flats.items explored.now.outcomes.items place → IsHitText image.now plan.now conditions (string_bytes told.1) told.0.items) }
{
    let start = Flat::start(alloc, image, 0, plan.profile)?;
    let flats = &explored.states.graph.flats;
    let outcomes = explored.outcomes.as_slice();
    let started = Started {
        words: image.object_words(),
        first: start.objects(),
    };
    // The guest has some thread, so the list isn't empty.
    let _ = image.entries();
    let mut text = outcomes_text(alloc, started, flats, outcomes, 0, place + 1)?;
    let shown = &outcomes[place];
    let list = list_of_items(alloc, shown.turns.as_slice())?;
    let line = found_line(alloc, place + 1, shown.level, list.as_str())?;
    text.extend_from_slice(line.as_bytes())?;
    Ok((text, list))
}
