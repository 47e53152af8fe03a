//! Which outcomes of a guest another guest doesn't have.

ghost use Rattle.std.specs.Prelude.{◌≡◌, ◌<◌, ℕ, Some, length, slice_get, IfOk};
ghost use Rattle.ir_explore.specs.Texts.{AreKnown, known_of};
ghost use Rattle.ir_image.specs.Guest.{Guest};
ghost use Rattle.ir_explore.specs.Plan.{ExplorePlan};
ghost use Rattle.ir_outcomes.specs.declared.shown.Shown.{Shown};
ghost use Rattle.ir_within.specs.Plans.{aspects_of};
ghost use Rattle.ir_within.specs.Judging.{AreCompared, AreKept};
ghost use Rattle.ir_within.specs.Within.{AreJudged};

use crate::aspects::Aspects;
use crate::seen::seen_of;
use crate::seen_set::SeenSet;
use ir_explore::state_of;
use ir_outcomes::{Explored, Shown};
use ir_state_store::Store;
use std::alloc::{AllocError, Global};

// What counts of these outcomes.
fn all_kept(
    alloc: Global,
    aspects: Aspects<'_>,
    flats: &Store<'_>,
    outcomes: &[Shown],
) -> Result<SeenSet, AllocError>
    requires { (i : ℕ) (x : Shown) → slice_get outcomes.now i ≡ Some x → x.node < length flats.now.items }
    ensures { IfOk result (λ kept. AreKept (aspects_of aspects.entry) flats.now.items outcomes.now kept) }
{
    let mut kept = SeenSet::new(alloc);
    for shown in outcomes {
        let state = state_of(flats, shown)?;
        let own = seen_of(alloc, aspects, &state.flat)?;
        kept.add(own)?;
    }
    Ok(kept)
}

// Of each of these outcomes whether it is outside: whether none of those that are kept is the same in what counts.
fn outside(
    alloc: Global,
    aspects: Aspects<'_>,
    flats: &Store<'_>,
    outcomes: &[Shown],
    others: &SeenSet,
) -> Result<Vec<bool>, AllocError>
    requires { (i : ℕ) (x : Shown) → slice_get outcomes.now i ≡ Some x → x.node < length flats.now.items }
    ensures { IfOk result (λ v. AreCompared (aspects_of aspects.entry) flats.now.items outcomes.now others.now v.items) }
{
    let mut marks = Vec::new(alloc);
    for shown in outcomes {
        let state = state_of(flats, shown)?;
        let own = seen_of(alloc, aspects, &state.flat)?;
        marks.push(!others.has(&own))?;
    }
    Ok(marks)
}

/// Of each outcome of a guest that was found, whether it is outside of those of another guest: whether none of these is the same in what counts.
///
/// # Errors
/// Out of memory.
pub fn judged(
    alloc: Global,
    aspects: Aspects<'_>,
    image: &Explored<'_>,
    other: &Explored<'_>,
) -> Result<Vec<bool>, AllocError>
    requires nodes { (i : ℕ) (x : Shown) → slice_get image.now.outcomes.items i ≡ Some x → x.node < length image.now.states.graph.flats.items }
    requires other_nodes { (i : ℕ) (x : Shown) → slice_get other.now.outcomes.items i ≡ Some x → x.node < length other.now.states.graph.flats.items }
    ensures { IfOk result (λ v. (guest others : Guest) (plan : ExplorePlan) → AreKnown guest plan (known_of image.now) → AreKnown others plan (known_of other.now)
        → AreJudged (aspects_of aspects.entry) guest others (known_of image.now) (known_of other.now) v.items) }
{
    let others = all_kept(
        alloc,
        aspects,
        &other.states.graph.flats,
        other.outcomes.as_slice(),
    )?;
    outside(
        alloc,
        aspects,
        &image.states.graph.flats,
        image.outcomes.as_slice(),
        &others,
    )
}
