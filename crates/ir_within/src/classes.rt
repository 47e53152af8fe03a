//! The classes of a guest's outcomes: those that are the same in what counts are in one class.

ghost use Rattle.std.specs.Prelude.{◌≡◌, ◌<◌, ◌++◌, ℕ, length, slice_get, Some, IfOk, IfErr, false, ◌⊎◌};
ghost use Rattle.std.specs.String.{string_bytes};
ghost use Rattle.ir_explore.specs.Faults.{explore_fault_status, explore_fault_words};
ghost use Rattle.ir_explore.specs.Texts.{AreKnown, known_of};
ghost use Rattle.ir_explore.specs.Plan.{ExplorePlan};
ghost use Rattle.ir_explore.specs.declared.fault.ExploreFault.{ExploreFault};
ghost use Rattle.ir_files.specs.Writers.{writer_of, Reports, fault_text};
ghost use Rattle.ir_image.specs.Guest.{Guest};
ghost use Rattle.ir_outcomes.specs.declared.shown.Shown.{Shown};
ghost use Rattle.ir_thread.specs.State.{IsAllowed};
ghost use Rattle.ir_within.specs.Classes.{AreFirsts, AreClasses, IsClassesText, IsClassesAnswer, TellsClasses, HasNoClasses, classes_line};
ghost use Rattle.ir_within.specs.Plans.{aspects_of};

use crate::aspects::Aspects;
use crate::seen::seen_of;
use crate::seen_set::SeenSet;
use crate::texts::{marked_count, marked_text};
use ir_explore::{
    ExploreFault, ExplorePlan, Started, ending_text, explore_by_plan, guest_of, state_of,
    stopped_text,
};
use ir_files::{ExitStatus, tell};
use ir_flat::Flat;
use ir_image::Image;
use ir_outcomes::{Explored, Shown};
use ir_record_command::ParsedImage;
use ir_search::Observer;
use ir_state_store::Store;
use ir_stream::{Sink, write_all};
use std::alloc::{AllocError, Global};

/// Whose outcomes are told by classes, and how far it is explored.
#[derive(Drop)]
pub struct ClassesPlan<'a, 'i, 'o, W> {
    /// The guest's image.
    pub image: &'a ParsedImage<'i>,
    /// How it is explored.
    pub explore: ExplorePlan<'a>,
    /// What of its outcomes counts.
    pub aspects: Aspects<'a>,
    /// What is told how far the search is.
    pub observer: &'o W,
}

// Of each of these outcomes whether what counts of it is the first of its kind.
fn firsts(
    alloc: Global,
    aspects: Aspects<'_>,
    flats: &Store<'_>,
    outcomes: &[Shown],
) -> Result<Vec<bool>, AllocError>
    requires { (i : ℕ) (x : Shown) → slice_get outcomes.now i ≡ Some x → x.node < length flats.now.items }
    ensures { IfOk result (λ v. AreFirsts (aspects_of aspects.entry) flats.now.items outcomes.now v.items) }
{
    let mut kept = SeenSet::new(alloc);
    let mut marks = Vec::new(alloc);
    for shown in outcomes {
        let state = state_of(flats, shown)?;
        let own = seen_of(alloc, aspects, &state.flat)?;
        let is_new = kept.add(own)?;
        marks.push(is_new)?;
    }
    Ok(marks)
}

// Of each outcome that was found, whether it is the first of its class.
fn classes_of(
    alloc: Global,
    aspects: Aspects<'_>,
    found: &Explored<'_>,
) -> Result<Vec<bool>, AllocError>
    requires nodes { (i : ℕ) (x : Shown) → slice_get found.now.outcomes.items i ≡ Some x → x.node < length found.now.states.graph.flats.items }
    ensures { IfOk result (λ v. (guest : Guest) (plan : ExplorePlan) → AreKnown guest plan (known_of found.now) → AreClasses (aspects_of aspects.entry) guest (known_of found.now) v.items) }
{
    let flats = &found.states.graph.flats;
    firsts(alloc, aspects, flats, found.outcomes.as_slice())
}

// The line that says how many classes there are.
fn last_line(alloc: Global, many: usize) -> Result<String, AllocError>
    ensures { IfOk result (λ s. string_bytes s ≡ classes_line many) }
{
    format!(in alloc; "classes {many}\n")
}

// The lines of what was found out about a guest, by classes, and the exit status.
fn classes_text(
    alloc: Global,
    image: &Image,
    plan: &ExplorePlan<'_>,
    aspects: Aspects<'_>,
    found: &Explored<'_>,
) -> Result<(Vec<u8>, ExitStatus), AllocError>
    requires allowed { IsAllowed plan.now.profile image.now }
    requires known { AreKnown image.now plan.now (known_of found.now) }
    ensures { IfOk result (λ answer. IsClassesText (aspects_of aspects.entry) image.now (known_of found.now) answer.1 answer.0.items) }
{
    let firsts = classes_of(alloc, aspects, found)?;
    let start = Flat::start(alloc, image, 0, plan.profile)?;
    let started = Started {
        words: image.object_words(),
        first: start.objects(),
    };
    let mut text = marked_text(alloc, started, found, firsts.as_slice())?;
    let (ending, answered) = ending_text(alloc, found)?;
    text.extend_from_slice(ending.as_slice())?;
    let last = last_line(alloc, marked_count(firsts.as_slice()))?;
    text.extend_from_slice(last.as_bytes())?;
    Ok((text, answered))
}

// What is written about a guest.
fn answer_about<W: Observer>(
    alloc: Global,
    image: &Image,
    plan: &ClassesPlan<'_, '_, '_, W>,
) -> Result<(Vec<u8>, ExitStatus), AllocError>
    requires allowed { IsAllowed plan.now.explore.profile image.now }
    ensures { IfOk result (λ answer. IsClassesAnswer (aspects_of plan.now.aspects) image.now plan.now.explore answer.1 answer.0.items) }
{
    match explore_by_plan(alloc, image, &plan.explore, plan.observer) {
        Ok(found) => classes_text(alloc, image, &plan.explore, plan.aspects, &found),
        Err(why) => stopped_text(alloc, why),
    }
}

// Writes it; the exit status.
fn tell_classes<W: Observer, O: Sink>(
    alloc: Global,
    plan: &ClassesPlan<'_, '_, '_, W>,
    out: &mut O,
) -> Result<ExitStatus, ExploreFault>
    requires { O.broken out.old ≡ false }
    ensures told { IfOk result
        (λ answered. TellsClasses plan.now.image.now plan.now.explore (aspects_of plan.now.aspects) answered (writer_of (O.written out.old) (O.written out.new) (O.broken out.new))) }
    ensures fails { IfErr result
        (λ e. HasNoClasses e plan.now.image.now plan.now.explore (aspects_of plan.now.aspects) (writer_of (O.written out.old) (O.written out.new) (O.broken out.new))) }
{
    let image = match guest_of(plan.image, &plan.explore) {
        Ok(image) => image,
        Err(why) => return Err(why),
    };
    let (text, answered) = answer_about(alloc, image, plan)?;
    write_all(out, text.as_slice())?;
    Ok(answered)
}

/// Writes the outcomes of a guest by classes: outcomes that are the same in what counts are in one class, and of each class the outcome that is found
/// first is written, as `explore_run` writes it, with its number among all. A hang, if one is known, how the search ended, and how many classes there
/// are follow. The exit status is that of `explore_run`. If memory runs out outside the search, nothing is written. The observer of the plan is told
/// how far the search is.
pub fn classes_run<W: Observer, O: Sink, E: Sink>(
    alloc: Global,
    plan: &ClassesPlan<'_, '_, '_, W>,
    out: &mut O,
    faults: &mut E,
) -> ExitStatus
    requires writes { O.broken out.old ≡ false }
    requires reports { E.broken faults.old ≡ false }
    ensures done { (TellsClasses plan.now.image.now plan.now.explore (aspects_of plan.now.aspects) result (writer_of (O.written out.old) (O.written out.new) (O.broken out.new))
        × (faults.new ≡ faults.old))
        ⊎ ((e : ExploreFault) × (result ≡ explore_fault_status e)
        × HasNoClasses e plan.now.image.now plan.now.explore (aspects_of plan.now.aspects) (writer_of (O.written out.old) (O.written out.new) (O.broken out.new))
        × Reports (writer_of (E.written faults.old) (E.written faults.new) (E.broken faults.new)) (fault_text (explore_fault_words e))) }
{
    match tell_classes(alloc, plan, out) {
        Ok(answered) => answered,
        Err(why) => {
            tell(faults, why.words());
            why.status()
        }
    }
}
