//! Whether each outcome of a guest is one of another guest's.

ghost use Rattle.std.specs.Prelude.{◌≡◌, ◌≢◌, ◌⊎◌, ◌++◌, ℕ, List, [], None, codes, option_map, IfOk, IfErr, false, true};
ghost use Rattle.std.specs.String.{string_bytes};
ghost use Rattle.ir_explore.specs.Texts.{AreKnown, known_of};
ghost use Rattle.ir_files.specs.Writers.{Writer, Took, writer_of, Reports, fault_text};
ghost use Rattle.ir_image.specs.Guest.{Guest};
ghost use Rattle.ir_search.specs.declared.search.Ended.TheVariants.{Finished};
ghost use Rattle.ir_thread.specs.State.{IsAllowed};
ghost use Rattle.ir_within.specs.Faults.{TellsWithin, ToldNone, AreFaultWords, within_fault_status};
ghost use Rattle.ir_within.specs.Plans.{aspects_of, comparison_of};
ghost use Rattle.ir_within.specs.Outside.{IsListedAnswer, IsListedFor};
ghost use Rattle.ir_within.specs.Within.{verdict_line};
ghost use Rattle.ir_within.specs.declared.fault.WithinFault.{WithinFault};
ghost use Rattle.ir_within.specs.declared.verdict.Verdict.TheVariants.{Unknown};

use crate::aspects::Aspects;
use crate::fault::WithinFault;
use crate::first_outside::first_list;
use crate::judging::judged;
use crate::texts::{known_line, marked_count, marked_text, stopped_line};
use crate::verdict::Verdict;
use ir_explore::{ExploreFault, ExplorePlan, Started, explore_by_plan, guest_of};
use ir_files::{ExitStatus, tell};
use ir_flat::Flat;
use ir_image::Image;
use ir_outcomes::Explored;
use ir_record_command::ParsedImage;
use ir_search::{Ended, Observer};
use ir_stream::{Sink, write_all};
use std::alloc::{AllocError, Global};

/// Which guests are compared, in what, and how far they are explored.
#[derive(Drop)]
pub struct WithinPlan<'a, 'i, 'o, W> {
    /// The guest's image.
    pub image: &'a ParsedImage<'i>,
    /// The other guest's.
    pub other: &'a ParsedImage<'i>,
    /// How both are explored.
    pub explore: ExplorePlan<'a>,
    /// What of their outcomes counts.
    pub aspects: Aspects<'a>,
    /// What is told how far the search is.
    pub observer: &'o W,
}

/// What is written, what is known, and the list of the first outcome that is outside, if some is known to be.
#[derive(Drop)]
pub struct Told {
    /// What is written.
    pub text: Vec<u8>,
    /// What is known.
    pub verdict: Verdict,
    /// The list.
    pub list: Option<String>,
}

// What is written where not all outcomes of the other guest are known, by the line of the search for them.
fn other_unknown(alloc: Global, line: &str) -> Result<Told, AllocError>
    ensures { IfOk result
        (λ told. (told.text.items ≡ codes "other " ++ (line.now ++ codes "unknown\n")) × (told.verdict ≡ Unknown) × (option_map string_bytes told.list ≡ None)) }
{
    let text = format!(in alloc; "other {line}unknown\n")?;
    Ok(Told {
        text: Vec::from_slice(alloc, text.as_bytes())?,
        verdict: Verdict::Unknown,
        list: None,
    })
}

// The lines after those of the outcomes, by the lines of both searches.
fn ending(alloc: Global, image: &str, other: &str, verdict: Verdict) -> Result<String, AllocError>
    ensures { IfOk result (λ s. string_bytes s ≡ codes "image " ++ (image.now ++ (codes "other " ++ (other.now ++ verdict_line verdict)))) }
{
    let last = verdict.line(alloc)?;
    let last = last.as_str();
    format!(in alloc; "image {image}other {other}{last}")
}

// What is written where the outcomes of both guests are compared.
fn compared(
    alloc: Global,
    image: &Image,
    plan: &ExplorePlan<'_>,
    aspects: Aspects<'_>,
    found: &Explored<'_>,
    other: &Explored<'_>,
) -> Result<Told, AllocError>
    requires allowed { IsAllowed plan.now.profile image.now }
    requires known { AreKnown image.now plan.now (known_of found.now) }
    requires others { (guest : Guest) × AreKnown guest plan.now (known_of other.now) }
    requires finished { other.now.ended ≡ Finished }
    ensures { IfOk result
        (λ told. (guest : Guest) → AreKnown guest plan.now (known_of other.now)
        → IsListedAnswer (aspects_of aspects.entry) image.now guest plan.now (option_map string_bytes told.list) told.verdict told.text.items) }
{
    let outside = judged(alloc, aspects, found, other)?;
    let list = first_list(alloc, found, outside.as_slice())?;
    // The guest has some thread, so the list isn't empty.
    let _ = image.entries();
    let start = Flat::start(alloc, image, 0, plan.profile)?;
    let started = Started {
        words: image.object_words(),
        first: start.objects(),
    };
    let mut text = marked_text(alloc, started, found, outside.as_slice())?;
    let verdict = Verdict::of(found.ended, marked_count(outside.as_slice()));
    let image_line = known_line(alloc, found)?;
    let other_line = known_line(alloc, other)?;
    let last = ending(alloc, image_line.as_str(), other_line.as_str(), verdict)?;
    text.extend_from_slice(last.as_bytes())?;
    Ok(Told {
        text,
        verdict,
        list,
    })
}

// What is written about a guest, where all outcomes of the other are known.
fn told_beside<W: Observer>(
    alloc: Global,
    image: &Image,
    plan: &WithinPlan<'_, '_, '_, W>,
    other: &Explored<'_>,
) -> Result<Told, AllocError>
    requires allowed { IsAllowed plan.now.explore.profile image.now }
    requires others { (guest : Guest) × AreKnown guest plan.now.explore (known_of other.now) }
    requires finished { other.now.ended ≡ Finished }
    ensures { IfOk result
        (λ told. (guest : Guest) → AreKnown guest plan.now.explore (known_of other.now)
        → IsListedAnswer (aspects_of plan.now.aspects) image.now guest plan.now.explore (option_map string_bytes told.list) told.verdict told.text.items) }
{
    match explore_by_plan(alloc, image, &plan.explore, plan.observer) {
        Ok(found) => compared(alloc, image, &plan.explore, plan.aspects, &found, other),
        Err(why) => {
            let line = stopped_line(alloc, why)?;
            let other_line = known_line(alloc, other)?;
            let last = ending(alloc, line.as_str(), other_line.as_str(), Verdict::Unknown)?;
            Ok(Told {
                text: Vec::from_slice(alloc, last.as_bytes())?,
                verdict: Verdict::Unknown,
                list: None,
            })
        }
    }
}

// Whether a search found all outcomes.
fn is_finished(ended: Ended) -> bool
    ensures finished { result ≡ true → ended ≡ Finished }
    ensures unfinished { result ≡ false → ended ≢ Finished }
{
    matches!(ended, Ended::Finished)
}

// What is written about two guests.
fn told_of<W: Observer>(
    alloc: Global,
    image: &Image,
    other: &Image,
    plan: &WithinPlan<'_, '_, '_, W>,
) -> Result<Told, AllocError>
    requires allowed { IsAllowed plan.now.explore.profile image.now }
    requires other { IsAllowed plan.now.explore.profile other.now }
    ensures { IfOk result (λ told. IsListedAnswer (aspects_of plan.now.aspects) image.now other.now plan.now.explore (option_map string_bytes told.list) told.verdict told.text.items) }
{
    match explore_by_plan(alloc, other, &plan.explore, plan.observer) {
        Ok(others) => {
            if is_finished(others.ended) {
                return told_beside(alloc, image, plan, &others);
            }
            let line = known_line(alloc, &others)?;
            other_unknown(alloc, line.as_str())
        }
        Err(why) => {
            let line = stopped_line(alloc, why)?;
            other_unknown(alloc, line.as_str())
        }
    }
}

/// What is written about the guests of both images.
///
/// # Errors
/// An image is refused, or its guest is too large; or memory ran out.
pub fn told_about<W: Observer>(
    alloc: Global,
    plan: &WithinPlan<'_, '_, '_, W>,
) -> Result<Told, WithinFault>
    ensures told { IfOk result (λ told. IsListedFor (comparison_of plan.now) (option_map string_bytes told.list) told.verdict told.text.items) }
    ensures none { IfErr result (λ e. (w : Writer) → Took w [] → ToldNone e (comparison_of plan.now) w) }
{
    let image = match guest_of(plan.image, &plan.explore) {
        Ok(image) => image,
        Err(why) => return Err(WithinFault::Image(why)),
    };
    let other = match guest_of(plan.other, &plan.explore) {
        Ok(other) => other,
        Err(why) => return Err(WithinFault::Other(why)),
    };
    Ok(told_of(alloc, image, other, plan)?)
}

// Writes it; the exit status.
#[tactic(auto, using(crate::proofs::First::answer_for_listed))]
fn tell_within<W: Observer, O: Sink>(
    alloc: Global,
    plan: &WithinPlan<'_, '_, '_, W>,
    out: &mut O,
) -> Result<ExitStatus, WithinFault>
    requires { O.broken out.old ≡ false }
    ensures told { IfOk result (λ answered. TellsWithin (comparison_of plan.now) answered (writer_of (O.written out.old) (O.written out.new) (O.broken out.new))) }
    ensures none { IfErr result (λ e. ToldNone e (comparison_of plan.now) (writer_of (O.written out.old) (O.written out.new) (O.broken out.new))) }
{
    let told = match told_about(alloc, plan) {
        Ok(told) => told,
        Err(why) => return Err(why),
    };
    let Told { text, verdict, .. } = told;
    write_all(out, text.as_slice())?;
    Ok(verdict.status())
}

/// Reports a fault.
pub fn report<E: Sink>(alloc: Global, why: &WithinFault, faults: &mut E)
    requires { E.broken faults.old ≡ false }
    ensures { (words : List ℕ) × AreFaultWords why.now words × Reports (writer_of (E.written faults.old) (E.written faults.new) (E.broken faults.new)) (fault_text words) }
{
    match why {
        WithinFault::Image(why) | WithinFault::Unwritten(why) => tell(faults, why.words()),
        WithinFault::Other(why) => {
            let words = why.words();
            match format!(in alloc; "OTHER: {words}") {
                Ok(words) => tell(faults, words.as_str()),
                Err(_) => tell(faults, words),
            }
        }
    }
}

/// Says whether each outcome of a guest is one of another guest's, in what counts of them: writes each that isn't, as `explore_run` writes outcomes,
/// then how both searches ended, and what is known. The exit status is `Done` if each outcome is one of the other's, `NotSo` if some isn't, and
/// `GaveUp` if neither is known, because a search ended before. If the other guest's outcomes aren't all known, those of the guest aren't looked for.
/// It is `Refused` if an image is none or its guest is too large, and `Failed` if memory ran out outside the searches or the writer failed: then the
/// fault is reported in one line. The observer of the plan is told how far the search is.
pub fn within_run<W: Observer, O: Sink, E: Sink>(
    alloc: Global,
    plan: &WithinPlan<'_, '_, '_, W>,
    out: &mut O,
    faults: &mut E,
) -> ExitStatus
    requires writes { O.broken out.old ≡ false }
    requires reports { E.broken faults.old ≡ false }
    ensures done { (TellsWithin (comparison_of plan.now) result (writer_of (O.written out.old) (O.written out.new) (O.broken out.new)) × (faults.new ≡ faults.old))
        ⊎ ((e : WithinFault) × (result ≡ within_fault_status e)
        × ToldNone e (comparison_of plan.now) (writer_of (O.written out.old) (O.written out.new) (O.broken out.new))
        × ((words : List ℕ) × AreFaultWords e words × Reports (writer_of (E.written faults.old) (E.written faults.new) (E.broken faults.new)) (fault_text words))) }
{
    match tell_within(alloc, plan, out) {
        Ok(answered) => answered,
        Err(why) => {
            report(alloc, &why, faults);
            why.status()
        }
    }
}
