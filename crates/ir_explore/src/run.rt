//! `ir explore`: the bytes of an image in, the outcomes of its guest out.

ghost use Rattle.std.specs.Prelude.{◌≡◌, ◌⊎◌, ℕ, List, IfOk, IfErr, false, true};
ghost use Rattle.std.specs.Io.KnownBytes.{Appends};
ghost use Rattle.ir_files.specs.Writers.{writer_of, Reports, fault_text};
ghost use Rattle.ir_thread.specs.State.{IsAllowed};
ghost use Rattle.ir_image.specs.Guest.{Guest};
ghost use Rattle.ir_explore.specs.Faults.{TellsSearch, ToldNothing, StopsPrinting, explore_fault_status, explore_fault_words};
ghost use Rattle.ir_explore.specs.Texts.{IsAnswerAbout, IsEnding, IsStopReason, IsStopped, known_of};
ghost use Rattle.ir_explore.specs.declared.fault.ExploreFault.TheVariants.{NoMem, Write};
ghost use Rattle.ir_files.specs.declared.exit_status.ExitStatus.{ExitStatus};
ghost use Rattle.ir_stream.specs.Answers.{AppendsPrefix};
ghost use Rattle.ir_explore.specs.declared.fault.ExploreFault.{ExploreFault};
ghost use Rattle.ir_explore.specs.Plan.{ExplorePlan};

use crate::answer::{ending_text, stopped_text};
use crate::fault::ExploreFault;
use crate::levels::print_levels;
use crate::plan::ExplorePlan;
use crate::started::Started;
use ir_files::{ExitStatus, tell};
use ir_flat::Flat;
use ir_image::{Image, read_image};
use ir_outcomes::{Explored, Exploring};
use ir_search::{Observer, Stop};
use ir_stream::{Sink, write_all};
use std::alloc::Global;

// Prints that a search didn't begin, and why.
fn show_stop<O: Sink>(alloc: Global, why: Stop, out: &mut O) -> Result<ExitStatus, ExploreFault>
    requires { O.broken out.old ≡ false }
    ensures ok { IfOk result
        (λ answered. (guest : Guest) (plan : ExplorePlan) → IsStopReason guest plan why
        → (text : List ℕ) × IsStopped guest plan answered text × Appends (O.written out.old) (O.written out.new) text) }
    ensures fails { IfErr result
        (λ e. (guest : Guest) (plan : ExplorePlan) → IsStopReason guest plan why
        → StopsPrinting e guest plan (writer_of (O.written out.old) (O.written out.new) (O.broken out.new))) }
{
    let (text, answered) = stopped_text(alloc, why)?;
    write_all(out, text.as_slice())?;
    Ok(answered)
}

// Prints what comes after the outcomes.
fn print_ending<O: Sink>(
    alloc: Global,
    explored: &Explored<'_>,
    out: &mut O,
) -> Result<ExitStatus, ExploreFault>
    requires { O.broken out.old ≡ false }
    ensures ok { IfOk result (λ answered. (text : List ℕ) × IsEnding (known_of explored.now) answered text × Appends (O.written out.old) (O.written out.new) text) }
    ensures fails { IfErr result (λ e. ((e ≡ NoMem) × (out.new ≡ out.old))
        ⊎ ((e ≡ Write) × (O.broken out.new ≡ true) × (answered : ExitStatus) × (text : List ℕ)
        × IsEnding (known_of explored.now) answered text × AppendsPrefix (O.written out.old) (O.written out.new) text)) }
{
    let (text, answered) = ending_text(alloc, explored)?;
    write_all(out, text.as_slice())?;
    Ok(answered)
}

// Prints the answer about a guest, as it is found.
fn show<W: Observer, O: Sink>(
    alloc: Global,
    image: &Image,
    plan: &ExplorePlan<'_>,
    observer: &W,
    out: &mut O,
) -> Result<ExitStatus, ExploreFault>
    requires allowed { IsAllowed plan.now.profile image.now }
    requires works { O.broken out.old ≡ false }
    ensures ok { IfOk result (λ answered. (text : List ℕ) × IsAnswerAbout image.now plan.now answered text × Appends (O.written out.old) (O.written out.new) text) }
    ensures fails { IfErr result (λ e. StopsPrinting e image.now plan.now (writer_of (O.written out.old) (O.written out.new) (O.broken out.new))) }
{
    let start = Flat::start(alloc, image, 0, plan.profile)?;
    let started = Started {
        words: image.object_words(),
        first: start.objects(),
    };
    let setup = plan.setup(image);
    let mut exploring = match Exploring::start(alloc, &setup, plan.bounds, plan.switches) {
        Ok(exploring) => exploring,
        Err(why) => return show_stop(alloc, why, out),
    };
    print_levels(alloc, started, &mut exploring, observer, out)?;
    let explored = exploring.end();
    print_ending(alloc, &explored, out)
}

// Prints the answer about the bytes of an image.
fn show_image<W: Observer, O: Sink>(
    alloc: Global,
    bytes: &[u8],
    plan: &ExplorePlan<'_>,
    observer: &W,
    out: &mut O,
) -> Result<ExitStatus, ExploreFault>
    requires { O.broken out.old ≡ false }
    ensures ok { IfOk result (λ answered. TellsSearch bytes.now plan.now answered (writer_of (O.written out.old) (O.written out.new) (O.broken out.new))) }
    ensures fails { IfErr result (λ e. ToldNothing e bytes.now plan.now (writer_of (O.written out.old) (O.written out.new) (O.broken out.new))) }
{
    let image = match read_image(alloc, bytes) {
        Ok(image) => image,
        Err(why) => return Err(ExploreFault::of_image(why)),
    };
    if !plan.profile.allows(&image) {
        return Err(ExploreFault::TooLarge);
    }
    show(alloc, &image, plan, observer, out)
}

/// Writes the different outcomes of the guest that these bytes encode, level by level as they are found, each with a list that spells an order
/// that leads to it, and then how the search for them ended. The exit status is `Done` if all were found that were asked for and no hang is known,
/// `Hangs` if all were found and some run hangs, and `GaveUp` if the search stopped before. It is `Refused` if the bytes are no image or the guest is
/// too large, and `Failed` if memory ran out outside the
/// search or the writer failed: then the fault is reported in one line. The observer is told how far the search is.
pub fn explore_run<W: Observer, O: Sink, E: Sink>(
    alloc: Global,
    bytes: &[u8],
    plan: &ExplorePlan<'_>,
    observer: &W,
    out: &mut O,
    faults: &mut E,
) -> ExitStatus
    requires writes { O.broken out.old ≡ false }
    requires reports { E.broken faults.old ≡ false }
    ensures done { (TellsSearch bytes.now plan.now result (writer_of (O.written out.old) (O.written out.new) (O.broken out.new)) × (faults.new ≡ faults.old))
        ⊎ ((e : ExploreFault) × (result ≡ explore_fault_status e) × ToldNothing e bytes.now plan.now (writer_of (O.written out.old) (O.written out.new) (O.broken out.new))
        × Reports (writer_of (E.written faults.old) (E.written faults.new) (E.broken faults.new)) (fault_text (explore_fault_words e))) }
{
    match show_image(alloc, bytes, plan, observer, out) {
        Ok(answered) => answered,
        Err(why) => {
            tell(faults, why.words());
            why.status()
        }
    }
}
