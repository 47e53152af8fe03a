//! Guests recorded in an order or on real threads, and their traces fitted.

ghost use Rattle.std.specs.Prelude.{◌≤◌};
ghost use Rattle.ir_thread.specs.State.{IsAllowed, most_budget};
ghost use Rattle.ir_thread.specs.declared.profile.Profile.TheVariants.{One};

use crate::sources::{image_for, image_of};
use crate::worlds::{COUNTS, FAILS, Script, worlds};
use ir_fit::{Fitted, fit};
use ir_image::Image;
use ir_object::{Gate, OpenGate};
use ir_record::{Item, Limits, Outputs, RecordErr, record, record_in_order, record_with_refusals};
use ir_thread::Profile;
use ir_trace::Trace;
use std::alloc::Global;
use std::sync::Wait;
use std::test::Fail;
use std::thread::Threads;

/// Of steps, for each thread.
pub const BUDGET: u64 = 1_000_000;

// The same where threads try again and again until they are inside.
const TRYING_BUDGET: u64 = 1_000_000_000;

/// What a recorded run of such a test may take.
pub const LIMITS: Limits = Limits {
    budget: BUDGET,
    profile: Profile::One,
};

/// What is recorded, or why nothing is.
pub type Recorded = Result<(Trace, Outputs<Script>), RecordErr<Script>>;

/// Records the guest in an order, where each thread's world has these answers, the last one first.
pub fn in_order(
    alloc: Global,
    image: &Image,
    order: &[u8],
    answers: &[u32],
    budget: u64,
) -> Recorded
    requires budget { budget ≤ most_budget }
    requires allowed { IsAllowed One image.now }
{
    let worlds = worlds(alloc, image.entries().len(), answers, FAILS)?;
    record_in_order(alloc, image, order, worlds, budget, Profile::One)
}

/// The same of the source's guest.
pub fn source_in_order(
    alloc: Global,
    source: &[&str],
    order: &[u8],
    answers: &[u32],
    budget: u64,
) -> Result<(Trace, Outputs<Script>), Fail>
    requires { budget ≤ most_budget }
{
    let image = image_of(alloc, source)?;
    Ok(in_order(alloc, &image, order, answers, budget)?)
}

/// The same on real threads.
pub fn by_threads<R: Threads + Wait + Sync, G: Gate + Sync>(
    rt: &R,
    alloc: Global,
    image: &Image,
    gate: &G,
    answers: &[u32],
) -> Recorded
    requires { IsAllowed One image.now }
{
    let worlds = worlds(alloc, image.entries().len(), answers, FAILS)?;
    record(rt, alloc, image, worlds, gate, LIMITS)
}

// The guest recorded on real threads, whose worlds count.
fn counting_by_threads<R: Threads + Wait + Sync, G: Gate + Sync>(
    rt: &R,
    alloc: Global,
    image: &Image,
    gate: &G,
    budget: u64,
    profile: Profile,
) -> Recorded
    requires budget { budget ≤ most_budget }
    requires allowed { IsAllowed profile image.now }
{
    let worlds = worlds(alloc, image.entries().len(), &[], COUNTS)?;
    record(rt, alloc, image, worlds, gate, Limits { budget, profile })
}

// The same in an order.
fn counting_in_order(
    alloc: Global,
    image: &Image,
    order: &[u8],
    budget: u64,
    profile: Profile,
) -> Recorded
    requires budget { budget ≤ most_budget }
    requires allowed { IsAllowed profile image.now }
{
    let worlds = worlds(alloc, image.entries().len(), &[], COUNTS)?;
    record_in_order(alloc, image, order, worlds, budget, profile)
}

/// The source's guest recorded on real threads, whose trace fits, and what its threads printed.
pub fn fitted_by_threads<R: Threads + Wait + Sync>(
    rt: &R,
    alloc: Global,
    source: &[&str],
) -> Result<(Fitted, Outputs<Script>), Fail> {
    let image = image_of(alloc, source)?;
    let recorded = counting_by_threads(rt, alloc, &image, &OpenGate, BUDGET, Profile::One);
    let (trace, outputs) = recorded?;
    Ok((fit(alloc, image, trace, &OpenGate)?, outputs))
}

/// The same in the second profile, with a gate.
pub fn tried_by_threads<R: Threads + Wait + Sync, G: Gate + Sync>(
    rt: &R,
    alloc: Global,
    source: &[&str],
    gate: &G,
) -> Result<(Fitted, Outputs<Script>), Fail> {
    let image = image_for(alloc, Profile::Two, source)?;
    let recorded = counting_by_threads(rt, alloc, &image, gate, TRYING_BUDGET, Profile::Two);
    let (trace, outputs) = recorded?;
    Ok((fit(alloc, image, trace, &OpenGate)?, outputs))
}

/// The source's guest recorded in an order, whose trace fits.
pub fn fitted_in_order(
    alloc: Global,
    source: &[&str],
    order: &[u8],
    budget: u64,
) -> Result<Fitted, Fail>
    requires { budget ≤ most_budget }
{
    let image = image_of(alloc, source)?;
    let (trace, _outputs) = counting_in_order(alloc, &image, order, budget, Profile::One)?;
    Ok(fit(alloc, image, trace, &OpenGate)?)
}

/// The same in the second profile.
pub fn tried_in_order(
    alloc: Global,
    source: &[&str],
    order: &[u8],
    budget: u64,
) -> Result<Fitted, Fail>
    requires { budget ≤ most_budget }
{
    let image = image_for(alloc, Profile::Two, source)?;
    let (trace, _outputs) = counting_in_order(alloc, &image, order, budget, Profile::Two)?;
    Ok(fit(alloc, image, trace, &OpenGate)?)
}

/// The same by items, of which some refuse tries.
pub fn tried_with_refusals(
    alloc: Global,
    source: &[&str],
    items: &[Item],
    budget: u64,
) -> Result<Fitted, Fail>
    requires { budget ≤ most_budget }
{
    let image = image_for(alloc, Profile::Two, source)?;
    let worlds = worlds(alloc, image.entries().len(), &[], COUNTS)?;
    let recorded: Recorded = record_with_refusals(
        alloc,
        &image,
        items,
        worlds,
        budget,
        Profile::Two,
    );
    let (trace, _outputs) = recorded?;
    Ok(fit(alloc, image, trace, &OpenGate)?)
}
