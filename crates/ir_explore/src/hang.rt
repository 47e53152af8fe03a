//! `ir explore --until hang`: a run that hangs is recorded.

ghost use Rattle.std.specs.Prelude.{◌≡◌, ◌≤◌, ◌++◌, ℕ, List, false, true, Ok, Err, IfOk, IfErr, OnOk};
ghost use Rattle.std.specs.Io.KnownBytes.{Appends};
ghost use Rattle.ir_files.specs.Outputs.{output_writer_of, TookEach};
ghost use Rattle.ir_files.specs.Writers.{writer_of};
ghost use Rattle.ir_record_command.specs.Recording.{recording_lines};
ghost use Rattle.ir_record_command.specs.Stopping.{telling, tellings, devices};
ghost use Rattle.ir_thread.specs.State.{IsAllowed, most_budget};
ghost use Rattle.ir_trace.specs.Encoding.{encoding};
ghost use Rattle.ir_explore.specs.Hang.{with_steps, budget_from, hang_plan, unhung_status_of, FindsHang, LeadsToHang, IsHangTold, IsHangAnswer, IsHangRecorded, HasNoHangAnswer, StopsHang};
ghost use Rattle.ir_explore.specs.Texts.{AreKnown, known_of};
ghost use Rattle.ir_explore.specs.declared.fault.ExploreFault.{ExploreFault};
ghost use Rattle.ir_explore.specs.declared.hang_order.HangOrder.{HangOrder};
ghost use Rattle.ir_explore.specs.Plan.{ExplorePlan};

use crate::answer::{known_text, stopped_text};
use crate::fault::ExploreFault;
use crate::hang_order::HangOrder;
use crate::known::explore_by_plan;
use crate::plan::{ExplorePlan, HangPlan};
use crate::until::guest_of;
use ir_files::{ExitStatus, OutputSink, WholeSink, tell};
use ir_image::Image;
use ir_order::list_of_items;
use ir_outcomes::{Explored, Shown};
use ir_record::Item;
use ir_record_command::{RecordFiles, RecordPlan, Recording, record_by_list};
use ir_search::{Ended, Observer};
use ir_stream::{Sink, write_all};
use ir_thread::MOST_BUDGET;
use ir_trace::Trace;
use std::alloc::{AllocError, Global};
use std::time::Clock;

// A budget and so many steps more.
fn with_steps(budget: u64, count: u64) -> u64
    requires { budget ≤ most_budget }
    ensures value { result ≡ with_steps budget count }
    ensures within { result ≤ most_budget }
{
    if count <= MOST_BUDGET - budget {
        budget + count
    } else {
        MOST_BUDGET
    }
}

// The budget for these turns.
fn budget_of(items: &[Item]) -> u64
    ensures value { result ≡ budget_from 1 items.now }
    ensures within { result ≤ most_budget }
{
    let mut budget = 1;
    'items: for item in items {
        budget = with_steps(budget, item.count);
    }
    budget
}

// The order of a hang.
fn order_of(alloc: Global, hang: &Shown) -> Result<HangOrder, AllocError>
    ensures { IfOk result (λ order. LeadsToHang hang.now order) }
{
    let turns = hang.turns.as_slice();
    let list = list_of_items(alloc, turns)?;
    let budget = budget_of(turns);
    if list.is_empty() {
        let list = String::from_str(alloc, "0")?;
        return Ok(HangOrder { list, budget });
    }
    Ok(HangOrder { list, budget })
}

// The exit status of a search that knows of no hang.
fn unhung_status_of(ended: Ended) -> ExitStatus
    ensures { result ≡ unhung_status_of ended }
{
    if ended == Ended::Finished {
        ExitStatus::NotSo
    } else {
        ExitStatus::GaveUp
    }
}

// The order of the hang of a search, or the exit status if it knows of none.
fn found_by(
    alloc: Global,
    explored: &Explored<'_>,
) -> Result<Result<HangOrder, ExitStatus>, AllocError>
    ensures { IfOk result (λ found. FindsHang (known_of explored.now) found) }
{
    match &explored.hang {
        Some(hang) => {
            let order = order_of(alloc, hang)?;
            Ok(Ok(order))
        }
        None => Ok(Err(unhung_status_of(explored.ended))),
    }
}

// What is written about a guest, and the order of a hang, or the exit status if none is known.
#[derive(Drop)]
struct Told {
    text: Vec<u8>,
    found: Result<HangOrder, ExitStatus>,
}

// What is written of what was found out.
fn known_about(
    alloc: Global,
    image: &Image,
    plan: &ExplorePlan<'_>,
    explored: &Explored<'_>,
) -> Result<Told, AllocError>
    requires allowed { IsAllowed plan.now.profile image.now }
    requires known { AreKnown image.now plan.now (known_of explored.now) }
    ensures { IfOk result (λ told. IsHangTold image.now plan.now told.found told.text.items) }
{
    let (text, _) = known_text(alloc, image, plan, explored)?;
    let found = found_by(alloc, explored)?;
    Ok(Told { text, found })
}

// What is written about a guest.
fn text_about<W: Observer>(
    alloc: Global,
    image: &Image,
    plan: &HangPlan<'_, '_, '_, W>,
) -> Result<Told, AllocError>
    requires { IsAllowed plan.now.explore.profile image.now }
    ensures { IfOk result (λ told. IsHangTold image.now plan.now.explore told.found told.text.items) }
{
    match explore_by_plan(alloc, image, &plan.explore, plan.observer) {
        Ok(explored) => known_about(alloc, image, &plan.explore, &explored),
        Err(why) => {
            let (text, answered) = stopped_text(alloc, why)?;
            Ok(Told {
                text,
                found: Err(answered),
            })
        }
    }
}

// Writes it: the order of a hang, or the exit status if none is known.
fn tell_hang<W: Observer, O: Sink>(
    alloc: Global,
    plan: &HangPlan<'_, '_, '_, W>,
    out: &mut O,
) -> Result<Result<HangOrder, ExitStatus>, ExploreFault>
    requires { O.broken out.old ≡ false }
    ensures told { IfOk result (λ found. (text : List ℕ) × IsHangAnswer plan.now.image.now plan.now.explore found text × Appends (O.written out.old) (O.written out.new) text) }
    ensures works { OnOk result (O.broken out.new ≡ false) }
    ensures fails { IfErr result (λ e. HasNoHangAnswer e plan.now.image.now plan.now.explore (writer_of (O.written out.old) (O.written out.new) (O.broken out.new))) }
{
    let guest = match guest_of(plan.image, &plan.explore) {
        Ok(guest) => guest,
        Err(why) => return Err(why),
    };
    let Told { text, found } = text_about(alloc, guest, plan)?;
    write_all(out, text.as_slice())?;
    Ok(found)
}

// How a hang is recorded.
fn recording<'a>(plan: &ExplorePlan<'a>, order: &'a HangOrder) -> RecordPlan<'a>
    ensures { result ≡ hang_plan plan.now order.now }
{
    RecordPlan {
        order: Some(order.list.as_str()),
        budget: order.budget,
        random: plan.random,
        input: plan.input,
        profile: plan.profile,
    }
}

/// Explores a guest, and writes what `explore_run` writes. If some run of the guest hangs, one is recorded by the list of the line of the hang, and
/// all is written that `record_by_list` writes of it. What was recorded is handed back. The run goes on behind the hang until its budget
/// ends it. The observer of the plan is told how far the search is.
///
/// # Errors
/// The exit status, and nothing is recorded. It is `NotSo` if no run of the guest hangs, and `GaveUp` if that isn't known, because the search stopped
/// or went over some switches only. Else it is the status of a fault, which is reported in one line.
pub fn explore_hang<R, V, W, P, O, E>(
    rt: &R,
    plan: &HangPlan<'_, '_, '_, V>,
    files: &mut RecordFiles<W, P>,
    out: &mut O,
    faults: &mut E,
) -> Result<Trace, ExitStatus>
where
    R: Clock + AllocGlobal,
    V: Observer,
    W: WholeSink,
    P: OutputSink,
    O: Sink,
    E: Sink,
    requires writes { W.broken files.old.trace ≡ false }
    requires puts { P.broken files.old.outputs ≡ false }
    requires prints { O.broken out.old ≡ false }
    requires reports { E.broken faults.old ≡ false }
    // All that was found out was written, and of the run by the order of the hang its trace, what its threads printed, and their lines. No fault
    // is reported.
    ensures found { IfOk result (λ recorded. (order : HangOrder) × (text : List ℕ) × (printed : List (List ℕ)) × IsHangRecorded plan.now.image.now plan.now.explore order text recorded printed
        × Appends (W.written files.old.trace) (W.written files.new.trace) (encoding recorded)
        × TookEach (output_writer_of (P.taken files.old.outputs) (P.taken files.new.outputs) (P.broken files.new.outputs)) printed
        × Appends (O.written out.old) (O.written out.new) (text ++ recording_lines recorded)) }
    ensures whole { OnOk result (W.whole files.new.trace ≡ true) }
    ensures quiet { OnOk result (faults.new ≡ faults.old) }
    // Else no hang is known, and all that was found out was written and nothing else; or nothing is, or that failed; or the recording stopped.
    ensures stopped { IfErr result (λ status. StopsHang (tellings (telling W.written W.broken W.called W.cause) (telling P.taken P.broken P.called P.cause) O.written O.broken)
        status plan.now.image.now plan.now.explore (devices files.old.trace files.old.outputs out.old) (devices files.new.trace files.new.outputs out.new)
        (writer_of (E.written faults.old) (E.written faults.new) (E.broken faults.new)) (faults.new ≡ faults.old)) }
    // The files are those of the same places.
    ensures homes { (W.home files.new.trace ≡ W.home files.old.trace) × (P.home files.new.outputs ≡ P.home files.old.outputs) }
{
    let order = match tell_hang(rt.alloc(), plan, out) {
        Ok(Ok(order)) => order,
        Ok(Err(answered)) => return Err(answered),
        Err(why) => {
            tell(faults, why.words());
            return Err(why.status());
        }
    };
    let how = recording(&plan.explore, &order);
    let recording = Recording {
        image: plan.image,
        plan: &how,
    };
    let list = order.list.as_str();
    let recorded = record_by_list(rt, &recording, list, files, out, faults)?;
    Ok(recorded)
}
