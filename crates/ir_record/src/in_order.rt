//! Recording on one thread, in a given order.

ghost use Rattle.std.specs.Prelude.{◌≡◌, ◌<◌, ◌≤◌, ◌++◌, ℕ, length, map, replicate, vec_len, IfOk, OnOk, IfErr};
ghost use Rattle.ir_thread.specs.State.{IsAllowed, most_budget};
ghost use Rattle.ir_flat.specs.Flat.{tables, machine};
ghost use Rattle.ir_runs.specs.Run.{HasNone, rounds};
ghost use Rattle.ir_record.specs.Progress.{TookTurns, TookSteps};
ghost use Rattle.ir_record.specs.Recorders.{progress_of, CanContinue, StopsInTurns, StaysReady};
ghost use Rattle.ir_record.specs.Recording.{IsRecordedInTurns, AllWork, AreHandedBack, IsFailureInTurns, order_of_turns, turns_of_items};
ghost use Rattle.ir_record.specs.Refusing.{plain_turns};
ghost use Rattle.ir_record.specs.Worlds.{NoneFailed};

use crate::in_order::conversion::{items_of, turns_of};
use crate::in_order::logged_guest::LoggedGuest;
use crate::in_order::recorder::Recorder;
use crate::in_order::results::outputs;
use crate::in_order::turn::Failed;
use crate::item::Item;
use crate::outputs::Outputs;
use crate::record_err::RecordErr;
use crate::turns::Turns;
use crate::world::World;
use ir_image::Image;
use ir_thread::{Ask, Profile};
use ir_trace::Trace;
use std::alloc::Global;

mod conversion;
pub mod logged_guest;
mod order;
pub mod recorder;
mod results;
pub mod round_result;
mod rounds;
mod single_thread;
mod start;
mod step;
pub mod turn;

impl<W: World> Recorder<'_, W> {
    // The turns of the order, and then rounds until no thread has a step.
    // `ahead` has a place for each thread, of which none is ahead, and so has `asks`.
    fn record(
        &mut self,
        order: &[Item],
        ahead: &mut Vec<u64>,
        asks: &mut Vec<Ask>,
    ) -> Result<(), Failed>
        requires ready { CanContinue W.answers W.broken self.old }
        requires level { ahead.old.items ≡ replicate (length self.old.guest.flat.threads) 0 }
        requires asks { length asks.old.items ≡ length self.old.guest.flat.threads }
        ensures took { OnOk result
            ((count : ℕ)
            × TookTurns (turns_of_items order.now ++ plain_turns (rounds (length self.old.guest.flat.threads) count))
            (progress_of W.answers self.old) (progress_of W.answers self.new)) }
        ensures over { OnOk result ((t : ℕ) → t < length self.new.guest.flat.threads → HasNone (machine self.new.guest.flat) (tables self.new.guest.flat) t) }
        ensures stopped { IfErr result
            (λ f. (count : ℕ)
            × StopsInTurns W.answers (turns_of_items order.now ++ plain_turns (rounds (length self.old.guest.flat.threads) count))
            self.old self.new.worlds.items f) }
        ensures stays { StaysReady W.answers W.broken W.origin self.old self.new result }
    {
        self.follow(order)?;
        self.rounds(ahead, asks)?;
        Ok(())
    }
}

/// `record_in_order` by the turns of these items, of which some may refuse tries. It takes time for each step and each item of
/// the order, and none for the turns of a thread that has no step.
///
/// # Errors
/// As `record_in_order`.
pub fn record_with_refusals<W: World + Drop>(
    alloc: Global,
    image: &Image,
    order: &[Item],
    worlds: Vec<W>,
    budget: u64,
    profile: Profile,
) -> Result<(Trace, Outputs<W>), RecordErr<W>>
    requires budget { budget ≤ most_budget }
    requires allowed { IsAllowed profile image.now }
    requires each { vec_len worlds ≡ length image.now.entries }
    requires works { NoneFailed (map W.broken worlds.items) }
    // The run by the turns, which is complete: its trace, what its threads printed, and what their worlds answered.
    ensures recorded { IfOk result (IsRecordedInTurns W.answers image.now budget profile (turns_of_items order.now) worlds.items) }
    ensures works { IfOk result (AllWork W.broken) }
    // The worlds are those that were handed in.
    ensures origins { IfOk result (AreHandedBack W.origin worlds.items) }
    ensures failed { IfErr result (IsFailureInTurns W.answers W.broken W.origin image.now budget profile (turns_of_items order.now) worlds.items) }
{
    let mut recorder = Recorder {
        guest: LoggedGuest::start(alloc, image, budget, profile)?,
        worlds,
    };
    let mut ahead = vec![in alloc; 0; recorder.guest.flat.threads().len()]?;
    let mut asks = vec![in alloc; Ask::Done; recorder.guest.flat.threads().len()]?;
    if let Err(Failed { thread }) = recorder.record(order, &mut ahead, &mut asks) {
        return Err(RecordErr::World {
            thread,
            worlds: recorder.worlds,
        });
    }
    let Recorder { guest, worlds } = recorder;
    let outputs = outputs(alloc, guest.flat.threads(), worlds)?;
    let trace = guest.into_trace(alloc, budget, profile)?;
    Ok((trace, outputs))
}

/// `record_in_order` by the order that these turns write out. It takes time for each step and each item of the order, and
/// none for the turns of a thread that has no step.
///
/// # Errors
/// As `record_in_order`.
pub fn record_in_turns<W: World + Drop>(
    alloc: Global,
    image: &Image,
    order: &[Turns],
    worlds: Vec<W>,
    budget: u64,
    profile: Profile,
) -> Result<(Trace, Outputs<W>), RecordErr<W>>
    requires budget { budget ≤ most_budget }
    requires allowed { IsAllowed profile image.now }
    requires each { vec_len worlds ≡ length image.now.entries }
    requires works { NoneFailed (map W.broken worlds.items) }
    // The run by the order, which is complete: its trace, what its threads printed, and what their worlds answered.
    ensures recorded { IfOk result (IsRecordedInTurns W.answers image.now budget profile (plain_turns (order_of_turns order.now)) worlds.items) }
    ensures works { IfOk result (AllWork W.broken) }
    // The worlds are those that were handed in.
    ensures origins { IfOk result (AreHandedBack W.origin worlds.items) }
    ensures failed { IfErr result (IsFailureInTurns W.answers W.broken W.origin image.now budget profile (plain_turns (order_of_turns order.now)) worlds.items) }
{
    let items = items_of(alloc, order)?;
    record_with_refusals(alloc, image, items.as_slice(), worlds, budget, profile)
}

/// Records the guest on one thread. Each entry of the order takes one step of that thread, or none where it has none;
/// an entry that is no thread has none. After the order, rounds over the threads from 0 upwards take one step of each
/// that has one, until all are done. A try enters if no thread is inside. The budget is in steps, for each thread; the
/// profile says which system calls there are, and has to allow the guest's threads and objects.
///
/// # Errors
/// `RecordErr::NoMem` where memory is wanted, and the worlds are dropped; `RecordErr::World` where a world fails: the
/// recording ends there, and all worlds are handed back.
pub fn record_in_order<W: World + Drop>(
    alloc: Global,
    image: &Image,
    order: &[u8],
    worlds: Vec<W>,
    budget: u64,
    profile: Profile,
) -> Result<(Trace, Outputs<W>), RecordErr<W>>
    requires budget { budget ≤ most_budget }
    requires allowed { IsAllowed profile image.now }
    requires each { vec_len worlds ≡ length image.now.entries }
    requires works { NoneFailed (map W.broken worlds.items) }
    // The run by the order, which is complete: its trace, what its threads printed, and what their worlds answered.
    ensures recorded { IfOk result (IsRecordedInTurns W.answers image.now budget profile (plain_turns order.now) worlds.items) }
    ensures works { IfOk result (AllWork W.broken) }
    // The worlds are those that were handed in.
    ensures origins { IfOk result (AreHandedBack W.origin worlds.items) }
    ensures failed { IfErr result (IsFailureInTurns W.answers W.broken W.origin image.now budget profile (plain_turns order.now) worlds.items) }
{
    let turns = turns_of(alloc, order)?;
    record_in_turns(alloc, image, turns.as_slice(), worlds, budget, profile)
}
