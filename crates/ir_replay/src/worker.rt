//! What one thread does in a round.

ghost use Rattle.std.specs.Prelude.{◌≡◌, ℕ, ◌<◌, length, All, slice_index_or};
ghost use Rattle.ir_thread.specs.State.{ask_of};
ghost use Rattle.ir_cut.specs.Positions.{IsConsistentCut, cut_of};
ghost use Rattle.ir_weave.specs.Woven.{IsFor, WasStopped};
ghost use Rattle.ir_weave.specs.declared.stepping.Tried.TheVariants.{Stepped, NotNow, AtTarget};
ghost use Rattle.ir_replay.specs.Workers.{IsWorkerReady, IsWorkerOnWay, HasWorked};

use crate::limit::Limit;
use crate::patience::Patience;
use crate::telling::{tell_entry, tell_leave};
use crossbeam_utils::{Backoff, CachePadded};
use ir_cut::Cut;
use ir_fit::Fitted;
use ir_object::{Hands, MOST_UNTOLD, Untold};
use ir_thread::{Ask, Thread};
use ir_weave::{Tried, Weave, WeaveSeat};
use std::thread;
use std::time::Clock;

// A thread with its seat.
#[derive(Drop)]
pub struct Worker {
    pub seat: WeaveSeat,
    pub thread: Thread,
    // Keeps workers of a list on cache lines of their own.
    pub apart: CachePadded<()>,
}

// The thread takes its next step, for which it asks so, if it is admitted now or while the worker waits.
fn try_again<C: Clock>(
    weave: &Weave,
    worker: &mut Worker,
    fitted: &Fitted,
    target: &Cut,
    asked: Ask,
    patience: &mut Patience<'_, C>,
) -> Tried
    requires table { IsFor weave.now.table.shared.key fitted.now }
    requires target { (length target.now ≡ length fitted.now.guest.entries) × IsConsistentCut fitted.now target.now }
    requires ready { IsWorkerReady weave.now.table.shared.table_id weave.now.table.shared.key target.now worker.old }
    requires asked { asked ≡ ask_of fitted.now.guest.code worker.old.thread }
    ensures on_way { IsWorkerOnWay weave.now.table.shared.table_id weave.now.table.shared.key target.now worker.old worker.new }
    ensures stepped { result ≡ Stepped → worker.old.thread.steps < worker.new.thread.steps }
    ensures stopped { result ≡ NotNow → WasStopped weave.now.table.shared.key worker.new.thread.number worker.new.thread.steps }
    ensures reached { result ≡ AtTarget → worker.new.thread.steps ≡ cut_of target.now worker.new.thread.number }
{
    let backoff = Backoff::new();
    let mut looked = 0u64;
    'looks: loop {
        let tried = weave.try_asked(&mut worker.seat, &mut worker.thread, fitted, target, asked);
        if tried != Tried::NotNow || !patience.wait(&backoff, looked) {
            return tried;
        }
        looked = looked.saturating_add(1);
    }
}

// The thread advances until it is at its target or its next step isn't admitted for long.
fn work<H: Hands>(
    hands: &H,
    weave: &Weave,
    worker: &mut Worker,
    fitted: &Fitted,
    target: &Cut,
    limit: &Limit,
)
    requires table { IsFor weave.now.table.shared.key fitted.now }
    requires target { (length target.now ≡ length fitted.now.guest.entries) × IsConsistentCut fitted.now target.now }
    requires ready { IsWorkerReady weave.now.table.shared.table_id weave.now.table.shared.key target.now worker.old }
    ensures { HasWorked weave.now.table.shared.table_id weave.now.table.shared.key target.now worker.old worker.new }
{
    let number = worker.thread.number();
    let mut patience = Patience::new(hands, limit);
    let mut untold = Untold::new();
    'steps: loop {
        let (seat, thread) = (&worker.seat, &mut worker.thread);
        let (taken, asked) = weave.run(seat, thread, fitted, target, MOST_UNTOLD);
        untold.add(hands, number, taken);
        if worker.thread.steps() >= target.position(number as usize) {
            break;
        }
        tell_leave(hands, number, asked);
        match try_again(weave, worker, fitted, target, asked, &mut patience) {
            Tried::Stepped => tell_entry(hands, &worker.thread, asked),
            Tried::NotNow | Tried::AtTarget => break,
        }
        untold.add(hands, number, 1);
    }
    untold.tell(hands, number);
}

// Each worker runs in a thread of its own, if one can be made, and otherwise on the caller's. Once so many milliseconds have passed, a worker
// whose next step isn't admitted ends its round.
pub fn work_all<H: Hands>(
    hands: &H,
    weave: &Weave,
    workers: &mut [Worker],
    fitted: &Fitted,
    target: &Cut,
    millis: u32,
)
    requires table { IsFor weave.now.table.shared.key fitted.now }
    requires target { (length target.now ≡ length fitted.now.guest.entries) × IsConsistentCut fitted.now target.now }
    requires ready { All (IsWorkerReady weave.now.table.shared.table_id weave.now.table.shared.key target.now) workers.old }
    ensures { (i : ℕ) (d : _) → i < length workers.old
        → HasWorked weave.now.table.shared.table_id weave.now.table.shared.key target.now (slice_index_or workers.old i d)
        (slice_index_or workers.new i d) }
{
    if workers.is_empty() {
        return;
    }
    let count = workers.len();
    let limit = Limit::new(hands, millis);
    thread::for_each_mut(
        hands,
        workers,
        count,
        &|_, worker: &mut Worker|
            requires table { IsFor weave.now.table.shared.key fitted.now }
            requires target { (length target.now ≡ length fitted.now.guest.entries) × IsConsistentCut fitted.now target.now }
            requires ready { IsWorkerReady weave.now.table.shared.table_id weave.now.table.shared.key target.now worker.now }
            ensures { HasWorked weave.entry.now.table.shared.table_id weave.entry.now.table.shared.key target.entry.now worker.entry.now worker.exit.now }
        { work(hands, weave, worker, fitted, target, &limit) },
    );
}
