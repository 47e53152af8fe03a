//! A round: each thread advances by a worker of its own, over one table.

ghost use Rattle.std.specs.Prelude.{◌≡◌, ◌<◌, ◌≤◌, ℕ, true, false, [], length, slice_index_or, vec_len, vec_capacity, IfOk, IfErr};
ghost use Rattle.std.specs.List.{AllByRecursion, AllZip};
ghost use Rattle.ir_flat.specs.Flat.{idle};
ghost use Rattle.ir_cut.specs.Positions.{IsConsistentCut, cut_of};
ghost use Rattle.ir_weave.specs.Standing.{StandsAtCut, flat_in, IsBetween, positions};
ghost use Rattle.ir_weave.specs.Stepping.{steps_left};
ghost use Rattle.ir_weave.specs.Woven.{IsFor, AreSeats};
ghost use Rattle.ir_replay.specs.Rounds.{Goes, backwards, round_threads, seats_of, views_of, IsOfTable};
ghost use Rattle.ir_replay.specs.Workers.{IsWorkerReady, HasWorked};

use crate::worker::{Worker, work_all};
use crossbeam_utils::CachePadded;
use ir_cut::Cut;
use ir_fit::Fitted;
use ir_object::Hands;
use ir_thread::Thread;
use ir_weave::{State, Weave, WeaveSeat};
use std::alloc::AllocError;

// A worker for each thread, at its seat, the last first.
pub fn assign_seats(workers: &mut Vec<Worker>, threads: &mut Vec<Thread>, mut seats: Vec<WeaveSeat>)
    requires counts { length seats.items ≡ length threads.old.items }
    requires none { workers.old.items ≡ [] }
    requires room { length threads.old.items ≤ vec_capacity workers.old }
    ensures none { threads.new.items ≡ [] }
    ensures room { vec_capacity threads.new ≡ vec_capacity threads.old }
    ensures threads { backwards (round_threads workers.new.items) ≡ threads.old.items }
    ensures seats { backwards (seats_of workers.new.items) ≡ seats.items }
{
    'threads: while let Some(thread) = threads.pop() {
        if let Some(seat) = seats.pop() {
            workers.push_reserved(Worker {
                seat,
                thread,
                apart: CachePadded::new(()),
            });
        }
    }
}

// All workers go on, for so many milliseconds and longer.
fn run_all<H: Hands>(
    hands: &H,
    weave: &Weave,
    workers: &mut Vec<Worker>,
    fitted: &Fitted,
    target: &Cut,
    millis: u32,
)
    requires table { IsFor weave.now.table.shared.key fitted.now }
    requires target { (length target.now ≡ length fitted.now.guest.entries) × IsConsistentCut fitted.now target.now }
    requires ready { AllByRecursion (IsWorkerReady weave.now.table.shared.table_id weave.now.table.shared.key target.now) workers.old.items }
    ensures { AllZip (HasWorked weave.now.table.shared.table_id weave.now.table.shared.key target.now) workers.old.items workers.new.items }
{
    work_all(hands, weave, workers.as_mut_slice(), fitted, target, millis);
}

// The threads again, the first first, and their seats joined to one.
fn joined(weave: &Weave, workers: &mut Vec<Worker>, threads: &mut Vec<Thread>) -> WeaveSeat
    requires some { 1 ≤ vec_len workers.old }
    requires none { threads.old.items ≡ [] }
    requires room { vec_len workers.old ≤ vec_capacity threads.old }
    requires seats { AllByRecursion (IsOfTable weave.now.table.shared.table_id) workers.old.items }
    ensures threads { threads.new.items ≡ backwards (round_threads workers.old.items) }
    ensures table { result.table_id ≡ weave.now.table.shared.table_id }
    ensures views { result.me.0 ≡ views_of workers.old.items }
{
    let first = workers.pop().unwrap();
    threads.push_reserved(first.thread);
    let mut all = first.seat;
    'workers: while let Some(worker) = workers.pop() {
        threads.push_reserved(worker.thread);
        all = weave.join(all, worker.seat);
    }
    all
}

// A table that is open, its seats, and room for the workers of a round.
#[derive(Drop)]
struct Opened {
    weave: Weave,
    seats: Vec<WeaveSeat>,
    workers: Vec<Worker>,
}

// A round over a table.
fn run_at_table<H: Hands>(
    hands: &H,
    opened: Opened,
    fitted: &Fitted,
    state: State,
    target: &Cut,
    millis: u32,
) -> State
    requires table { IsFor opened.weave.table.shared.key fitted.now }
    requires opened { opened.weave.table.shared.key.opened.value ≡ state }
    requires seats { AreSeats opened.weave.table.shared.table_id opened.weave.table.shared.key 0 opened.seats.items × (length opened.seats.items ≡ length fitted.now.guest.entries) }
    requires none { opened.workers.items ≡ [] }
    requires room { length opened.seats.items ≤ vec_capacity opened.workers }
    requires state { StandsAtCut fitted.now (positions (flat_in fitted.now state)) state }
    requires target { (length target.now ≡ length fitted.now.guest.entries) × IsConsistentCut fitted.now target.now }
    requires below { (t : ℕ) → positions (flat_in fitted.now state) t ≤ cut_of target.now t }
    ensures between { IsBetween fitted.now target.now state result }
    ensures goes { Goes fitted.now target.now state result }
{
    fitted.image().code();
    let Opened {
        weave,
        seats,
        mut workers,
    } = opened;
    let (mut threads, mut objects) = state.parts();
    assign_seats(&mut workers, &mut threads, seats);
    run_all(hands, &weave, &mut workers, fitted, target, millis);
    let seat = joined(&weave, &mut workers, &mut threads);
    weave.close(seat, objects.as_mut_slice());
    State::build(threads, objects)
}

// One round: each thread advances until it is at its target, or its next step isn't admitted and so many milliseconds have passed.
pub fn round<H: Hands>(
    hands: &H,
    fitted: &Fitted,
    state: State,
    target: &Cut,
    millis: u32,
) -> Result<State, (State, AllocError)>
    requires state { StandsAtCut fitted.now (positions (flat_in fitted.now state)) state }
    requires target { (length target.now ≡ length fitted.now.guest.entries) × IsConsistentCut fitted.now target.now }
    requires below { (t : ℕ) → positions (flat_in fitted.now state) t ≤ cut_of target.now t }
    ensures ok { IfOk result (λ s. IsBetween fitted.now target.now state s) }
    ensures goes { IfOk result (λ s. Goes fitted.now target.now state s) }
    ensures err { IfErr result (λ e. e.0 ≡ state) }
{
    let alloc = hands.alloc();
    let (weave, seats) = match Weave::open(alloc, fitted, &state) {
        Ok(opened) => opened,
        Err(error) => return Err((state, error)),
    };
    let workers = match Vec::with_capacity(alloc, seats.len()) {
        Ok(workers) => workers,
        Err(error) => return Err((state, error)),
    };
    let opened = Opened {
        weave,
        seats,
        workers,
    };
    Ok(run_at_table(hands, opened, fitted, state, target, millis))
}
