//! The workers of a recording: one for each thread of the guest.

ghost use Rattle.std.specs.Prelude.{◌≡◌, ◌<◌, ◌≤◌, ℕ, length, map, slice_index_or, vec_len, IfOk, IfSome, None};
ghost use Rattle.ir_thread.specs.State.{most_budget};
ghost use Rattle.ir_crew.specs.Ends.{AreCrewSeats};
ghost use Rattle.ir_record.specs.Threads.{AreNew};
ghost use Rattle.std.specs.List.{AllZip};
ghost use Rattle.ir_record.specs.Working.{AreReady, RanToEnd};
ghost use Rattle.ir_record.specs.Worlds.{NoneFailed, IsFirstFailed};

use crate::by_threads::worker::Worker;
use crate::world::World;
use crossbeam_utils::CachePadded;
use ir_crew::{Crew, CrewSeat};
use ir_image::{Code, Image};
use ir_log::Log;
use ir_object::Gate;
use ir_thread::{MOST_EVENTS, Profile, Thread};
use std::alloc::{AllocError, Global};
use std::sync::Wait;
use std::thread;
use std::thread::Threads;

// A worker for each thread of the guest, with all room that it will need.
pub fn new_workers<W: Drop>(
    alloc: Global,
    image: &Image,
    mut seats: Vec<CrewSeat>,
    worlds: Vec<W>,
    budget: u64,
    profile: Profile,
) -> Result<Vec<Worker<W>>, AllocError>
    requires budget { budget ≤ most_budget }
    requires each { vec_len worlds ≡ length image.now.entries }
    requires seats { length seats.items ≡ length image.now.entries }
    ensures new { IfOk result (λ v. (id : _) → AreCrewSeats id 0 seats.items → AreNew image.now budget profile id 0 v.items) }
    ensures worlds { IfOk result (λ v. map (λ w. w.world) v.items ≡ worlds.items) }
{
    let mut made = Vec::with_capacity(alloc, worlds.len())?;
    for world in worlds {
        let thread = Thread::new(alloc, image, made.len(), budget, profile)?;
        let log = Log::new(alloc, MOST_EVENTS as usize)?;
        let seat = seats.remove(0);
        made.push(Worker {
            seat,
            thread,
            log,
            world,
            apart: CachePadded::new(()),
        })?;
    }
    Ok(made)
}

// Each worker runs to its end, on a thread of its own where one can be started, else on this one.
fn run_side_by_side<R: Threads + Wait + Sync, W: World + Send, G: Gate + Sync>(
    rt: &R,
    crew: &Crew,
    code: &Code,
    gate: &G,
    workers: &mut [Worker<W>],
)
    requires ready { AreReady W.answers W.broken crew.now code.now workers.old }
    ensures { (i : ℕ) (d : _) → i < length workers.old → RanToEnd W.answers W.broken W.origin crew.now.table.shared.key (slice_index_or workers.old i d) (slice_index_or workers.new i d) }
{
    if workers.is_empty() {
        return;
    }
    let count = workers.len();
    thread::for_each_mut(
        rt,
        workers,
        count,
        &|_, worker| worker.run_to_end(rt, crew, code, gate),
    );
}

// All workers run to their ends.
pub fn run_workers<R: Threads + Wait + Sync, W: World + Send, G: Gate + Sync>(
    rt: &R,
    crew: &Crew,
    code: &Code,
    gate: &G,
    workers: &mut Vec<Worker<W>>,
)
    requires ready { AreReady W.answers W.broken crew.now code.now workers.old.items }
    ensures { AllZip (RanToEnd W.answers W.broken W.origin crew.now.table.shared.key) workers.old.items workers.new.items }
{
    run_side_by_side(rt, crew, code, gate, workers.as_mut_slice());
}

// The lowest thread whose world has failed.
pub fn first_failed<W: World>(workers: &[Worker<W>]) -> Option<usize>
    ensures below { IfSome result (λ t. t < length workers.now) }
    ensures failed { IfSome result (λ t. IsFirstFailed (map (λ w. W.broken w.world) workers.now) t) }
    ensures none { result ≡ None → NoneFailed (map (λ w. W.broken w.world) workers.now) }
{
    for t in 0..workers.len() {
        if workers[t].world.failed() {
            return Some(t);
        }
    }
    None
}
