//! Recording on real threads.

ghost use Rattle.std.specs.Prelude.{◌≡◌, ◌≤◌, length, map, vec_len, IfOk, IfErr};
ghost use Rattle.ir_thread.specs.State.{IsAllowed, most_budget};
ghost use Rattle.ir_record.specs.Recording.{IsRecordedByThreads, AllWork, AreHandedBack, IsFailure};
ghost use Rattle.ir_record.specs.Worlds.{NoneFailed};

use crate::by_threads::results::{gathered, joined, new_buffers, worlds_of};
use crate::by_threads::workers::{first_failed, new_workers, run_workers};
use crate::outputs::Outputs;
use crate::record_err::RecordErr;
use crate::world::World;
use ir_crew::Crew;
use ir_image::{Image, MOST_OBJECT_WORDS};
use ir_object::{Gate, Object};
use ir_thread::Profile;
use ir_trace::Trace;
use std::alloc::{AllocError, Global};
use std::sync::Wait;
use std::thread::Threads;

pub mod buffers;
mod results;
pub mod worker;
mod worker_steps;
mod workers;

// `count` objects, to be written over.
fn blanks(alloc: Global, count: usize) -> Result<Vec<Object>, AllocError>
    ensures { IfOk result (λ v. length v.items ≡ count) }
{
    let mut objects = Vec::with_capacity(alloc, count)?;
    for _o in 0..count {
        objects.push(Object::new([0; MOST_OBJECT_WORDS]))?;
    }
    Ok(objects)
}

/// What a recorded run may take.
#[derive(Clone, Copy)]
pub struct Limits {
    /// The steps that each thread of the guest may take.
    pub budget: u64,
    /// Which system calls there are, and how many threads and objects.
    pub profile: Profile,
}

/// Records the guest on real threads. Each of its threads runs on one of its own; where none can be started, the caller
/// runs it, and several such one after another. The profile of the limits has to allow the guest's threads and objects. Which
/// of the guest's runs is recorded is open, and any try may be refused.
///
/// Each entry is reported to the gate just after it, and each leave just before it, on the thread that enters or leaves. This
/// includes what a thread releases at its end or after its world has failed. Private steps are reported too. A gate that
/// holds a thread up may hold up all.
///
/// It may wait for ever: a thread that waits for an object takes no step, so its budget doesn't end it, and a thread that
/// the caller runs keeps those after it waiting.
///
/// # Errors
/// `RecordErr::NoMem` where memory is wanted: all is made before the first step, so none was taken. The worlds are dropped.
/// `RecordErr::World` where a world has failed, once all threads have stopped: a thread whose world fails leaves what it
/// holds and takes no further step, the others go on to their ends. It names the lowest of these threads and hands all
/// worlds back.
pub fn record<R: Threads + Wait + Sync, W: World + Drop + Send, G: Gate + Sync>(
    rt: &R,
    alloc: Global,
    image: &Image,
    worlds: Vec<W>,
    gate: &G,
    limits: Limits,
) -> Result<(Trace, Outputs<W>), RecordErr<W>>
    requires budget { limits.budget ≤ most_budget }
    requires allowed { IsAllowed limits.profile image.now }
    requires each { vec_len worlds ≡ length image.now.entries }
    requires works { NoneFailed (map W.broken worlds.items) }
    // One complete run of the guest: its trace, what its threads printed, and what their worlds answered.
    ensures recorded { IfOk result (IsRecordedByThreads W.answers image.now limits.budget limits.profile worlds.items) }
    ensures works { IfOk result (AllWork W.broken) }
    // The worlds are those that were handed in.
    ensures origins { IfOk result (AreHandedBack W.origin worlds.items) }
    ensures failed { IfErr result (IsFailure W.answers W.broken W.origin image.now limits.budget limits.profile worlds.items) }
{
    let (crew, seats) = Crew::open(alloc, image)?;
    let Limits { budget, profile } = limits;
    let mut workers = new_workers(alloc, image, seats, worlds, budget, profile)?;
    let buffers = new_buffers(alloc, workers.len())?;
    let mut objects = blanks(alloc, image.object_count())?;
    // From here on nothing takes memory.
    run_workers(rt, &crew, image.code(), gate, &mut workers);
    if let Some(thread) = first_failed(workers.as_slice()) {
        return Err(RecordErr::World {
            thread: thread as u8,
            worlds: worlds_of(buffers, workers),
        });
    }
    let (seats, trace, outputs) = gathered(buffers, objects.len() as u8, budget, profile, workers);
    let seat = joined(&crew, seats);
    crew.close(seat, objects.as_mut_slice());
    Ok((trace, outputs))
}
