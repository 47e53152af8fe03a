//! What workers that have run to their ends hand back.

ghost use Rattle.std.specs.Prelude.{◌≡◌, ◌≤◌, length, map, vec_len, IfOk};
ghost use Rattle.std.specs.List.{AllByRecursion};
ghost use Rattle.ir_image.specs.Guest.{limits_of};
ghost use Rattle.ir_thread.specs.State.{largest, most_budget};
ghost use Rattle.ir_record.specs.Threads.{IsEmptyFor, AreOutputBuffers, HasRoomForThread, IsOver, AreTraces, IsSeatOf, views_of};

use crate::by_threads::buffers::Buffers;
use crate::by_threads::worker::Worker;
use crate::outputs::{Output, Outputs};
use crate::thread_trace::thread_trace;
use ir_crew::{Crew, CrewSeat};
use ir_thread::{MOST_OUTPUT, Profile};
use ir_trace::Trace;
use std::alloc::{AllocError, Global};

// Buffers for what `count` threads print.
fn output_buffers(alloc: Global, count: usize) -> Result<Vec<Vec<u8>>, AllocError>
    ensures { IfOk result (λ v. AreOutputBuffers count v.items) }
{
    let mut buffers = Vec::with_capacity(alloc, count)?;
    for number in 0..count {
        buffers.push(Vec::with_capacity(alloc, MOST_OUTPUT)?)?;
    }
    Ok(buffers)
}

// Buffers for what `count` workers hand back.
pub fn new_buffers<W: Drop>(alloc: Global, count: usize) -> Result<Buffers<W>, AllocError>
    ensures { IfOk result (HasRoomForThread count) }
{
    Ok(Buffers {
        seats: Vec::with_capacity(alloc, count)?,
        traces: Vec::with_capacity(alloc, count)?,
        outputs: Vec::with_capacity(alloc, count)?,
        bytes: output_buffers(alloc, count)?,
        worlds: Vec::with_capacity(alloc, count)?,
    })
}

// The worlds of the workers.
pub fn worlds_of<W: Drop>(buffers: Buffers<W>, workers: Vec<Worker<W>>) -> Vec<W>
    requires { HasRoomForThread (vec_len workers) buffers }
    ensures { result.items ≡ map (λ w. w.world) workers.items }
{
    let mut worlds = buffers.worlds;
    for worker in workers {
        worlds.push_reserved(worker.world);
    }
    worlds
}

// The bytes, in a list that has room for them.
fn filled(mut buffer: Vec<u8>, bytes: &[u8]) -> Vec<u8>
    requires { IsEmptyFor (length bytes.now) buffer }
    ensures { result.items ≡ bytes.now }
{
    buffer.extend_from_slice(bytes).unwrap();
    buffer
}

// The seats, what was recorded of each thread, and what each printed, with its world.
pub fn gathered<W: Drop>(
    buffers: Buffers<W>,
    objects: u8,
    budget: u64,
    profile: Profile,
    workers: Vec<Worker<W>>,
) -> (Vec<CrewSeat>, Trace, Outputs<W>)
    requires buffers { HasRoomForThread (vec_len workers) buffers }
    requires over { AllByRecursion (IsOver profile objects) workers.items }
    requires some { 1 ≤ vec_len workers }
    requires few { vec_len workers ≤ (limits_of (largest profile)).threads }
    requires objects { objects ≤ (limits_of (largest profile)).objects }
    requires budget { budget ≤ most_budget }
    ensures seats { result.0.items ≡ map (λ w. w.seat) workers.items }
    ensures trace { (result.1.objects ≡ objects) × (result.1.budget ≡ budget) × (result.1.profile ≡ profile) × AreTraces workers.items result.1.threads }
    ensures bytes { map (λ o. o.bytes.items) result.2.each.items ≡ map (λ w. w.thread.output) workers.items }
    ensures worlds { map (λ o. o.world) result.2.each.items ≡ map (λ w. w.world) workers.items }
{
    let Buffers {
        mut seats,
        mut traces,
        outputs: mut each,
        bytes: mut rooms,
        ..
    } = buffers;
    for worker in workers {
        let Worker {
            seat,
            thread,
            log,
            world,
            ..
        } = worker;
        let bytes = filled(rooms.pop().unwrap(), thread.output());
        seats.push_reserved(seat);
        traces.push_reserved(thread_trace(&thread, log));
        each.push_reserved(Output { bytes, world });
    }
    (
        seats,
        Trace::new(objects, budget, traces, profile),
        Outputs { each },
    )
}

// One seat of all.
pub fn joined(crew: &Crew, mut seats: Vec<CrewSeat>) -> CrewSeat
    requires some { 1 ≤ vec_len seats }
    requires seats { AllByRecursion (IsSeatOf crew.now.table.shared.table_id) seats.items }
    ensures seat { IsSeatOf crew.now.table.shared.table_id result }
    ensures views { result.me.0 ≡ views_of seats.items }
{
    let mut all = seats.pop().unwrap();
    while let Some(seat) = seats.pop() {
        all = crew.join(seat, all);
    }
    all
}
