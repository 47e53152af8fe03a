//! The worlds of a guest's threads.

ghost use Rattle.std.specs.Prelude.{◌≡◌, [], IfOk, map, replicate};
ghost use Rattle.ir_record.specs.Worlds.{NoneFailed};
ghost use Rattle.ir_world.specs.Sources.{made_with, is_counted, origins};

use crate::program_world::ProgramWorld;
use crate::time::Time;
use std::alloc::{AllocError, Global};

/// The worlds of `threads` threads. Each has its own random words and its own copy of the file.
///
/// # Errors
/// Out of memory: each world makes room for all its answers.
pub fn worlds<'a, C>(
    alloc: Global,
    clock: &'a C,
    time: Time,
    threads: usize,
    random: u64,
    file: &'a [u8],
) -> Result<Vec<ProgramWorld<'a, C>>, AllocError>
    ensures origins { IfOk result (λ worlds. map (λ w. made_with w.time w.seed w.file.now) worlds.items ≡ origins (is_counted time) random file.now threads) }
    ensures fresh { IfOk result (λ worlds. map (λ w. w.answers.items) worlds.items ≡ replicate threads []) }
    ensures works { IfOk result (λ worlds. NoneFailed (map (λ w. w.failed) worlds.items)) }
{
    let mut worlds = Vec::with_capacity(alloc, threads)?;
    for thread in 0..threads {
        let seed = random.wrapping_add(thread as u64);
        worlds.push(ProgramWorld::new(alloc, clock, time, seed, file)?)?;
    }
    Ok(worlds)
}
