//! The worlds of a run whose calls for the time are counted.

ghost use Rattle.std.specs.Prelude.{◌≡◌, ◌≤◌, [], IfOk, OnOk, length, map, replicate, true};
ghost use Rattle.ir_record.specs.Worlds.{NoneFailed};
ghost use Rattle.ir_world.specs.Sources.{made_with, origins};

use ir_image::Image;
use ir_record_command::RecordPlan;
use ir_world::{ProgramWorld, Time, worlds};
use std::alloc::{AllocError, Global};
use std::time::Clock;

/// The worlds of a guest's threads before their first answers. The clock isn't read: calls for the time are counted.
///
/// # Errors
/// Out of memory.
pub fn counted_worlds<'a, C: Clock>(
    alloc: Global,
    clock: &'a C,
    image: &Image,
    plan: &RecordPlan<'a>,
) -> Result<Vec<ProgramWorld<'a, C>>, AllocError>
    ensures origins { IfOk result (λ worlds. map (λ w. made_with w.time w.seed w.file.now) worlds.items ≡ origins true plan.now.random plan.now.input (length image.now.entries)) }
    ensures fresh { IfOk result (λ worlds. map (λ w. w.answers.items) worlds.items ≡ replicate (length image.now.entries) []) }
    ensures works { IfOk result (λ worlds. NoneFailed (map (λ w. w.failed) worlds.items)) }
    ensures some { OnOk result (1 ≤ length image.now.entries) }
{
    let threads = image.entries().len();
    worlds(
        alloc,
        clock,
        Time::Counted,
        threads,
        plan.random,
        plan.input,
    )
}
