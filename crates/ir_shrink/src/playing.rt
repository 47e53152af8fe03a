//! A guest's run by items, to its end.

ghost use Rattle.std.specs.Prelude.{◌≡◌, ◌≤◌, [], length, map, true, IfOk, OnOk};
ghost use Rattle.ir_record.specs.Worlds.{NoneFailed};
ghost use Rattle.ir_shrink.specs.Items.{endless_of};
ghost use Rattle.ir_shrink.specs.Moments.{first_moment, moment_of};
ghost use Rattle.ir_shrink.specs.Played.{IsPlayed};
ghost use Rattle.ir_thread.specs.State.{IsAllowed};
ghost use Rattle.ir_world.specs.Sources.{made_with, origins};

use crate::mover::Mover;
use ir_flat::Flat;
use ir_hunt::counted_worlds;
use ir_image::Image;
use ir_record::Item;
use ir_record_command::RecordPlan;
use ir_world::ProgramWorld;
use std::alloc::{AllocError, Global};
use std::time::Clock;

/// A guest that was run by items to its end.
#[derive(Drop)]
pub struct Played<'a> {
    /// What its threads and objects came to.
    pub flat: Flat<'a>,
    /// The items as they were taken.
    pub items: Vec<Item>,
}

/// As many turns as no thread has steps for: what its budget leaves, its end, and a leave of each object.
pub fn endless_of(plan: &RecordPlan<'_>) -> u64
    ensures { result ≡ endless_of plan.now }
{
    plan.budget + 65
}

// What runs the guest, before its first step.
fn start<'a, C: Clock>(
    alloc: Global,
    clock: &'a C,
    image: &'a Image,
    plan: &'a RecordPlan<'a>,
) -> Result<Mover<'a, ProgramWorld<'a, C>>, AllocError>
    requires { IsAllowed plan.now.profile image.now }
    ensures moment { IfOk result (λ mover. moment_of (λ w. w.answers.items) mover ≡ first_moment image.now plan.now) }
    ensures origins { IfOk result (λ mover. map (λ w. made_with w.time w.seed w.file.now) mover.worlds.items ≡ origins true plan.now.random plan.now.input (length image.now.entries)) }
    ensures some { OnOk result (1 ≤ length image.now.entries) }
    ensures none { IfOk result (λ mover. mover.items.items ≡ []) }
    ensures works { IfOk result (λ mover. NoneFailed (map (λ w. w.failed) mover.worlds.items)) }
{
    let flat = Flat::start(alloc, image, plan.budget, plan.profile)?;
    let worlds = counted_worlds(alloc, clock, image, plan)?;
    Ok(Mover {
        flat,
        worlds,
        items: Vec::new(alloc),
    })
}

/// The run of the guest by items, and then by passes over all threads until all are done.
///
/// # Errors
/// Out of memory.
pub fn play<'a, C: Clock>(
    alloc: Global,
    clock: &'a C,
    image: &'a Image,
    plan: &'a RecordPlan<'a>,
    items: &[Item],
) -> Result<Played<'a>, AllocError>
    requires { IsAllowed plan.now.profile image.now }
    ensures { IfOk result (λ played. IsPlayed image.now plan.now items.now played.items.items played.flat) }
{
    let mut mover = start(alloc, clock, image, plan)?;
    mover.follow(items)?;
    mover.finish(endless_of(plan))?;
    let Mover { flat, items, .. } = mover;
    Ok(Played { flat, items })
}
