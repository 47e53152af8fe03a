//! A guest with a timing fault, and its runs by seeds.

ghost use Rattle.ir_thread.specs.State.{IsAllowed};
ghost use Rattle.ir_thread.specs.declared.profile.Profile.TheVariants.{One};
ghost use Rattle.std.specs.Prelude.{IfOk};

use crate::silent::{Silent, worlds};
use ir_asm::assemble;
use ir_flat::Flat;
use ir_image::Image;
use ir_schedule::{Choices, Chooser, Runner, Stop, Way};
use ir_thread::Profile;
use std::alloc::Global;
use std::test::Fail;

// Two threads add one each to word 0 of object 0, which each reads, gives back, and then writes: its 3rd step and its 14th are
// entries, its 25th is its last.
const LOST_UPDATE: &str = "
        .objects 1
        .thread main
        .thread main
main:   addi a0, zero, 0
        addi a7, zero, 7
        ecall
        addi a0, zero, 0
        addi a1, zero, 0
        addi a7, zero, 10
        ecall
        addi s0, a0, 1
        addi a0, zero, 0
        addi a7, zero, 9
        ecall
        addi a0, zero, 0
        addi a7, zero, 8
        ecall
        addi a0, zero, 0
        addi a1, zero, 0
        addi a2, s0, 0
        addi a7, zero, 11
        ecall
        addi a0, zero, 0
        addi a7, zero, 9
        ecall
        addi a0, zero, 0
        addi a7, zero, 1
        ecall
";

// How many entries each thread makes.
pub const ENTRIES: Choices = [2, 2, 0, 0, 0, 0, 0, 0, 0, 0, 0, 0, 0, 0, 0, 0];

// The guest, which the profile allows.
fn allowed(profile: Profile, image: Image) -> Result<Image, Fail>
    ensures { IfOk result (λ image. IsAllowed profile image) }
{
    if !profile.allows(&image) {
        return Err(Fail::from("too many threads or objects"));
    }
    Ok(image)
}

// The guest, which the first profile allows.
pub fn lost_update(alloc: Global) -> Result<Image, Fail>
    ensures { IfOk result (λ image. IsAllowed One image) }
{
    allowed(Profile::One, assemble(alloc, LOST_UPDATE)?)
}

// How many choices a run made, or why it stopped, and the guest and its turns.
pub type Ran<'a> = (Result<Choices, Stop>, Runner<'a, Silent>);

// A run of the guest by a seed, with room for `room` turns.
pub fn run<'a>(
    alloc: Global,
    image: &'a Image,
    way: Way,
    seed: u64,
    room: usize,
) -> Result<Ran<'a>, Fail>
    requires { IsAllowed One image.now }
{
    let flat = Flat::start(alloc, image, 1000, Profile::One)?;
    let threads = flat.threads().len();
    let worlds = worlds(alloc, threads)?;
    let mut chooser = Chooser::of_seed(alloc, way, seed, threads, &ENTRIES)?;
    let turns = Vec::with_capacity(alloc, room)?;
    let mut runner = Runner {
        flat,
        worlds,
        turns,
    };
    let choices = runner.run(false, &mut chooser);
    Ok((choices, runner))
}
