//! Guests, and searches over their states.

ghost use Rattle.ir_thread.specs.State.{IsAllowed};
ghost use Rattle.ir_thread.specs.declared.profile.Profile.TheVariants.{One};
ghost use Rattle.std.specs.Prelude.{◌≡◌, IfOk};

use ir_asm::assemble;
use ir_graph::{Bounds, Setup};
use ir_image::Image;
use ir_outcomes::{Explored, explore};
use ir_search::Unobserved;
use ir_thread::Profile;
use std::alloc::Global;
use std::test::Fail;

// Two threads add one each to word 0 of object 0, which each reads, gives back, and then writes.
pub const LOST_UPDATE: &str = "
        .objects 1
        .thread main
        .thread main
main:   addi a0, zero, 0
        addi a7, zero, 7
        ecall
        addi a0, zero, 0
        addi a1, zero, 0
        addi a7, zero, 10
        ecall
        addi s0, a0, 1
        addi a0, zero, 0
        addi a7, zero, 9
        ecall
        addi a0, zero, 0
        addi a7, zero, 8
        ecall
        addi a0, zero, 0
        addi a1, zero, 0
        addi a2, s0, 0
        addi a7, zero, 11
        ecall
        addi a0, zero, 0
        addi a7, zero, 9
        ecall
        addi a0, zero, 0
        addi a7, zero, 1
        ecall
";

// Three threads enter and leave an object of their own twice.
pub const OWN_OBJECTS: &str = "
        .objects 3
        .thread main
        .thread main
        .thread main
main:   addi a7, zero, 12
        ecall
        addi s0, a0, 0
        addi a7, zero, 8
        ecall
        addi a0, s0, 0
        addi a7, zero, 9
        ecall
        addi a0, s0, 0
        addi a7, zero, 8
        ecall
        addi a0, s0, 0
        addi a7, zero, 9
        ecall
        addi a0, zero, 0
        addi a7, zero, 1
        ecall
";

// A lost wake-up. The first thread looks whether word 0 of object 0 is set, and ends with code 0 if it is. If not, it clears word 1, waits until
// that is set, and ends with code 1. The second thread sets word 0, then word 1. Where it does both between the look and the clearing, the first
// waits for ever.
pub const LOST_WAKE_UP: &str = "
        .objects 1
        .thread sleeper
        .thread waker
sleeper: addi a0, zero, 0
        addi a7, zero, 7
        ecall
        addi a0, zero, 0
        addi a1, zero, 0
        addi a7, zero, 10
        ecall
        addi s0, a0, 0
        addi a0, zero, 0
        addi a7, zero, 9
        ecall
        bne s0, zero, seen
        addi a0, zero, 0
        addi a7, zero, 8
        ecall
        addi a0, zero, 0
        addi a1, zero, 1
        addi a2, zero, 0
        addi a7, zero, 11
        ecall
        addi a0, zero, 0
        addi a7, zero, 9
        ecall
wait:   addi a0, zero, 0
        addi a7, zero, 7
        ecall
        addi a0, zero, 0
        addi a1, zero, 1
        addi a7, zero, 10
        ecall
        addi s0, a0, 0
        addi a0, zero, 0
        addi a7, zero, 9
        ecall
        beq s0, zero, wait
        addi a0, zero, 1
        addi a7, zero, 1
        ecall
seen:   addi a0, zero, 0
        addi a7, zero, 1
        ecall
waker:  addi a0, zero, 0
        addi a7, zero, 8
        ecall
        addi a0, zero, 0
        addi a1, zero, 0
        addi a2, zero, 1
        addi a7, zero, 11
        ecall
        addi a0, zero, 0
        addi a7, zero, 9
        ecall
        addi a0, zero, 0
        addi a7, zero, 8
        ecall
        addi a0, zero, 0
        addi a1, zero, 1
        addi a2, zero, 1
        addi a7, zero, 11
        ecall
        addi a0, zero, 0
        addi a7, zero, 9
        ecall
        addi a0, zero, 0
        addi a7, zero, 1
        ecall
";

// A thread without an end.
pub const ENDLESS_LOOP: &str = "
        .thread main
main:   jal zero, main
";

// A thread reads word 0 of object 0 until it isn't 0. The other one ends.
pub const POLLS: &str = "
        .objects 1
        .thread main
        .thread other
main:   addi a0, zero, 0
        addi a7, zero, 7
        ecall
        addi a0, zero, 0
        addi a1, zero, 0
        addi a7, zero, 10
        ecall
        addi s0, a0, 0
        addi a0, zero, 0
        addi a7, zero, 9
        ecall
        beq s0, zero, main
        addi a0, zero, 0
        addi a7, zero, 1
        ecall
other:  addi a0, zero, 0
        addi a7, zero, 1
        ecall
";

// Two threads print a byte each, 65 and 66, and end with code 0 and 1.
pub const PRINTS: &str = "
        .thread main
        .thread main
main:   addi a7, zero, 12
        ecall
        addi s0, a0, 0
        addi a0, s0, 65
        addi a7, zero, 2
        ecall
        addi a0, s0, 0
        addi a7, zero, 1
        ecall
";

// This guest, which the first profile allows.
pub fn guest(alloc: Global, text: &str) -> Result<Image, Fail>
    ensures { IfOk result (λ image. IsAllowed One image) }
{
    guest_of(alloc, text, Profile::One)
}

// The guest of a text, with the calls of a profile.
pub fn guest_of(alloc: Global, text: &str, profile: Profile) -> Result<Image, Fail>
    ensures { IfOk result (λ image. IsAllowed profile image) }
{
    let image = assemble(alloc, text)?;
    if !profile.allows(&image) {
        return Err(Fail::from("too many threads or objects"));
    }
    Ok(image)
}

// It, with the calls of a profile; random words start at 0, and there is no input.
pub fn setup_of<'a>(image: &'a Image, profile: Profile) -> Setup<'a>
    ensures guest { result.guest ≡ image.now }
    ensures profile { result.profile ≡ profile }
{
    Setup {
        image,
        profile,
        random: 0,
        input: &[],
    }
}

// What is found out about it up to so many switches, of at most 200 states.
pub fn explored<'a>(alloc: Global, image: &'a Image, switches: usize) -> Result<Explored<'a>, Fail>
    requires { IsAllowed One image.now }
{
    let bounds = Bounds {
        nodes: 200,
        private: 1000,
        seconds: None,
        outcomes: None,
    };
    let setup = setup_of(image, Profile::One);
    match explore(alloc, &setup, bounds, switches, &Unobserved) {
        Ok(found) => Ok(found),
        Err(_) => Err(Fail::from("no search")),
    }
}
