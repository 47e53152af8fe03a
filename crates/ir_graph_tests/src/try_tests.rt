//! Guests that try to enter.

ghost use Rattle.ir_thread.specs.State.{IsAllowed};
ghost use Rattle.ir_thread.specs.declared.profile.Profile.TheVariants.{Two};

use crate::explore_tests::{printed, within};
use crate::guests::{guest_of, setup_of};
use ir_graph::Bounds;
use ir_image::Image;
use ir_outcomes::{Explored, explore};
use ir_search::{Ended, Unobserved};
use ir_thread::Profile;
use std::alloc::Global;
use std::test::Fail;

// Two threads that try once. Each ends with code 1 if it entered, else with code 2.
const TRY_ONCE: &str = "
        .objects 1
        .thread main
        .thread main
main:   addi a0, zero, 0
        addi a7, zero, 13
        ecall
        beq a0, zero, no
        addi a0, zero, 0
        addi a7, zero, 9
        ecall
        addi a0, zero, 1
        addi a7, zero, 1
        ecall
no:     addi a0, zero, 2
        addi a7, zero, 1
        ecall
";

// Two threads that try until they enter, and then add 1 to a word.
const TRY_UNTIL_INSIDE: &str = "
        .objects 1
        .thread main
        .thread main
main:   addi a0, zero, 0
        addi a7, zero, 13
        ecall
        beq a0, zero, main
        addi a0, zero, 0
        addi a1, zero, 0
        addi a7, zero, 10
        ecall
        addi a2, a0, 1
        addi a0, zero, 0
        addi a1, zero, 0
        addi a7, zero, 11
        ecall
        addi a0, zero, 0
        addi a7, zero, 9
        ecall
        addi a0, zero, 1
        addi a7, zero, 1
        ecall
";

// What is found out about a guest, of at most 2,000 states.
fn explored<'a>(alloc: Global, image: &'a Image) -> Result<Explored<'a>, Fail>
    requires { IsAllowed Two image.now }
{
    let bounds = Bounds {
        nodes: 2000,
        private: 1000,
        seconds: None,
        outcomes: None,
    };
    let setup = setup_of(image, Profile::Two);
    match explore(alloc, &setup, bounds, 100, &Unobserved) {
        Ok(found) => Ok(found),
        Err(_) => Err(Fail::from("no search")),
    }
}

#[test]
fn a_try_may_be_refused_though_no_thread_is_inside(rt: HostRuntime) -> Result<(), Fail> {
    let alloc = rt.alloc();
    let image = guest_of(alloc, TRY_ONCE, Profile::Two)?;
    let found = explored(alloc, &image)?;
    assert!(rt; found.ended == Ended::Finished);
    assert_eq!(rt; found.outcomes.len(), 4);
    assert_eq!(rt; found.hangs, 0);
    Ok(())
}

#[test]
fn threads_that_try_until_they_enter_come_to_one_outcome(rt: HostRuntime) -> Result<(), Fail> {
    let alloc = rt.alloc();
    let image = guest_of(alloc, TRY_UNTIL_INSIDE, Profile::Two)?;
    let found = explored(alloc, &image)?;
    assert!(rt; found.ended == Ended::Finished);
    assert_eq!(rt; found.outcomes.len(), 1);
    assert_eq!(rt; found.hangs, 0);
    Ok(())
}

const FOUR: &[u8] = b"outcome 1 switches 1 order 1x10,0x10
thread 0 end 1 code 1 out 0
thread 1 end 1 code 1 out 0
outcome 2 switches 1 order 1x10,0x2,0!x5
thread 0 end 1 code 2 out 0
thread 1 end 1 code 1 out 0
outcome 3 switches 1 order 1x2,1!x5,0x10
thread 0 end 1 code 1 out 0
thread 1 end 1 code 2 out 0
outcome 4 switches 1 order 1x2,1!x5,0x2,0!x5
thread 0 end 1 code 2 out 0
thread 1 end 1 code 2 out 0
finished outcomes 4 states 9 hangs 0
";

#[test]
fn a_refused_try_has_a_mark_in_the_list(rt: HostRuntime) -> Result<(), Fail> {
    let plan = within(100, 100, Profile::Two);
    let (status, out, _) = printed(&rt, TRY_ONCE, &plan)?;
    assert_eq!(rt; out.bytes.as_slice(), FOUR);
    assert_eq!(rt; status, 0);
    Ok(())
}
