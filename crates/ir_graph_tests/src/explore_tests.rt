//! What `ir explore` prints.

ghost use Rattle.std.specs.Prelude.{◌≤◌};

use crate::guests::{ENDLESS_LOOP, LOST_UPDATE, POLLS, PRINTS};
use crate::page::{ENDLESS, Page, empty_page};
use ir_asm::assemble;
use ir_explore::{ExplorePlan, explore_run};
use ir_image::write_image;
use ir_search::{Observer, Unobserved};
use ir_thread::Profile;
use std::test::Fail;

pub const BOTH: &[u8] = b"outcome 1 switches 1 order 1x25,0x25
thread 0 end 1 code 0 out 0
thread 1 end 1 code 0 out 0
object 0 words 00000002 00000000 00000000 00000000 00000000 00000000 00000000 00000000
outcome 2 switches 2 order 0x13,1x25,0x12
thread 0 end 1 code 0 out 0
thread 1 end 1 code 0 out 0
object 0 words 00000001 00000000 00000000 00000000 00000000 00000000 00000000 00000000
finished outcomes 2 states 12 hangs 0
";

const FIRST: &[u8] = b"outcome 1 switches 1 order 1x25,0x25
thread 0 end 1 code 0 out 0
thread 1 end 1 code 0 out 0
object 0 words 00000002 00000000 00000000 00000000 00000000 00000000 00000000 00000000
covered 1 outcomes 1 states 11
";

const PRINTED: &[u8] = b"outcome 1 switches 0 order 0x9,1x9
thread 0 end 1 code 0 out 1
41
thread 1 end 1 code 1 out 1
42
finished outcomes 1 states 1 hangs 0
";

const HANGING: &[u8] = b"hang switches 0 order 0x2,1x3
finished outcomes 0 states 1 hangs 1
";

// At most so many states and switches; random words start at 0, and there is no input.
pub fn within<'a>(states: usize, switches: usize, profile: Profile) -> ExplorePlan<'a>
    requires { 1 ≤ states }
{
    ExplorePlan::new(states, 1000, switches, profile, 0, &[])
}

// What is printed of a guest: the exit status, the lines and the faults.
pub fn printed(
    rt: &HostRuntime,
    text: &str,
    plan: &ExplorePlan<'_>,
) -> Result<(u8, Page, Page), Fail> {
    printed_before(rt, text, plan, &Unobserved)
}

// The same before this observer.
pub fn printed_before<W: Observer>(
    rt: &HostRuntime,
    text: &str,
    plan: &ExplorePlan<'_>,
    observer: &W,
) -> Result<(u8, Page, Page), Fail> {
    let alloc = rt.alloc();
    let image = assemble(alloc, text)?;
    let bytes = write_image(alloc, &image)?;
    let mut out = empty_page(rt, 1000, ENDLESS);
    let mut faults = empty_page(rt, 1000, ENDLESS);
    let status = explore_run(
        alloc,
        bytes.as_slice(),
        plan,
        observer,
        &mut out,
        &mut faults,
    );
    Ok((status.number(), out, faults))
}

#[test]
fn a_lost_update_is_printed_with_both_orders(rt: HostRuntime) -> Result<(), Fail> {
    let (status, out, faults) = printed(&rt, LOST_UPDATE, &within(100, 100, Profile::One))?;
    assert_eq!(rt; out.bytes.as_slice(), BOTH);
    assert_eq!(rt; status, 0);
    assert!(rt; faults.bytes.is_empty());
    Ok(())
}

#[test]
fn with_one_switch_the_first_is_printed(rt: HostRuntime) -> Result<(), Fail> {
    let (status, out, _) = printed(&rt, LOST_UPDATE, &within(100, 1, Profile::One))?;
    assert_eq!(rt; out.bytes.as_slice(), FIRST);
    assert_eq!(rt; status, 0);
    Ok(())
}

#[test]
fn too_many_states_stop_it(rt: HostRuntime) -> Result<(), Fail> {
    let (status, out, _) = printed(&rt, LOST_UPDATE, &within(3, 100, Profile::One))?;
    assert!(rt; out.bytes.as_slice().starts_with(b"stopped states covered "));
    assert_eq!(rt; status, 6);
    Ok(())
}

#[test]
fn a_thread_that_goes_on_for_ever_stops_it(rt: HostRuntime) -> Result<(), Fail> {
    let (status, out, _) = printed(&rt, ENDLESS_LOOP, &within(100, 100, Profile::One))?;
    assert_eq!(rt;
        out.bytes.as_slice(),
        b"stopped private 0 covered - outcomes 0 states 0\n".as_slice()
    );
    assert_eq!(rt; status, 6);
    Ok(())
}

#[test]
fn what_is_printed_by_threads_is_shown(rt: HostRuntime) -> Result<(), Fail> {
    let (status, out, _) = printed(&rt, PRINTS, &within(100, 100, Profile::One))?;
    assert_eq!(rt; out.bytes.as_slice(), PRINTED);
    assert_eq!(rt; status, 0);
    Ok(())
}

#[test]
fn a_thread_that_waits_for_what_never_comes_hangs(rt: HostRuntime) -> Result<(), Fail> {
    let (status, out, _) = printed(&rt, POLLS, &within(100, 100, Profile::One))?;
    assert_eq!(rt; out.bytes.as_slice(), HANGING);
    assert_eq!(rt; status, 7);
    Ok(())
}

#[test]
fn bytes_that_are_no_image_are_refused(rt: HostRuntime) {
    let mut out = empty_page(&rt, 1000, ENDLESS);
    let mut faults = empty_page(&rt, 1000, ENDLESS);
    let plan = within(100, 100, Profile::One);
    let status = explore_run(
        rt.alloc(),
        b"no image",
        &plan,
        &Unobserved,
        &mut out,
        &mut faults,
    );
    assert_eq!(rt; status.number(), 3);
    assert!(rt; out.bytes.is_empty());
    assert!(rt; !faults.bytes.is_empty());
}
