//! How many states guests have, and their outcomes.

use crate::guests::{LOST_UPDATE, OWN_OBJECTS, explored, guest};
use ir_flat::Flat;
use ir_search::Ended;
use ir_state_store::Store;
use std::test::Fail;

// Whether all threads are done.
fn is_done(flat: &Flat<'_>) -> bool {
    for thread in flat.threads() {
        if thread.ended().is_none() {
            return false;
        }
    }
    true
}

// How many done states have 1 and 2 in word 0 of object 0.
fn words(flats: &Store<'_>) -> Result<(u32, u32), Fail> {
    let mut ones = 0u32;
    let mut twos = 0u32;
    for v in 0..flats.len() {
        let state = flats.get(v)?;
        let flat = &state.flat;
        if is_done(flat) && !flat.objects().is_empty() {
            match flat.objects()[0].get(0) {
                1 => ones = ones.saturating_add(1),
                2 => twos = twos.saturating_add(1),
                _ => {}
            }
        }
    }
    Ok((ones, twos))
}

#[test]
fn a_lost_update_has_two_outcomes(rt: HostRuntime) -> Result<(), Fail> {
    let alloc = rt.alloc();
    let image = guest(alloc, LOST_UPDATE)?;
    let all = explored(alloc, &image, 100)?;
    assert!(rt; all.ended == Ended::Finished);
    assert_eq!(rt; all.states.graph.flats.len(), 12);
    assert_eq!(rt; words(&all.states.graph.flats)?, (1, 1));
    Ok(())
}

#[test]
fn with_one_switch_no_update_is_lost(rt: HostRuntime) -> Result<(), Fail> {
    let alloc = rt.alloc();
    let image = guest(alloc, LOST_UPDATE)?;
    let some = explored(alloc, &image, 1)?;
    assert!(rt; some.ended == Ended::Covered);
    assert_eq!(rt; words(&some.states.graph.flats)?, (0, 1));
    Ok(())
}

#[test]
fn threads_that_share_nothing(rt: HostRuntime) -> Result<(), Fail> {
    let alloc = rt.alloc();
    let image = guest(alloc, OWN_OBJECTS)?;
    let all = explored(alloc, &image, 100)?;
    assert!(rt; all.ended == Ended::Finished);
    assert_eq!(rt; all.states.graph.flats.len(), 27);
    Ok(())
}
