//! Runs that can't be brought to an end any more.

use crate::guests::{LOST_UPDATE, LOST_WAKE_UP, guest, setup_of};
use ir_graph::Bounds;
use ir_outcomes::explore;
use ir_search::{Ended, Unobserved};
use ir_thread::Profile;
use std::test::Fail;

const BOUNDS: Bounds = Bounds {
    nodes: 200,
    private: 1000,
    seconds: None,
    outcomes: None,
};

#[test]
fn a_lost_wake_up_hangs_after_one_switch(rt: HostRuntime) -> Result<(), Fail> {
    let alloc = rt.alloc();
    let image = guest(alloc, LOST_WAKE_UP)?;
    let setup = setup_of(&image, Profile::One);
    let Ok(found) = explore(alloc, &setup, BOUNDS, 100, &Unobserved) else {
        return Err(Fail::from("no search"));
    };
    assert!(rt; found.ended == Ended::Finished);
    assert_eq!(rt; found.outcomes.len(), 2);
    assert_eq!(rt; found.hangs, 2);
    let Some(hang) = &found.hang else {
        return Err(Fail::from("no hang"));
    };
    assert_eq!(rt; hang.level, 1);
    let [first, second, ..] = hang.turns.as_slice() else {
        return Err(Fail::from("no order"));
    };
    assert_eq!(rt; (first.thread, first.count), (0, 14));
    assert_eq!(rt; (second.thread, second.count), (1, 25));
    Ok(())
}

#[test]
fn a_lost_update_never_hangs(rt: HostRuntime) -> Result<(), Fail> {
    let alloc = rt.alloc();
    let image = guest(alloc, LOST_UPDATE)?;
    let setup = setup_of(&image, Profile::One);
    let Ok(found) = explore(alloc, &setup, BOUNDS, 100, &Unobserved) else {
        return Err(Fail::from("no search"));
    };
    assert_eq!(rt; found.hangs, 0);
    assert!(rt; found.hang.is_none());
    Ok(())
}

#[test]
fn hangs_are_sought_only_once_it_is_finished(rt: HostRuntime) -> Result<(), Fail> {
    let alloc = rt.alloc();
    let image = guest(alloc, LOST_WAKE_UP)?;
    let setup = setup_of(&image, Profile::One);
    let Ok(found) = explore(alloc, &setup, BOUNDS, 1, &Unobserved) else {
        return Err(Fail::from("no search"));
    };
    assert!(rt; found.ended == Ended::Covered);
    assert_eq!(rt; found.hangs, 0);
    assert!(rt; found.hang.is_none());
    Ok(())
}
