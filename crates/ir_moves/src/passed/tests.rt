//! Which of the states that moves have passed is given up.

use super::{Passed, PassedCut};

// The number of the one that is given up of those after these numbers of steps, kept under the numbers from 1 on.
fn given_up(steps: &[u64], present: u64) -> u32 {
    let mut passed = Passed::new();
    let mut number = 0u32;
    for steps in steps {
        number = number.saturating_add(1);
        passed.add(PassedCut {
            number,
            steps: *steps,
        });
    }
    match passed.give_up(present) {
        None => 0,
        Some(cut) => cut.number,
    }
}

#[test]
fn the_one_missed_least_is_given_up(rt: HostRuntime) {
    assert_eq!(rt; given_up(&[], 0), 0);
    assert_eq!(rt; given_up(&[700], 1000), 1);
    // Far from the present, where they lie equally near to each other.
    assert_eq!(rt; given_up(&[100, 200, 300, 400], 1000), 1);
    assert_eq!(rt; given_up(&[600, 700, 800, 900], 0), 4);
    // Of two in one place the first.
    assert_eq!(rt; given_up(&[500, 900, 900, 990], 1000), 2);
    // Each halfway from the one before to the present: the first of those that are missed alike.
    assert_eq!(rt; given_up(&[500, 750, 875, 938], 1000), 1);
}
