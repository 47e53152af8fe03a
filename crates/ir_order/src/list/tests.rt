//! Which items turns are printed as.

use super::{Item, Turns, list_of, list_of_items};
use ir_record_command::read_order;
use std::alloc::AllocError;

#[test]
fn one_step_is_its_thread_alone(rt: HostRuntime) -> Result<(), AllocError> {
    let list = list_of(
        rt.alloc(),
        &[Turns {
            thread: 7,
            count: 1,
        }],
    )?;
    assert_eq!(rt; list.as_str(), "7");
    Ok(())
}

#[test]
fn items_stand_in_turn(rt: HostRuntime) -> Result<(), AllocError> {
    let turns = [
        Turns {
            thread: 0,
            count: 25,
        },
        Turns {
            thread: 1,
            count: 1,
        },
        Turns {
            thread: 2,
            count: 0,
        },
        Turns {
            thread: 15,
            count: 2,
        },
    ];
    let list = list_of(rt.alloc(), &turns)?;
    assert_eq!(rt; list.as_str(), "0x25,1,15x2");
    Ok(())
}

#[test]
fn long_turns_are_several_items(rt: HostRuntime) -> Result<(), AllocError> {
    let turns = [
        Turns {
            thread: 1,
            count: 1_000_000,
        },
        Turns {
            thread: 3,
            count: 2_000_001,
        },
    ];
    let list = list_of(rt.alloc(), &turns)?;
    assert_eq!(rt; list.as_str(), "1x1000000,3x1000000,3x1000000,3");
    Ok(())
}

// 300 turns of a thread, and one in which a try is refused, and more of these.
const ITEMS: [Item; 3] = [
    Item {
        thread: 1,
        count: 300,
        refused: false,
    },
    Item {
        thread: 0,
        count: 1,
        refused: true,
    },
    Item {
        thread: 1,
        count: 20,
        refused: true,
    },
];

#[test]
fn a_mark_follows_the_thread_whose_tries_are_refused(rt: HostRuntime) -> Result<(), AllocError> {
    let list = list_of_items(rt.alloc(), &ITEMS)?;
    assert_eq!(rt; list.as_str(), "1x300,0!,1!x20");
    Ok(())
}

#[test]
fn a_list_is_read_again(rt: HostRuntime) -> Result<(), AllocError> {
    let list = list_of_items(rt.alloc(), &ITEMS)?;
    let read = read_order(rt.alloc(), list.as_str(), 2).unwrap_or(Vec::new(rt.alloc()));
    assert_eq!(rt; read.as_slice(), ITEMS.as_slice());
    Ok(())
}
