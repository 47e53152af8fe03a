//! Entries and leaves of fitted traces, looked up by object, access and version.

use crate::fit_tests::{CROSSED, READ_AND_WRITE, crossed_trace};
use crate::guests::guest;
use ir_fit::{Fitted, Place, fit};
use ir_image::Image;
use ir_object::OpenGate;
use ir_runs::Access;
use ir_trace::read_trace;
use std::alloc::Global;
use std::test::Fail;

// Two threads that read object 0 and then write it. Both read before either writes, and the first writes first.
const LOST_UPDATE: [u8; 82] = [
    0x49, 0x52, 0x54, 0x31, 2, 1, 0, 0, 100, 0, 0, 0, 0, 0, 0, 0, // header
    11, 0, 0, 0, 0, 0, 0, 0, 1, 0, 0, 0, 0, 2, 0, 0, 0, // thread 0
    4, 0, 0, 0, 0, 0, 5, 0, 0, 0, 0, 0, 2, 0, 0, 0, // its entries
    11, 0, 0, 0, 0, 0, 0, 0, 1, 0, 0, 0, 0, 2, 0, 0, 0, // thread 1
    4, 0, 0, 0, 0, 0, 5, 0, 1, 0, 0, 0, 0, 0, 0, 0, // its entries
];

// The first three of the places: thread, position and version.
type Three = [Option<(u8, u64, u32)>; 3];

fn emitted(place: &Place) -> (u8, u64, u32) {
    (place.thread, place.position, place.version)
}

fn three(places: &[Place]) -> Three {
    [
        places.first().map(emitted),
        places.get(1).map(emitted),
        places.get(2).map(emitted),
    ]
}

// What is found of the object and access at versions 0, 1 and 2.
#[derive(Clone, Copy, Debug, PartialEq)]
struct Found {
    entries: [Three; 3],
    leaves: [Three; 3],
}

fn found_of(fitted: &Fitted, object: u8, access: Access) -> Found {
    Found {
        entries: [
            three(fitted.entries_at(object, access, 0)),
            three(fitted.entries_at(object, access, 1)),
            three(fitted.entries_at(object, access, 2)),
        ],
        leaves: [
            three(fitted.leaves_at(object, access, 0)),
            three(fitted.leaves_at(object, access, 1)),
            three(fitted.leaves_at(object, access, 2)),
        ],
    }
}

const NONE: Three = [None, None, None];

// The same where the trace is fitted; nothing where it isn't.
fn found_in(
    alloc: Global,
    image: Image,
    bytes: &[u8],
    object: u8,
    access: Access,
) -> Result<Option<Found>, Fail> {
    let answer = fit(alloc, image, read_trace(alloc, bytes)?, &OpenGate);
    Ok(match &answer {
        Ok(fitted) => Some(found_of(fitted, object, access)),
        Err(_) => None,
    })
}

fn lost(alloc: Global, object: u8, access: Access) -> Result<Option<Found>, Fail> {
    let image = guest(alloc, &[0, 0], 1, &READ_AND_WRITE)?;
    found_in(alloc, image, &LOST_UPDATE, object, access)
}

#[test]
fn both_readers_are_found(rt: HostRuntime) -> Result<(), Fail> {
    let readers = Found {
        entries: [[Some((0, 2, 0)), Some((1, 2, 0)), None], NONE, NONE],
        leaves: [[Some((0, 4, 0)), Some((1, 4, 0)), None], NONE, NONE],
    };
    assert_eq!(rt; lost(rt.alloc(), 0, Access::Reading)?, Some(readers));
    Ok(())
}

#[test]
fn each_writer_is_found_at_its_version(rt: HostRuntime) -> Result<(), Fail> {
    let first = [Some((0, 6, 0)), None, None];
    let second = [Some((1, 6, 1)), None, None];
    let writers = Found {
        entries: [first, second, NONE],
        leaves: [
            [Some((0, 8, 0)), None, None],
            [Some((1, 8, 1)), None, None],
            NONE,
        ],
    };
    assert_eq!(rt; lost(rt.alloc(), 0, Access::Writing)?, Some(writers));
    Ok(())
}

#[test]
fn another_object_has_none(rt: HostRuntime) -> Result<(), Fail> {
    for object in [1, 16, 255] {
        let none = Found {
            entries: [NONE, NONE, NONE],
            leaves: [NONE, NONE, NONE],
        };
        assert_eq!(rt; lost(rt.alloc(), object, Access::Writing)?, Some(none));
    }
    Ok(())
}

#[test]
fn objects_are_kept_apart(rt: HostRuntime) -> Result<(), Fail> {
    let image = guest(rt.alloc(), &[0, 48], 2, &CROSSED)?;
    let bytes = crossed_trace([1, 1], [0, 0]);
    let second = Found {
        entries: [
            [Some((1, 2, 0)), None, None],
            [Some((0, 7, 1)), None, None],
            NONE,
        ],
        leaves: [
            [Some((1, 4, 0)), None, None],
            [Some((0, 9, 1)), None, None],
            NONE,
        ],
    };
    assert_eq!(rt;
        found_in(rt.alloc(), image, &bytes, 1, Access::Writing)?,
        Some(second)
    );
    Ok(())
}
