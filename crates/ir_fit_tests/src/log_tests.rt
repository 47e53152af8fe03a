//! Logs that are filled by hand, and what is expected of their places.

use ir_log::{Cursor, Disagree, Event, Log};
use ir_runs::{Access, EnvKind};
use ir_thread::{Ask, MOST_EVENTS};
use std::alloc::{AllocError, Global};
use std::test::Fail;

const READ: Event = Event::Read {
    object: 3,
    version: 7,
};

const WRITE: Event = Event::Write {
    object: 3,
    version: 7,
    readers: 2,
};

// The log of a clock's answer and two entries.
fn three(alloc: Global) -> Result<Log, AllocError> {
    let mut events = Vec::with_capacity(alloc, 3)?;
    events.extend_from_slice(&[Event::Answer(EnvKind::Clock, 5), READ, WRITE])?;
    Ok(Log::from_events(events))
}

// Whether a log has this room and these events.
fn holds(log: &Log, room: usize, events: &[Event]) -> bool {
    log.room() == room && log.events() == events
}

#[test]
fn events_stand_in_order(rt: HostRuntime) -> Result<(), Fail> {
    let mut log = Log::new(rt.alloc(), 2)?;
    assert_eq!(rt; log.room(), 2);
    log.push(READ);
    log.push(WRITE);
    assert!(rt; holds(&log, 2, &[READ, WRITE]));
    Ok(())
}

#[test]
fn a_copy_has_the_room_too(rt: HostRuntime) -> Result<(), Fail> {
    let mut log = Log::new(rt.alloc(), 3)?;
    log.push(READ);
    let mut copy = log.copy()?;
    copy.push(WRITE);
    assert!(rt; holds(&copy, 3, &[READ, WRITE]));
    assert!(rt; holds(&log, 3, &[READ]));
    Ok(())
}

// What is asked of that log, in turn, and what is expected then.
const EXPECTED: [(Ask, Result<Event, Disagree>); 4] = [
    (
        Ask::Env(EnvKind::Clock),
        Ok(Event::Answer(EnvKind::Clock, 5)),
    ),
    (Ask::Enter(3, Access::Reading), Ok(READ)),
    (Ask::Enter(3, Access::Writing), Ok(WRITE)),
    (Ask::Enter(3, Access::Writing), Err(Disagree)),
];

#[test]
fn each_event_is_expected_in_its_turn(rt: HostRuntime) -> Result<(), Fail> {
    let log = three(rt.alloc())?;
    let mut cursor = Cursor::new();
    for (place, (ask, wanted)) in EXPECTED.iter().enumerate() {
        assert_eq!(rt; cursor.place(), place);
        let found = cursor.expect(&log, ask);
        assert!(rt; found == *wanted);
        if found.is_ok() {
            cursor.advance();
        }
    }
    Ok(())
}

#[test]
fn each_kind_is_expected(rt: HostRuntime) -> Result<(), Fail> {
    for kind in [EnvKind::Clock, EnvKind::Random, EnvKind::Input] {
        let mut log = Log::new(rt.alloc(), 1)?;
        log.push(Event::Answer(kind, 0xffff_ffff));
        assert_eq!(rt;
            Cursor::new().expect(&log, &Ask::Env(kind)),
            Ok(Event::Answer(kind, 0xffff_ffff))
        );
    }
    Ok(())
}

#[test]
fn a_log_gives_its_events_back(rt: HostRuntime) -> Result<(), Fail> {
    let log = three(rt.alloc())?;
    assert_eq!(rt; log.room(), 3);
    let events = [Event::Answer(EnvKind::Clock, 5), READ, WRITE];
    assert!(rt; log.into_events().as_slice() == events.as_slice());
    Ok(())
}

#[test]
fn a_log_has_room_for_the_most_events(rt: HostRuntime) -> Result<(), Fail> {
    let most = MOST_EVENTS as usize;
    assert_eq!(rt; Log::new(rt.alloc(), most)?.room(), most);
    Ok(())
}

#[test]
fn another_kind_disagrees(rt: HostRuntime) -> Result<(), Fail> {
    let mut log = Log::new(rt.alloc(), 1)?;
    log.push(Event::Answer(EnvKind::Random, 5));
    let cursor = Cursor::new();
    for ask in [
        Ask::Env(EnvKind::Clock),
        Ask::Env(EnvKind::Input),
        Ask::Enter(0, Access::Reading),
        Ask::Private,
    ] {
        assert_eq!(rt; cursor.expect(&log, &ask), Err(Disagree));
    }
    Ok(())
}

#[test]
fn another_object_or_access_disagrees(rt: HostRuntime) -> Result<(), Fail> {
    let log = three(rt.alloc())?;
    for (place, ask) in [
        (1, Ask::Enter(2, Access::Reading)),
        (1, Ask::Enter(3, Access::Writing)),
        (2, Ask::Enter(2, Access::Writing)),
        (2, Ask::Enter(3, Access::Reading)),
        (2, Ask::Leave(3, Access::Writing)),
    ] {
        assert_eq!(rt; Cursor::at(place).expect(&log, &ask), Err(Disagree));
    }
    Ok(())
}
