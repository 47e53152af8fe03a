//! A debugger over a guest of two threads that write one object, one after the other.

use ir_command::{ByteCount, Command, Direction, Move, Point, Refusal, Show};
use ir_debug::{Answer, Debugger};
use ir_object::{Given, Hands, OpenGate};
use ir_tests::guests::TWO_COUNTERS;
use ir_tests::replays::fitted;
use ir_tests::traces::SECOND_FIRST;
use std::alloc::Global;
use std::test::Fail;
use std::thread::Threads;
use std::time::Clock;

// What kind of answer it is.
#[derive(Clone, Copy, Debug, PartialEq)]
enum Kind {
    Moved,
    Position,
    Shown,
    Next,
    Point,
    Kept,
    Refused(Refusal),
    Bye,
}

fn kind_of(answer: &Answer) -> Kind {
    match answer {
        Answer::Moved(_) | Answer::Continued(..) => Kind::Moved,
        Answer::Position => Kind::Position,
        Answer::Shown(_) => Kind::Shown,
        Answer::Next(_) => Kind::Next,
        Answer::Set(_) | Answer::Cleared(_) => Kind::Point,
        Answer::Kept(_) | Answer::Dropped(_) | Answer::KeptCuts => Kind::Kept,
        Answer::Refused(refusal) => Kind::Refused(*refusal),
        Answer::Bye => Kind::Bye,
    }
}

type Pair = (u64, u64);

// The positions of both threads.
fn positions(debugger: &Debugger) -> Option<Pair> {
    match debugger.at().positions() {
        [first, second] => Some((*first, *second)),
        _ => None,
    }
}

// What is seen after a command: the answer's kind, and the positions.
type Sight = (Kind, Option<Pair>);

fn sight_after<H: Hands>(hands: &H, debugger: &mut Debugger, command: &Command) -> Sight {
    let answer = debugger.command(hands, command);
    (kind_of(&answer), positions(debugger))
}

// What is seen after each of eight commands.
fn sights<H: Hands>(hands: &H, debugger: &mut Debugger, commands: &[Command; 8]) -> [Sight; 8] {
    let mut all = [(Kind::Bye, None); 8];
    for i in 0..8 {
        all[i] = sight_after(hands, debugger, &commands[i]);
    }
    all
}

// The same from the start.
fn walk<R: Threads + Clock + Sync>(
    rt: &R,
    alloc: Global,
    commands: &[Command; 8],
) -> Result<[Sight; 8], Fail> {
    let mut debugger = Debugger::open(alloc, fitted(alloc, TWO_COUNTERS, SECOND_FIRST)?)?;
    let hands = Given::new(rt, alloc, &OpenGate);
    Ok(sights(&hands, &mut debugger, commands))
}

// Moves, and what is seen after each.
const MOVES: [Command; 8] = [
    Command::Move(Move::Step {
        thread: 0,
        count: 3,
    }),
    Command::Move(Move::Back {
        thread: 1,
        count: 1,
    }),
    Command::Move(Move::Goto {
        thread: 0,
        position: u64::MAX,
    }),
    Command::Move(Move::End),
    Command::Move(Move::Goto {
        thread: 1,
        position: 15,
    }),
    Command::Move(Move::Start),
    Command::Move(Move::Step {
        thread: 1,
        count: u32::MAX,
    }),
    Command::Move(Move::Back {
        thread: 1,
        count: u32::MAX,
    }),
];

const MOVED: [Sight; 8] = [
    (Kind::Moved, Some((3, 15))),
    (Kind::Moved, Some((2, 14))),
    (Kind::Moved, Some((18, 15))),
    (Kind::Moved, Some((18, 18))),
    (Kind::Moved, Some((18, 15))),
    (Kind::Moved, Some((0, 0))),
    (Kind::Moved, Some((0, 18))),
    (Kind::Moved, Some((0, 0))),
];

#[test]
fn moves_take_the_other_thread_along(rt: HostRuntime) -> Result<(), Fail> {
    assert_eq!(rt; walk(&rt, rt.alloc(), &MOVES)?, MOVED);
    Ok(())
}

// Commands of which some name what isn't there, and two bytes that are.
fn shows(two: ByteCount) -> [Command; 8] {
    [
        Command::Move(Move::Step {
            thread: 0,
            count: 3,
        }),
        Command::Move(Move::Back {
            thread: 2,
            count: 1,
        }),
        Command::Show(Show::Object { object: 0 }),
        Command::Show(Show::Object { object: 1 }),
        Command::Show(Show::Memory {
            thread: 1,
            address: 0x0011_0000 - 2,
            size: two,
        }),
        Command::Show(Show::Memory {
            thread: 1,
            address: u32::MAX,
            size: two,
        }),
        Command::Position,
        Command::Quit,
    ]
}

// What is seen after them.
const SHOWN: [Sight; 8] = [
    (Kind::Moved, Some((3, 15))),
    (Kind::Refused(Refusal::NoSuchThread), Some((3, 15))),
    (Kind::Shown, Some((3, 15))),
    (Kind::Refused(Refusal::NoSuchObject), Some((3, 15))),
    (Kind::Shown, Some((3, 15))),
    (Kind::Refused(Refusal::BadAddress), Some((3, 15))),
    (Kind::Position, Some((3, 15))),
    (Kind::Bye, Some((3, 15))),
];

#[test]
fn what_is_not_there_is_refused(rt: HostRuntime) -> Result<(), Fail> {
    let Some(two) = ByteCount::new(2) else {
        return Ok(());
    };
    assert_eq!(rt; walk(&rt, rt.alloc(), &shows(two))?, SHOWN);
    Ok(())
}

// Points that are set and cleared, moves to where they hit, and what is seen after each.
const POINTS: [Command; 8] = [
    Command::Set(Point::WatchObject { object: 0 }),
    Command::Set(Point::Break {
        thread: 1,
        address: 0x0001_0002,
    }),
    Command::Continue {
        thread: 0,
        direction: Direction::Forwards,
    },
    Command::Continue {
        thread: 0,
        direction: Direction::Forwards,
    },
    Command::Clear { number: 2 },
    Command::Clear { number: 1 },
    Command::Continue {
        thread: 0,
        direction: Direction::Backwards,
    },
    Command::Continue {
        thread: 2,
        direction: Direction::Backwards,
    },
];

const CONTINUED: [Sight; 8] = [
    (Kind::Point, Some((0, 0))),
    (Kind::Refused(Refusal::BadAddress), Some((0, 0))),
    (Kind::Moved, Some((15, 15))),
    (Kind::Moved, Some((18, 15))),
    (Kind::Refused(Refusal::NoSuchNumber), Some((18, 15))),
    (Kind::Point, Some((18, 15))),
    (Kind::Moved, Some((0, 15))),
    (Kind::Refused(Refusal::NoSuchThread), Some((0, 15))),
];

#[test]
fn points_are_set_and_found(rt: HostRuntime) -> Result<(), Fail> {
    assert_eq!(rt; walk(&rt, rt.alloc(), &POINTS)?, CONTINUED);
    Ok(())
}
