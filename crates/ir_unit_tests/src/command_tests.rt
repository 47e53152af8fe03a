//! Lines of each command, and what they ask.

use ir_command::{ByteCount, Command, Direction, Keeping, Move, Point, Refusal, Show, parse_line};

// A line, and the command that it asks.
type Row = (&'static [u8], Command);

const STEP: Command = Command::Move(Move::Step {
    thread: 0,
    count: 3,
});

// Kept cuts are asked by their numbers.
const KEPT_CUTS: [Row; 6] = [
    (b"keep", Command::Keeping(Keeping::Keep)),
    (b"  kept\t\r", Command::Keeping(Keeping::Kept)),
    (b"load 1", Command::Keeping(Keeping::Load { number: 1 })),
    (
        b"load 0xffffffff",
        Command::Keeping(Keeping::Load { number: u32::MAX }),
    ),
    (b"drop 0", Command::Keeping(Keeping::Drop { number: 0 })),
    (b"drop\t64", Command::Keeping(Keeping::Drop { number: 64 })),
];

// Points are set and cleared.
const POINTS: [Row; 5] = [
    (
        b"break 1 0x10048",
        Command::Set(Point::Break {
            thread: 1,
            address: 65608,
        }),
    ),
    (
        b" watch\t4294967295 1048576\r",
        Command::Set(Point::Watch {
            thread: u32::MAX,
            address: 0x0010_0000,
        }),
    ),
    (
        b"owatch 0xffffffff",
        Command::Set(Point::WatchObject { object: u32::MAX }),
    ),
    (b"clear 0", Command::Clear { number: 0 }),
    (b"clear 64", Command::Clear { number: 64 }),
];

// Moves have their forms.
const MOVES: [Row; 7] = [
    (b"step 0 3", STEP),
    (
        b"step 0 4294967295",
        Command::Move(Move::Step {
            thread: 0,
            count: u32::MAX,
        }),
    ),
    (
        b"back 7 99",
        Command::Move(Move::Back {
            thread: 7,
            count: 99,
        }),
    ),
    (
        b"goto 1 18446744073709551615",
        Command::Move(Move::Goto {
            thread: 1,
            position: u64::MAX,
        }),
    ),
    (
        b"goto 1 0xFFFFFFFFFFFFFFFF",
        Command::Move(Move::Goto {
            thread: 1,
            position: u64::MAX,
        }),
    ),
    (b"start", Command::Move(Move::Start)),
    (b"end", Command::Move(Move::End)),
];

// Blanks part words, and a carriage return ends a line.
const BLANKS: [Row; 3] = [
    (b" \tstep\t0  3 ", STEP),
    (b"step 0 3\r", STEP),
    (b"quit\r", Command::Quit),
];

// Other commands have their forms.
const OTHERS: [Row; 7] = [
    (
        b"regs 4294967295",
        Command::Show(Show::Registers { thread: u32::MAX }),
    ),
    (
        b"obj 0xabCD",
        Command::Show(Show::Object { object: 0xabcd }),
    ),
    (
        b"out 00000000000000000001",
        Command::Show(Show::Output { thread: 1 }),
    ),
    (
        b"log 0x0000000000000002",
        Command::Show(Show::Log { thread: 2 }),
    ),
    (b"next 0", Command::Show(Show::Next { thread: 0 })),
    (b"pos", Command::Position),
    (b"quit", Command::Quit),
];

// Whether each line asks its command.
fn are_asked(table: &[Row]) -> bool {
    for (line, want) in table {
        if parse_line(line) != Ok(Some(*want)) {
            return false;
        }
    }
    true
}

#[test]
fn commands_have_their_forms(rt: HostRuntime) {
    assert!(rt; are_asked(&KEPT_CUTS));
    assert!(rt; are_asked(&POINTS));
    assert!(rt; are_asked(&MOVES));
    assert!(rt; are_asked(&BLANKS));
    assert!(rt; are_asked(&OTHERS));
}

const BOTH_WAYS: [(&[u8], u32, Direction); 3] = [
    (b"cont 0", 0, Direction::Forwards),
    (b"cont 4294967295", u32::MAX, Direction::Forwards),
    (b"rcont 7", 7, Direction::Backwards),
];

#[test]
fn a_thread_is_continued_both_ways(rt: HostRuntime) {
    for &(line, thread, direction) in &BOTH_WAYS {
        let want = Command::Continue { thread, direction };
        assert_eq!(rt; parse_line(line), Ok(Some(want)));
    }
}

// A line that asks for memory, and the thread, the address and the bytes that it names.
const MEMORY: [(&[u8], u32, u32, u128); 3] = [
    (b"mem 0 0x10000 4", 0, 0x0001_0000, 4),
    (b"mem 0 4294967295 256", 0, u32::MAX, 256),
    (b"mem 9 0 1", 9, 0, 1),
];

fn bytes_shown(thread: u32, address: u32, bytes: u128) -> Option<Command> {
    ByteCount::new(bytes).map(|size| {
        Command::Show(Show::Memory {
            thread,
            address,
            size,
        })
    })
}

#[test]
fn memory_is_shown(rt: HostRuntime) {
    for &(line, thread, address, bytes) in &MEMORY {
        let shown = bytes_shown(thread, address, bytes);
        assert!(rt; shown.is_some());
        assert_eq!(rt; parse_line(line), Ok(shown));
    }
}

#[test]
fn bytes_are_counted_up_to_256(rt: HostRuntime) {
    assert_eq!(rt; ByteCount::new(256).map(|count| count.get()), Some(256));
}

// Kept cuts with another number of words, or no number.
const BAD_KEPT_CUTS: [&[u8]; 6] = [
    b"keep 1",
    b"load",
    b"load 1 2",
    b"drop -1",
    b"drop 4294967296",
    b"kept all",
];

// Points likewise.
const BAD_POINTS: [&[u8]; 8] = [
    b"break 0",
    b"break 0 0 0",
    b"watch 0 x",
    b"watch 0 4294967296",
    b"owatch",
    b"owatch 0 0",
    b"clear",
    b"clear all",
];

// Threads that are continued likewise.
const BAD_WAYS: [&[u8]; 4] = [b"cont", b"cont 0 1", b"rcont", b"rcont -1"];

// Too few and too many words.
const COUNTS: [&[u8]; 24] = [
    b"step",
    b"step 0",
    b"step 0 1 2",
    b"back 0",
    b"back 0 1 2",
    b"goto 0",
    b"goto 0 1 2",
    b"start 0",
    b"end 0",
    b"pos 0",
    b"regs",
    b"regs 0 1",
    b"mem 0 0",
    b"mem 0 0 1 2",
    b"obj",
    b"obj 0 1",
    b"out",
    b"out 0 1",
    b"log",
    b"log 0 1",
    b"next",
    b"next 0 1",
    b"quit 1",
    b"quit quit",
];

// Numbers have their forms and limits.
const NUMBERS: [&[u8]; 21] = [
    b"step 0 4294967296",
    b"step 4294967296 0",
    b"back 0 0x100000000",
    b"regs 4294967296",
    b"obj 4294967296",
    b"goto 0 18446744073709551616",
    b"goto 0 99999999999999999999",
    b"goto 0 000000000000000000001",
    b"goto 0 0x00000000000000001",
    b"goto 0 0x",
    b"goto 0 1x0",
    b"goto 0 0X10",
    b"goto 0 x10",
    b"goto 0 0xg",
    b"goto 0 -1",
    b"goto 0 +1",
    b"goto 0 1.",
    b"mem 9 0 0",
    b"mem 0 0 257",
    b"mem 0 4294967296 1",
    b"step 0 a",
];

#[test]
fn bad_arguments_are_refused(rt: HostRuntime) {
    for table in [
        BAD_KEPT_CUTS.as_slice(),
        BAD_POINTS.as_slice(),
        BAD_WAYS.as_slice(),
        COUNTS.as_slice(),
        NUMBERS.as_slice(),
    ] {
        for line in table {
            assert_eq!(rt; parse_line(line), Err(Refusal::BadArgument));
        }
    }
}

// Names of no command.
const NAMES: [&[u8]; 15] = [
    b"jump",
    b"STEP 0 1",
    b"steps 0 1",
    b"ste 0 1",
    b"step,0,1",
    b"help",
    b"brea 0 0x10000",
    b"watchs 0 0x100000",
    b"owatc 0",
    b"Clear 1",
    b"continue 0",
    b"rcon 0",
    b"keeps",
    b"KEPT",
    b"\rstep 0 1",
];

#[test]
fn other_names_are_unknown(rt: HostRuntime) {
    for &line in &NAMES {
        assert_eq!(rt; parse_line(line), Err(Refusal::UnknownCommand));
    }
}

#[test]
fn a_line_has_at_most_1024_bytes(rt: HostRuntime) {
    let blanks = [b' '; 1025];
    for line in [b"".as_slice(), b" \t\r", b"\r", &blanks[..1024]] {
        assert!(rt; parse_line(line) == Ok(None));
    }
    assert!(rt; parse_line(&blanks) == Err(Refusal::LineTooLong));
}

#[test]
fn a_carriage_return_is_counted(rt: HostRuntime) {
    let mut line = [b' '; 1025];
    line[1023] = b'\r';
    assert!(rt; parse_line(&line[..1024]) == Ok(None));
    line[1024] = b'\r';
    assert!(rt; parse_line(&line) == Err(Refusal::LineTooLong));
    line[0] = b'x';
    assert!(rt; parse_line(&line) == Err(Refusal::LineTooLong));
}

#[test]
fn a_carriage_return_is_dropped_at_the_end_alone(rt: HostRuntime) {
    assert!(rt; parse_line(b"quit\r\r") == Err(Refusal::UnknownCommand));
    assert!(rt; parse_line(b"step 0 3\r ") == Err(Refusal::BadArgument));
}

#[test]
fn refusals_have_their_numbers(rt: HostRuntime) {
    let refusals = [
        Refusal::UnknownCommand,
        Refusal::BadArgument,
        Refusal::NoSuchThread,
        Refusal::NoSuchObject,
        Refusal::NoSuchNumber,
        Refusal::BadAddress,
        Refusal::LineTooLong,
        Refusal::NoMemory,
        Refusal::Full,
    ];
    for (refusal, number) in refusals.iter().zip(1u8..) {
        assert_eq!(rt; refusal.number(), number);
    }
}
