//! Recording over fakes: traces and lines of small guests, refusals, each writer that fails.

ghost use Rattle.std.specs.Prelude.{◌≤◌};

use crate::device_tests::{ENDLESS, Page, empty_page};
use crate::kept_outputs::{KeptOutputs, no_outputs};
use ir_log::Event;
use ir_make::asm_run;
use ir_object::OpenGate;
use ir_record_command::{ParsedImage, RecordFiles, RecordPlan, Recording, record_run};
use ir_runs::EnvKind;
use ir_thread::Profile;
use ir_trace::{Trace, read_trace};
use std::alloc::AllocGlobal;
use std::sync::Wait;
use std::test::Fail;
use std::thread::Threads;
use std::time::{Clock, Instant};

// Two threads that add one each to a shared counter, inside for writing.
const COUNT: &str = "
        .objects 1
        .thread main
        .thread main
main:   addi a0, zero, 0
        addi a7, zero, 8
        ecall
        addi a0, zero, 0
        addi a1, zero, 0
        addi a7, zero, 10
        ecall
        addi a2, a0, 1
        addi a0, zero, 0
        addi a1, zero, 0
        addi a7, zero, 11
        ecall
        addi a0, zero, 0
        addi a7, zero, 9
        ecall
        addi a0, zero, 0
        addi a7, zero, 1
        ecall
";

// Prints a byte, doubles it and ends with it.
const DOUBLE: &str = "
        addi a0, zero, 72
        addi a7, zero, 2
        ecall
        add a0, a0, a0
        addi a7, zero, 1
        ecall
";

// Enters for reading, leaves, enters for writing, leaves, ends.
const READ_THEN_WRITE: &str = "
        .objects 1
        addi a0, zero, 0
        addi a7, zero, 7
        ecall
        addi a7, zero, 9
        ecall
        addi a7, zero, 8
        ecall
        addi a7, zero, 9
        ecall
        addi a7, zero, 1
        ecall
";

// Ends while it is inside.
const HELD_AT_THE_END: &str = "
        .objects 1
        addi a0, zero, 0
        addi a7, zero, 8
        ecall
        addi a1, zero, 0
        addi a2, zero, 7
        addi a7, zero, 11
        ecall
        ebreak
";

// Enters object 2 while it holds object 3.
const OUT_OF_ORDER: &str = "
        .objects 4
        addi a0, zero, 3
        addi a7, zero, 7
        ecall
        addi a0, zero, 2
        ecall
";

// Tries to enter, and ends with the answer.
const TRY: &str = "
        .objects 1
        addi a0, zero, 0
        addi a7, zero, 13
        ecall
        addi a7, zero, 1
        ecall
";

// Two threads that do.
const TWO_TRY: &str = "
        .objects 1
        .thread main
        .thread main
main:   addi a0, zero, 0
        addi a7, zero, 13
        ecall
        addi a7, zero, 1
        ecall
";

// Two threads that ask for the time twice.
const TWICE_THE_TIME: &str = "
        .thread main
        .thread main
main:   addi a7, zero, 4
        ecall
        ecall
        ebreak
";

// Two threads that ask for a random word twice.
const RANDOM_WORDS: &str = "
        .thread main
        .thread main
main:   addi a7, zero, 5
        ecall
        ecall
        ebreak
";

// Two threads that read three bytes.
const BYTES: &str = "
        .thread main
        .thread main
main:   addi a7, zero, 6
        ecall
        ecall
        ecall
        ebreak
";

// Threads 0 and 2 print their numbers and a letter, thread 1 nothing.
const PRINTS: &str = "
        .thread prints
        .thread silent
        .thread prints
prints: addi a7, zero, 12
        ecall
        addi a7, zero, 3
        ecall
        addi a0, zero, 65
        addi a7, zero, 2
        ecall
silent: addi a0, zero, 0
        addi a7, zero, 1
        ecall
";

const PRINTED: [&[u8]; 3] = [b"0\nA", b"", b"2\nA"];

pub fn image(rt: &HostRuntime, source: &str) -> Vec<u8> {
    let mut image = empty_page(rt, 1000, ENDLESS);
    let mut faults = empty_page(rt, 1000, ENDLESS);
    let _ = asm_run(rt.alloc(), source.as_bytes(), None, &mut image, &mut faults);
    image.bytes
}

// What a recording of an image took and gave.
#[derive(Drop)]
pub struct Run {
    pub status: u8,
    pub trace: Page,
    pub outputs: KeptOutputs,
    pub out: Page,
    pub faults: Page,
}

// How a guest is recorded.
#[derive(Clone, Copy)]
pub struct How<'a> {
    pub order: Option<&'a str>,
    pub budget: u32,
    pub random: u64,
    pub input: &'a [u8],
    pub trace_calls: u64,
    pub output_calls: u64,
    pub out_calls: u64,
    pub profile: Profile,
}

pub const HOW: How<'static> = How {
    order: Some("0"),
    budget: 1000,
    random: 0,
    input: &[],
    trace_calls: ENDLESS,
    output_calls: ENDLESS,
    out_calls: ENDLESS,
    profile: Profile::One,
};

pub fn recorded<R: Threads + Wait + Sync + Clock + AllocGlobal>(
    rt: &R,
    image: &[u8],
    how: How<'_>,
) -> Run {
    let mut files = RecordFiles {
        trace: empty_page(rt, 7, how.trace_calls),
        outputs: no_outputs(rt, how.output_calls),
    };
    let mut out = empty_page(rt, 7, how.out_calls);
    let mut faults = empty_page(rt, 7, ENDLESS);
    let recording = Recording {
        image: &ParsedImage::new(rt.alloc(), image),
        plan: &RecordPlan {
            order: how.order,
            budget: how.budget as u64,
            random: how.random,
            input: how.input,
            profile: how.profile,
        },
    };
    let recorded = record_run(rt, &OpenGate, &recording, &mut files, &mut out, &mut faults);
    let RecordFiles { trace, outputs } = files;
    Run {
        status: match recorded {
            Ok(_) => 0,
            Err(status) => status.number(),
        },
        trace,
        outputs,
        out,
        faults,
    }
}

fn with_order<'a>(order: &'a str) -> How<'a> {
    How {
        order: Some(order),
        ..HOW
    }
}

// The trace of two threads that count, by which of them comes first.
fn count_trace(first: u8, second: u8) -> [u8; 70] {
    [
        0x49, 0x52, 0x54, 0x31, 2, 1, 0, 0, 0xe8, 3, 0, 0, 0, 0, 0, 0, // header
        18, 0, 0, 0, 0, 0, 0, 0, 1, 0, 0, 0, 0, 1, 0, 0, 0, // thread 0
        5, 0, first, 0, 0, 0, 0, 0, 0, 0, // its entry
        18, 0, 0, 0, 0, 0, 0, 0, 1, 0, 0, 0, 0, 1, 0, 0, 0, // thread 1
        5, 0, second, 0, 0, 0, 0, 0, 0, 0, // its entry
    ]
}

const BOTH_LINES: &[u8] = b"thread 0 end 1 code 0 steps 18 events 1
thread 1 end 1 code 0 steps 18 events 1
";

#[test]
fn the_order_says_who_counts_first(rt: HostRuntime) {
    let image = image(&rt, COUNT);
    for (order, first, second) in [
        ("1x18", 1, 0),
        ("1", 1, 0),
        ("0,1", 0, 1),
        ("1x2,0x2,1", 1, 0),
        ("1x2,0x3,1x100", 0, 1),
    ] {
        let run = recorded(&rt, image.as_slice(), with_order(order));
        assert_eq!(rt; run.status, 0);
        assert_eq!(rt;
            run.trace.bytes.as_slice(),
            count_trace(first, second).as_slice()
        );
        assert_eq!(rt; run.out.bytes.as_slice(), BOTH_LINES);
        assert!(rt; run.faults.bytes.is_empty());
    }
}

#[test]
fn a_reader_is_logged_and_then_a_writer(rt: HostRuntime) {
    let image = image(&rt, READ_THEN_WRITE);
    let run = recorded(&rt, image.as_slice(), HOW);
    let expected: [u8; 49] = [
        0x49, 0x52, 0x54, 0x31, 1, 1, 0, 0, 0xe8, 3, 0, 0, 0, 0, 0, 0, // header
        11, 0, 0, 0, 0, 0, 0, 0, 1, 0, 0, 0, 0, 2, 0, 0, 0, // the thread
        4, 0, 0, 0, 0, 0, // read
        5, 0, 0, 0, 0, 0, 1, 0, 0, 0, // write, after one reader
    ];
    assert_eq!(rt; run.trace.bytes.as_slice(), expected.as_slice());
}

pub const WITH_TRIES: How<'static> = How {
    profile: Profile::Two,
    ..HOW
};

#[test]
fn a_try_enters_where_nobody_is_inside(rt: HostRuntime) {
    let image = image(&rt, TRY);
    let expected: [u8; 43] = [
        0x49, 0x52, 0x54, 0x32, 1, 1, 0, 0, 0xe8, 3, 0, 0, 0, 0, 0, 0, // header of the second form
        6, 0, 0, 0, 0, 0, 0, 0, 1, 1, 0, 0, 0, 1, 0, 0, 0, // the thread
        5, 0, 0, 0, 0, 0, 0, 0, 0, 0, // its entry
    ];
    for order in [Some("0"), None] {
        let run = recorded(
            &rt,
            image.as_slice(),
            How {
                order,
                ..WITH_TRIES
            },
        );
        assert_eq!(rt; run.status, 0);
        assert_eq!(rt; run.trace.bytes.as_slice(), expected.as_slice());
        assert_eq!(rt;
            run.out.bytes.as_slice(),
            b"thread 0 end 1 code 1 steps 6 events 1\n".as_slice()
        );
    }
}

#[test]
fn a_try_beside_a_writer_is_refused(rt: HostRuntime) {
    let image = image(&rt, TWO_TRY);
    let order = Some("0x3,1x5");
    let run = recorded(
        &rt,
        image.as_slice(),
        How {
            order,
            ..WITH_TRIES
        },
    );
    let expected: [u8; 62] = [
        0x49, 0x52, 0x54, 0x32, 2, 1, 0, 0, 0xe8, 3, 0, 0, 0, 0, 0, 0, // header of the second form
        6, 0, 0, 0, 0, 0, 0, 0, 1, 1, 0, 0, 0, 1, 0, 0, 0, // thread 0
        5, 0, 0, 0, 0, 0, 0, 0, 0, 0, // its entry
        5, 0, 0, 0, 0, 0, 0, 0, 1, 0, 0, 0, 0, 1, 0, 0, 0, // thread 1
        6, 0, // its refused try
    ];
    assert_eq!(rt; run.trace.bytes.as_slice(), expected.as_slice());
    assert_eq!(rt;
        run.out.bytes.as_slice(),
        b"thread 0 end 1 code 1 steps 6 events 1\nthread 1 end 1 code 0 steps 5 events 1\n".as_slice()
    );
}

#[test]
fn the_first_profile_has_no_tries(rt: HostRuntime) {
    let image = image(&rt, TRY);
    for order in [Some("0"), None] {
        let run = recorded(&rt, image.as_slice(), How { order, ..HOW });
        assert_eq!(rt; run.status, 0);
        assert_eq!(rt;
            run.out.bytes.as_slice(),
            b"thread 0 end 8 code 0 steps 3 events 0\n".as_slice()
        );
        assert_eq!(rt; run.trace.bytes.get(..4), Some(b"IRT1".as_slice()));
    }
}

#[test]
fn ends_are_reported(rt: HostRuntime) {
    for (source, budget, line) in [
        (
            HELD_AT_THE_END,
            1000,
            "thread 0 end 2 code 0 steps 9 events 1\n",
        ),
        (
            OUT_OF_ORDER,
            1000,
            "thread 0 end 10 code 0 steps 6 events 1\n",
        ),
        (DOUBLE, 1000, "thread 0 end 1 code 144 steps 6 events 0\n"),
        (DOUBLE, 2, "thread 0 end 13 code 0 steps 3 events 0\n"),
    ] {
        let image = image(&rt, source);
        let run = recorded(&rt, image.as_slice(), How { budget, ..HOW });
        assert_eq!(rt; run.status, 0);
        assert_eq!(rt; run.out.bytes.as_slice(), line.as_bytes());
    }
}

// The events of the second thread, if both logged `length` bytes of events.
fn second_events(trace: &[u8], length: u8) -> &[u8] {
    trace.get(16 + 17 + length as usize + 17..).unwrap_or(&[])
}

#[test]
fn each_thread_counts_its_calls(rt: HostRuntime) {
    let image = image(&rt, TWICE_THE_TIME);
    let run = recorded(&rt, image.as_slice(), with_order("0x4,1"));
    let events = second_events(run.trace.bytes.as_slice(), 10);
    assert_eq!(rt; events, [1, 0, 0, 0, 0, 1, 1, 0, 0, 0].as_slice());
}

#[test]
fn random_words_start_from_the_sum(rt: HostRuntime) {
    let image = image(&rt, RANDOM_WORDS);
    // PCG32 started by 0, by 1, and by 7.
    for (random, words) in [
        (u64::MAX, [2, 3, 217, 205, 17, 2, 215, 63, 132, 252]),
        (0, [2, 230, 11, 167, 51, 2, 238, 243, 188, 125]),
        (6, [2, 233, 94, 145, 145, 2, 190, 28, 174, 24]),
    ] {
        let run = recorded(&rt, image.as_slice(), How { random, ..HOW });
        assert_eq!(rt;
            second_events(run.trace.bytes.as_slice(), 10),
            words.as_slice()
        );
    }
}

#[test]
fn each_thread_reads_all_of_the_input(rt: HostRuntime) {
    let image = image(&rt, BYTES);
    for (input, events) in [
        (
            b"\x00\xff".as_slice(),
            [3, 0, 0, 0, 0, 3, 255, 0, 0, 0, 3, 255, 255, 255, 255],
        ),
        (
            b"A".as_slice(),
            [3, 65, 0, 0, 0, 3, 255, 255, 255, 255, 3, 255, 255, 255, 255],
        ),
    ] {
        let run = recorded(&rt, image.as_slice(), How { input, ..HOW });
        assert_eq!(rt;
            second_events(run.trace.bytes.as_slice(), 15),
            events.as_slice()
        );
    }
}

const NO_ORDERS: [&str; 22] = [
    "",
    "x",
    "zz",
    "0x0",
    "0x1000001",
    "2",
    "8",
    "0,",
    ",0",
    "0,,1",
    " 0",
    "0 ,1",
    "+0",
    "-0",
    "0x",
    "x1",
    "0x+1",
    "0x1x1",
    "00x1,2",
    "0;1",
    "99999999999999999999999",
    "0x99999999999999999999999",
];

#[test]
fn other_lists_are_refused(rt: HostRuntime) {
    let image = image(&rt, COUNT);
    for &order in &NO_ORDERS {
        let run = recorded(&rt, image.as_slice(), with_order(order));
        assert_eq!(rt; run.status, 3);
        assert!(rt; run.trace.bytes.is_empty() && run.out.bytes.is_empty());
        assert!(rt; run.faults.bytes.ends_with(b"\n"));
    }
}

#[test]
fn leading_zeros_are_taken(rt: HostRuntime) {
    let image = image(&rt, COUNT);
    let run = recorded(&rt, image.as_slice(), with_order("001x0018,00x1000000"));
    assert_eq!(rt; run.trace.bytes.as_slice(), count_trace(1, 0).as_slice());
}

// An item of more steps than a thread has takes neither time nor memory for the others.
#[test]
fn large_items_end_at_once(rt: HostRuntime) -> Result<(), Fail> {
    let image = image(&rt, COUNT);
    let mut order = String::from_str(rt.alloc(), "1x1000000")?;
    for _ in 1..1_500 {
        order.push_str(",1x1000000")?;
    }
    let start = Instant::now(&rt)?;
    let run = recorded(&rt, image.as_slice(), with_order(order.as_str()));
    assert!(rt; start.elapsed(&rt)?.as_secs() < 5);
    assert_eq!(rt; run.trace.bytes.as_slice(), count_trace(1, 0).as_slice());
    Ok(())
}

#[test]
fn a_refused_image_is_reported(rt: HostRuntime) {
    let image = image(&rt, DOUBLE);
    for length in [0, 3, 14, 41] {
        let run = recorded(&rt, image.get(..length).unwrap_or(&[]), with_order("x"));
        assert_eq!(rt; run.status, 3);
        assert!(rt; run.trace.bytes.is_empty() && run.out.bytes.is_empty());
        assert_eq!(rt;
            run.faults.bytes.as_slice(),
            b"ir: the image is refused, 1: a field passes the end\n".as_slice()
        );
    }
}

#[test]
fn a_failing_trace_leaves_no_line(rt: HostRuntime) {
    let image = image(&rt, COUNT);
    // Ten calls take all bytes; the next puts them in their place.
    for trace_calls in 0..=10 {
        let how = How {
            trace_calls,
            ..with_order("1x18")
        };
        let run = recorded(&rt, image.as_slice(), how);
        let prefix = trace_calls as usize * 7;
        assert_eq!(rt; run.status, 1);
        assert_eq!(rt;
            run.trace.bytes.as_slice(),
            count_trace(1, 0).get(..prefix).unwrap_or(&[])
        );
        assert!(rt; run.out.bytes.is_empty() && !run.out.failed);
        assert_eq!(rt;
            run.faults.bytes.as_slice(),
            b"ir: page can't be written: its calls are used up\n".as_slice()
        );
    }
}

#[test]
fn lines_that_fail_leave_the_trace(rt: HostRuntime) {
    let image = image(&rt, COUNT);
    for out_calls in 0..11 {
        let how = How {
            out_calls,
            ..with_order("1x18")
        };
        let run = recorded(&rt, image.as_slice(), how);
        assert_eq!(rt; run.status, 1);
        assert_eq!(rt; run.trace.bytes.as_slice(), count_trace(1, 0).as_slice());
        assert!(rt; BOTH_LINES.starts_with(run.out.bytes.as_slice()));
        assert_eq!(rt;
            run.faults.bytes.as_slice(),
            b"ir: standard output can't be written\n".as_slice()
        );
    }
}

// How many outputs were kept, each its own thread's and what that prints; None if one is not.
fn outputs_kept(run: &Run) -> Option<usize> {
    for (thread, output) in run.outputs.each.iter().enumerate() {
        let printed = PRINTED.get(thread)?;
        if output.thread != thread || output.bytes.as_slice() != *printed {
            return None;
        }
    }
    Some(run.outputs.each.len())
}

#[test]
fn what_each_thread_prints_is_its_output(rt: HostRuntime) {
    let image = image(&rt, PRINTS);
    for order in [Some("0"), Some("2x3,1,0x100"), None] {
        let run = recorded(&rt, image.as_slice(), How { order, ..HOW });
        assert_eq!(rt; run.status, 0);
        assert!(rt; run.trace.whole && run.faults.bytes.is_empty());
        assert_eq!(rt; outputs_kept(&run), Some(3));
    }
}

#[test]
fn an_output_that_fails_leaves_those_before_and_no_line(rt: HostRuntime) {
    let image = image(&rt, PRINTS);
    for output_calls in 0..3 {
        for order in [Some("0"), None] {
            let how = How {
                order,
                output_calls,
                ..HOW
            };
            let run = recorded(&rt, image.as_slice(), how);
            assert_eq!(rt; run.status, 1);
            assert!(rt; run.trace.whole && run.outputs.failed);
            assert_eq!(rt; outputs_kept(&run), Some(output_calls as usize));
            assert!(rt; run.out.bytes.is_empty() && !run.out.failed);
            assert_eq!(rt;
                run.faults.bytes.as_slice(),
                b"ir: output can't be written: its calls are used up\n".as_slice()
            );
        }
    }
}

#[test]
fn outputs_come_after_the_trace_and_before_the_lines(rt: HostRuntime) {
    let image = image(&rt, PRINTS);
    let run = recorded(
        &rt,
        image.as_slice(),
        How {
            trace_calls: 3,
            ..HOW
        },
    );
    assert!(rt; run.status == 1 && run.trace.failed);
    assert!(rt; run.outputs.each.is_empty() && !run.outputs.failed);
    let run = recorded(
        &rt,
        image.as_slice(),
        How {
            out_calls: 0,
            ..HOW
        },
    );
    assert!(rt; run.status == 1 && run.out.failed);
    assert_eq!(rt; outputs_kept(&run), Some(3));
}

// Without an order: on real threads.
const BY_THREADS: How<'static> = How { order: None, ..HOW };

// Eight threads that add one each to a shared counter.
const EIGHT: &str = "
        .thread main
        .thread main
        .thread main
        .thread main
        .thread main
        .thread main
";

// The guest whose eight threads count.
fn eight(rt: &HostRuntime) -> Result<Vec<u8>, Fail> {
    let mut source = String::from_str(rt.alloc(), EIGHT)?;
    source.push_str(COUNT)?;
    Ok(image(rt, source.as_str()))
}

// How often each version from 0 to 7 was entered for writing, and how many other events there are.
fn versions(trace: &Trace) -> ([u32; 8], u32) {
    let mut times = [0u32; 8];
    let mut others = 0u32;
    for thread in trace.threads() {
        for event in thread.log().events() {
            match *event {
                Event::Write { version, .. } if version < 8 => {
                    let place = version as usize;
                    times[place] = times[place].saturating_add(1);
                }
                _ => others = others.saturating_add(1),
            }
        }
    }
    (times, others)
}

const EIGHT_LINES: &[u8] = b"thread 0 end 1 code 0 steps 18 events 1
thread 1 end 1 code 0 steps 18 events 1
thread 2 end 1 code 0 steps 18 events 1
thread 3 end 1 code 0 steps 18 events 1
thread 4 end 1 code 0 steps 18 events 1
thread 5 end 1 code 0 steps 18 events 1
thread 6 end 1 code 0 steps 18 events 1
thread 7 end 1 code 0 steps 18 events 1
";

#[test]
fn eight_threads_count_each_once(rt: HostRuntime) -> Result<(), Fail> {
    let image = eight(&rt)?;
    for _ in 0..20 {
        let run = recorded(&rt, image.as_slice(), BY_THREADS);
        assert_eq!(rt; run.status, 0);
        assert!(rt; run.trace.whole);
        assert_eq!(rt; run.out.bytes.as_slice(), EIGHT_LINES);
        assert!(rt; run.faults.bytes.is_empty());
        let trace = read_trace(rt.alloc(), run.trace.bytes.as_slice())?;
        assert_eq!(rt; trace.threads().len(), 8);
        assert_eq!(rt; versions(&trace), ([1; 8], 0));
    }
    Ok(())
}

// A guest whose threads share nothing has one recording, but for the time.
#[test]
fn what_is_not_shared_is_recorded_alike(rt: HostRuntime) {
    for source in [
        DOUBLE,
        READ_THEN_WRITE,
        HELD_AT_THE_END,
        OUT_OF_ORDER,
        RANDOM_WORDS,
        BYTES,
    ] {
        let image = image(&rt, source);
        for budget in [0, 2, 1000] {
            let how = How {
                budget,
                random: 6,
                input: b"A",
                ..HOW
            };
            let in_order = recorded(&rt, image.as_slice(), how);
            let by_threads = recorded(&rt, image.as_slice(), How { order: None, ..how });
            assert_eq!(rt; by_threads.status, 0);
            assert_eq!(rt;
                by_threads.trace.bytes.as_slice(),
                in_order.trace.bytes.as_slice()
            );
            assert_eq!(rt;
                by_threads.out.bytes.as_slice(),
                in_order.out.bytes.as_slice()
            );
        }
    }
}

// The values of all events, thread by thread; all of them are the time.
fn times(rt: &HostRuntime, trace: &[u8]) -> Result<Vec<u32>, Fail> {
    let trace = read_trace(rt.alloc(), trace)?;
    let mut values = Vec::new(rt.alloc());
    for thread in trace.threads() {
        for event in thread.log().events() {
            match *event {
                Event::Answer(EnvKind::Clock, value) => values.push(value)?,
                _ => return Err(Fail::from("no time")),
            }
        }
    }
    Ok(values)
}

#[test]
fn milliseconds_since_the_start_are_answered(rt: HostRuntime) -> Result<(), Fail> {
    let image = image(&rt, TWICE_THE_TIME);
    let run = recorded(&rt, image.as_slice(), BY_THREADS);
    assert_eq!(rt; run.status, 0);
    match times(&rt, run.trace.bytes.as_slice())?.as_slice() {
        [a, b, c, d] => {
            assert!(rt; a <= b && c <= d);
            assert!(rt; *b < 60_000 && *d < 60_000);
        }
        _ => panic!(rt; "two times of each of two threads"),
    }
    Ok(())
}

#[test]
fn a_refused_image_runs_no_thread(rt: HostRuntime) {
    let run = recorded(&rt, b"IRI1", BY_THREADS);
    assert_eq!(rt; run.status, 3);
    assert!(rt; run.trace.bytes.is_empty() && run.out.bytes.is_empty());
    assert!(rt; run.faults.bytes.ends_with(b"\n"));
}

#[test]
fn failing_writers_are_reported_by_threads_too(rt: HostRuntime) -> Result<(), Fail> {
    let image = eight(&rt)?;
    let run = recorded(
        &rt,
        image.as_slice(),
        How {
            trace_calls: 3,
            ..BY_THREADS
        },
    );
    assert_eq!(rt; (run.status, run.trace.bytes.len()), (1, 21));
    assert!(rt; run.out.bytes.is_empty() && !run.out.failed);
    let run = recorded(
        &rt,
        image.as_slice(),
        How {
            out_calls: 3,
            ..BY_THREADS
        },
    );
    assert_eq!(rt; (run.status, run.out.bytes.len()), (1, 21));
    assert_eq!(rt; run.trace.bytes.len(), 16 + 8 * 27);
    Ok(())
}
