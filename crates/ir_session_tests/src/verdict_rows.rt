//! Traces that are of no run of their guest.

use crate::sessions::are_answered;
use ir_tests::guests::{CROSSING, READ_THEN_WRITE, Source, TWO_COUNTERS};
use ir_tests::traces::EventRow::{Clock, Read, Write};
use ir_tests::traces::{Ran, TraceRow};
use std::test::Fail;

// A guest; of a trace the objects, the budget and what the threads ran; and the verdict.
type Unfit = (Source, u8, u64, &'static [Ran], &'static str);

// A thread disagrees with its part, or starves.
const DISAGREEING: [Unfit; 12] = [
    (
        READ_THEN_WRITE,
        1,
        1000,
        &[Ran(11, 1, 0, &[Read(0, 1), Write(0, 0, 0)])],
        "thread 0 starves event 0\n",
    ),
    (
        READ_THEN_WRITE,
        1,
        1000,
        &[Ran(11, 1, 0, &[Write(0, 0, 0)])],
        "thread 0 disagrees event 0 step 2\n",
    ),
    (
        READ_THEN_WRITE,
        1,
        1000,
        &[Ran(11, 1, 0, &[Read(0, 0), Write(0, 0, 1), Clock(5)])],
        "thread 0 disagrees event 2 step 10\n",
    ),
    (
        READ_THEN_WRITE,
        1,
        1000,
        &[Ran(11, 1, 0, &[Read(0, 0), Write(0, 0, 0)])],
        "incoherent thread 0 event 1 cause 3\n",
    ),
    (
        TWO_COUNTERS,
        1,
        1000,
        &[
            Ran(18, 1, 0, &[Write(0, 2, 0)]),
            Ran(18, 1, 0, &[Write(0, 0, 0)]),
        ],
        "incoherent thread 0 event 0 cause 1\n",
    ),
    (
        TWO_COUNTERS,
        2,
        1000,
        &[
            Ran(18, 1, 0, &[Write(0, 1, 0)]),
            Ran(18, 1, 0, &[Write(0, 0, 0)]),
        ],
        "header differs 2\n",
    ),
    (
        TWO_COUNTERS,
        2,
        1000,
        &[
            Ran(18, 1, 0, &[Write(0, 1, 0)]),
            Ran(18, 1, 0, &[Write(0, 1, 0)]),
            Ran(18, 1, 0, &[Write(0, 1, 0)]),
        ],
        "header differs 1\n",
    ),
    (
        CROSSING,
        2,
        1000,
        &[
            Ran(11, 2, 0, &[Write(0, 1, 0), Write(1, 0, 0)]),
            Ran(11, 2, 0, &[Write(1, 1, 0), Write(0, 0, 0)]),
        ],
        "thread 0 starves event 0\nthread 1 starves event 0\n",
    ),
    (
        CROSSING,
        2,
        2,
        &[
            Ran(11, 2, 0, &[Write(0, 1, 0), Write(1, 0, 0)]),
            Ran(11, 2, 0, &[Write(1, 1, 0), Write(0, 0, 0)]),
        ],
        "thread 0 disagrees event 0 step 2\nthread 1 disagrees event 0 step 2\n",
    ),
    (
        TWO_COUNTERS,
        1,
        1000,
        &[
            Ran(18, 1, 0, &[Write(0, 1, 0)]),
            Ran(17, 1, 0, &[Write(0, 0, 0)]),
        ],
        "thread 0 same\nthread 1 disagrees event 1 step 17\n",
    ),
    (
        TWO_COUNTERS,
        1,
        1000,
        &[
            Ran(18, 1, 0, &[Write(0, 1, 0)]),
            Ran(14, 1, 0, &[Write(0, 0, 0)]),
        ],
        "thread 0 starves event 0\nthread 1 disagrees event 1 step 14\n",
    ),
    (
        TWO_COUNTERS,
        1,
        1000,
        &[Ran(18, 1, 0, &[Write(0, 1, 0)]), Ran(18, 1, 0, &[])],
        "incoherent thread 0 event 0 cause 1\n",
    ),
];

// Events whose versions contradict each other.
const INCOHERENT: [Unfit; 7] = [
    (
        TWO_COUNTERS,
        1,
        1000,
        &[
            Ran(18, 1, 0, &[Write(0, 0, 0)]),
            Ran(18, 1, 0, &[Write(0, 0, 0)]),
        ],
        "incoherent thread 0 event 0 cause 2\n",
    ),
    (
        TWO_COUNTERS,
        1,
        1000,
        &[
            Ran(18, 1, 0, &[Write(0, 0, 1)]),
            Ran(18, 1, 0, &[Write(0, 0, 1)]),
        ],
        "incoherent thread 0 event 0 cause 2\n",
    ),
    (
        TWO_COUNTERS,
        1,
        1000,
        &[
            Ran(18, 1, 0, &[Write(0, 1, 0)]),
            Ran(18, 1, 0, &[Write(0, 1, 0)]),
        ],
        "incoherent thread 0 event 0 cause 1\n",
    ),
    (
        TWO_COUNTERS,
        1,
        1000,
        &[
            Ran(18, 1, 0, &[Write(0, 0, 1)]),
            Ran(18, 1, 0, &[Write(0, 1, 7)]),
        ],
        "incoherent thread 0 event 0 cause 3\n",
    ),
    (
        TWO_COUNTERS,
        1,
        1000,
        &[
            Ran(18, 1, 0, &[Write(0, 0, 0)]),
            Ran(18, 1, 0, &[Write(0, 1, 7)]),
        ],
        "incoherent thread 1 event 0 cause 3\n",
    ),
    (
        TWO_COUNTERS,
        1,
        1000,
        &[
            Ran(18, 1, 0, &[Write(0, 0, 0)]),
            Ran(18, 1, 0, &[Read(0, 4294967295)]),
        ],
        "incoherent thread 1 event 0 cause 1\n",
    ),
    (
        TWO_COUNTERS,
        1,
        1000,
        &[
            Ran(18, 1, 0, &[Write(0, 0, 0)]),
            Ran(18, 1, 0, &[Read(0, 0)]),
        ],
        "incoherent thread 0 event 0 cause 3\n",
    ),
];

#[test]
fn verdicts_are_told(rt: HostRuntime) -> Result<(), Fail> {
    for table in [DISAGREEING.as_slice(), INCOHERENT.as_slice()] {
        for (guest, objects, budget, threads, verdict) in table {
            let trace = TraceRow {
                objects: *objects,
                budget: *budget,
                threads,
            };
            // Lines are read by none.
            are_answered(&rt, guest, trace, &[("", verdict), ("pos\n", verdict)])?;
        }
    }
    Ok(())
}
