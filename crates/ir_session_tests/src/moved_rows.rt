//! Sessions that move two threads by what one does before the other.

use crate::sessions::{Said, are_answered};
use ir_tests::guests::TWO_COUNTERS;
use ir_tests::traces::SECOND_FIRST;
use std::test::Fail;

// Steps forwards and backwards take the other thread along.
const MOVED: [Said; 6] = [
    (
        "step 0 3\nobj 0\nlog 0\nnext 0\nback 1 1\n",
        "ready\nat 3 15\nversion 1 left 0 readers - writer 0\n\
words 00000001 00000000 00000000 00000000 00000000 00000000 00000000 00000000\nlog 1 of 1\n\
0 write 0 version 1 readers 0\nnext 0001000c addi a0, zero, 0\nat 2 14\n",
    ),
    ("back 0 99\n", "ready\nat 0 0 start\n"),
    (
        "step 0 4294967295\nend\nobj 0\nnext 0\n",
        "ready\nat 18 15 end\nat 18 18\nversion 2 left 0 readers - writer -\n\
words 00000002 00000000 00000000 00000000 00000000 00000000 00000000 00000000\nnext done\n",
    ),
    (
        "step 0 3\ngoto 1 14\ngoto 0 3\nstep 0 0\nback 1 0\n",
        "ready\nat 3 15\nat 2 14\nat 3 15\nat 3 15\nat 3 15\n",
    ),
    (
        "step 0 2\nstep 1 3\nstep 0 1\nback 1 13\nstart\nend\nback 1 1\nback 0 15\nback 1 15\n",
        "ready\nat 2 0\nat 2 3\nat 3 15\nat 2 2\nat 0 0\nat 18 18\nat 18 17\nat 3 17\nat 2 2\n",
    ),
    (
        "end\ngoto 0 18\nback 0 4\ngoto 0 16\ngoto 0 13\nstart\nstep 1 14\ngoto 0 2\ngoto 0 3\n",
        "ready\nat 18 18\nat 18 18 end\nat 14 18\nat 16 18\nat 13 18\nat 0 0\nat 0 14\nat 2 14\n\
at 3 15\n",
    ),
];

#[test]
fn moves_are_answered(rt: HostRuntime) -> Result<(), Fail> {
    are_answered(&rt, TWO_COUNTERS, SECOND_FIRST, &MOVED)
}
