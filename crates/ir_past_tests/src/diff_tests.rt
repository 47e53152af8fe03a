//! Two traces made by hand that are compared.

use crate::page::{ENDLESS, Page, empty_page};
use crate::traces::{GOOD, LOST};
use ir_diff::Difference;
use ir_past::ask_trace;

const PARTED: &[u8] = b"common 1 0
thread 0 differs event 1 ready in 2
1 write 0 version 1 readers 0 by thread 1 event 1
2 write 0 version 0 readers 1 by first words
thread 1 differs event 0 ready in 1
1 read 0 version 0 by first words
2 read 0 version 1 by thread 0 event 1
";

const SAME: &[u8] = b"common 2 2
thread 0 same
thread 1 same
";

fn diff(rt: &HostRuntime, first: &[u8], second: &[u8]) -> (u8, Page, Page) {
    let mut out = empty_page(rt, 1000, ENDLESS);
    let mut faults = empty_page(rt, 1000, ENDLESS);
    let status = ask_trace(
        rt.alloc(),
        first,
        &Difference { second },
        &mut out,
        &mut faults,
    );
    (status.number(), out, faults)
}

#[test]
fn a_bad_and_a_good_run_part(rt: HostRuntime) {
    let (status, out, faults) = diff(&rt, &LOST, &GOOD);
    assert_eq!(rt; status, 0);
    assert_eq!(rt; out.bytes.as_slice(), PARTED);
    assert!(rt; faults.bytes.is_empty());
}

#[test]
fn a_trace_is_the_same_as_itself(rt: HostRuntime) {
    let (status, out, faults) = diff(&rt, &LOST, &LOST);
    assert_eq!(rt; status, 0);
    assert_eq!(rt; out.bytes.as_slice(), SAME);
    assert!(rt; faults.bytes.is_empty());
}
