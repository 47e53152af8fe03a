//! Searches that end before they are over, because their outcomes or seconds are bounded.

use crate::explore_tests::{BOTH, printed, printed_before, within};
use crate::guests::LOST_UPDATE;
use ir_search::Observer;
use ir_thread::Profile;
use std::test::Fail;

const ONE_OF_BOTH: &[u8] = b"outcome 1 switches 1 order 1x25,0x25
thread 0 end 1 code 0 out 0
thread 1 end 1 code 0 out 0
object 0 words 00000002 00000000 00000000 00000000 00000000 00000000 00000000 00000000
stopped outcomes covered 1 outcomes 1 states 12
";

// Says from the first question on that the time is over.
struct Late;

impl Observer for Late {
    fn searched(&self, _states: usize, _switches: usize) {}

    fn listed(&self, _outcomes: usize) {}

    fn is_over(&self, _seconds: u32) -> bool {
        true
    }
}

#[test]
fn one_outcome_more_than_is_wanted_stops_it(rt: HostRuntime) -> Result<(), Fail> {
    let plan = within(100, 100, Profile::One).bounded(None, Some(1));
    let (status, out, _) = printed(&rt, LOST_UPDATE, &plan)?;
    assert_eq!(rt; out.bytes.as_slice(), ONE_OF_BOTH);
    assert_eq!(rt; status, 6);
    Ok(())
}

#[test]
fn as_many_outcomes_as_are_wanted_finish(rt: HostRuntime) -> Result<(), Fail> {
    let plan = within(100, 100, Profile::One).bounded(None, Some(2));
    let (status, out, _) = printed(&rt, LOST_UPDATE, &plan)?;
    assert_eq!(rt; out.bytes.as_slice(), BOTH);
    assert_eq!(rt; status, 0);
    Ok(())
}

#[test]
fn time_that_is_over_stops_a_search_of_bounded_seconds(rt: HostRuntime) -> Result<(), Fail> {
    let plan = within(100, 100, Profile::One).bounded(Some(1), None);
    let (status, out, _) = printed_before(&rt, LOST_UPDATE, &plan, &Late)?;
    assert_eq!(rt;
        out.bytes.as_slice(),
        b"stopped seconds covered - outcomes 0 states 1\n".as_slice()
    );
    assert_eq!(rt; status, 6);
    Ok(())
}

#[test]
fn without_seconds_the_time_is_never_asked(rt: HostRuntime) -> Result<(), Fail> {
    let plan = within(100, 100, Profile::One);
    let (status, out, _) = printed_before(&rt, LOST_UPDATE, &plan, &Late)?;
    assert_eq!(rt; out.bytes.as_slice(), BOTH);
    assert_eq!(rt; status, 0);
    Ok(())
}
