//! Sixteen threads at one object of sixteen words, recorded and replayed.

use crate::guests::SIXTEEN_COUNTERS;
use crate::meeting::Yielding;
use crate::recordings::{BUDGET, tried_by_threads, tried_in_order};
use crate::replays::{in_order, is_same, last};
use ir_fit::Fitted;
use ir_object::{Fields, OpenGate};
use ir_replay::State;
use std::alloc::Global;
use std::test::Fail;

// How many threads there are, the first word of the only object, its version, and who is inside.
type Seen = (usize, u32, u32, u8);

fn seen(state: &State) -> Option<Seen> {
    match state.objects() {
        [object] => {
            let Fields {
                version,
                inside,
                ..
            } = object.fields();
            Some((state.threads().len(), object.get(0), version, inside))
        }
        _ => None,
    }
}

// What is seen after each thread's last step.
fn seen_at_the_end(alloc: Global, fitted: &Fitted) -> Result<Option<Seen>, Fail> {
    match in_order(alloc, fitted, &last(alloc, fitted)?)? {
        Some(state) => Ok(seen(&state)),
        None => Ok(None),
    }
}

const COUNTED: Seen = (16, 16, 16, 0);

#[test]
fn sixteen_threads_count_in_order(rt: HostRuntime) -> Result<(), Fail> {
    let fitted = tried_in_order(rt.alloc(), SIXTEEN_COUNTERS, &[15, 15, 15], BUDGET)?;
    assert_eq!(rt; seen_at_the_end(rt.alloc(), &fitted)?, Some(COUNTED));
    Ok(())
}

#[test]
fn sixteen_threads_count_side_by_side(rt: HostRuntime) -> Result<(), Fail> {
    let (fitted, _outputs) = tried_by_threads(&rt, rt.alloc(), SIXTEEN_COUNTERS, &OpenGate)?;
    assert_eq!(rt; seen_at_the_end(rt.alloc(), &fitted)?, Some(COUNTED));
    Ok(())
}

#[test]
fn sixteen_threads_are_replayed_side_by_side(rt: HostRuntime) -> Result<(), Fail> {
    let (fitted, _outputs) = tried_by_threads(&rt, rt.alloc(), SIXTEEN_COUNTERS, &Yielding::new())?;
    let target = last(rt.alloc(), &fitted)?;
    assert!(rt; is_same(&rt, rt.alloc(), &fitted, &target)?);
    Ok(())
}
