//! Steps of two threads at the seats of one table.

ghost use Rattle.std.specs.Prelude.{◌≡◌, ◌≤◌, length};
ghost use Rattle.ir_cut.specs.Positions.{cut_of};
ghost use Rattle.ir_weave.specs.Woven.{IsFor, IsSeated};

use crate::guests::TWO_COUNTERS;
use crate::replays::fitted;
use crate::traces::SECOND_FIRST;
use ir_cut::Cut;
use ir_fit::Fitted;
use ir_thread::Thread;
use ir_weave::Tried::{AtTarget, NotNow, Stepped};
use ir_weave::{State, Tried, Weave, WeaveSeat};
use std::alloc::Global;
use std::test::Fail;

// What came of the last of at most `tries` tries, of which each but the last took a step.
fn try_steps(
    weave: &Weave,
    seat: &mut WeaveSeat,
    thread: &mut Thread,
    fitted: &Fitted,
    target: &Cut,
    tries: u64,
) -> Tried
    requires seat { seat.old.table_id ≡ weave.now.table.shared.table_id }
    requires table { IsFor weave.now.table.shared.key fitted.now }
    requires thread { IsSeated weave.now.table.shared.key seat.old.me.0 thread.old }
    requires target { length target.now ≡ length fitted.now.guest.entries }
    requires below { thread.old.steps ≤ cut_of target.now thread.old.number }
{
    'tries: for _try in 0..tries {
        let tried = weave.try_step(seat, thread, fitted, target);
        if tried != Stepped {
            return tried;
        }
    }
    Stepped
}

// What comes of `tries.1` tries of thread 1, from the start, and then of `tries.0` of thread 0; none if the target isn't of
// two threads.
fn try_both(
    alloc: Global,
    fitted: &Fitted,
    target: &Cut,
    tries: (u64, u64),
) -> Result<Option<(Tried, Tried)>, Fail> {
    if target.positions().len() != fitted.image().entries().len() {
        return Ok(None);
    }
    let state = State::start(alloc, fitted)?;
    let (weave, mut seats) = Weave::open(alloc, fitted, &state)?;
    let (mut threads, _objects) = state.parts();
    if seats.len() != 2 {
        return Ok(None);
    }
    let second = try_steps(
        &weave,
        &mut seats[1],
        &mut threads[1],
        fitted,
        target,
        tries.1,
    );
    let first = try_steps(
        &weave,
        &mut seats[0],
        &mut threads[0],
        fitted,
        target,
        tries.0,
    );
    Ok(Some((first, second)))
}

// Thread 1 writes the object first: it leaves it by its step 14, and thread 0 enters it by its step 2.
#[test]
fn each_step_is_taken_where_it_is_admitted(rt: HostRuntime) -> Result<(), Fail> {
    let fitted = fitted(rt.alloc(), TWO_COUNTERS, SECOND_FIRST)?;
    let rows = [
        ([18, 18], (3, 15), (Stepped, Stepped)),
        ([18, 18], (3, 14), (NotNow, Stepped)),
        ([2, 18], (3, 18), (AtTarget, Stepped)),
        // A thread that is done has no step up to a position that is past its last.
        ([19, 19], (19, 19), (NotNow, NotNow)),
    ];
    for (target, tries, wanted) in rows {
        let target = Cut::new(Vec::from_slice(rt.alloc(), &target)?);
        assert_eq!(rt;
            try_both(rt.alloc(), &fitted, &target, tries)?,
            Some(wanted)
        );
    }
    Ok(())
}
