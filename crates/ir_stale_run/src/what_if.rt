//! What a thread would have done, had it read other words.

ghost use Rattle.std.specs.Prelude.{◌≡◌};
ghost use Rattle.ir_event_walk.specs.Calls.{AllSuit};
ghost use Rattle.ir_stale_run.specs.WhatIf.{what_if};
ghost use Rattle.ir_stale_run.specs.declared.hold.Hold.TheVariants.{Reading};

use crate::differences::difference;
use crate::hold::Hold;
use crate::holding::{answer, hold_after};
use crate::reason::Reason;
use ir_event_walk::Exchange;
use ir_image::Code;
use ir_thread::Thread;

// How a thread that is answered as in these calls, but for the fresh words of the object, first differs from them. It takes no
// memory, and at most `fuel` steps.
pub fn what_if(
    code: &Code,
    thread: Thread,
    object: u8,
    fresh: &[u32],
    calls: &[Exchange],
    fuel: u64,
) -> Option<Reason>
    requires { AllSuit calls.now }
    ensures { result ≡ what_if code.now object fresh.now Reading fuel thread calls.now }
{
    let mut thread = thread;
    let mut hold = Hold::Reading;
    let mut left = fuel;
    for call in calls {
        let (taken, asked) = thread.run(code, left);
        if taken == left {
            return Some(Reason::Way);
        }
        if let Some(reason) = difference(hold, object, asked, call.asked) {
            return Some(reason);
        }
        thread.take_asked(code, asked, answer(hold, object, fresh, call));
        hold = hold_after(object, call, hold);
        left -= taken + 1;
    }
    None
}
