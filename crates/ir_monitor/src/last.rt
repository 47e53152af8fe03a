//! The last event that a thread has made.

ghost use Rattle.std.specs.Prelude.{◌<◌, length, MatchOption};
ghost use Rattle.ir_why.specs.Waits.{AreBefore, IsLastBefore};

use crate::here::Here;
use ir_fit::Fitted;

/// The last event that a thread made before it came here; none, if it made none.
pub fn last_event(fitted: &Fitted, here: Here) -> Option<u32>
    requires { here.thread < length fitted.now.guest.entries }
    ensures { MatchOption result (AreBefore fitted.now here.thread here.position 0) (λ e. IsLastBefore fitted.now here.thread here.position e) }
{
    fitted.known();
    let steps = fitted.entries(here.thread as usize);
    for later in 0..steps.len() {
        let event = steps.len() - 1 - later;
        if steps[event] < here.position {
            return Some(event as u32);
        }
    }
    None
}
