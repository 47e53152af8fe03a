//! The logs of a fitted trace.

ghost use Rattle.std.specs.Prelude.{◌≡◌, ◌<◌, length};
ghost use Rattle.ir_trace.specs.Recorded.{recorded_thread};
ghost use Rattle.ir_fit.specs.Placed.{placed_at, placed_of};
ghost use Rattle.ir_fit.specs.Within.{IsFitted};

use ir_fit::Fitted;
use ir_log::Event;

// What thread t logged, an event for each of its entries' positions.
pub fn log_of(fitted: &Fitted, t: usize) -> &[Event]
    requires { t < length fitted.now.guest.entries }
    ensures value { result.now ≡ (recorded_thread fitted.now.recorded t).events }
    ensures size { length result.now ≡ length (placed_at (placed_of fitted.now) t).entries }
    ensures fitted { IsFitted fitted.now }
{
    fitted.known();
    fitted.trace().threads()[t].log().events()
}

// How many steps thread t takes.
pub fn steps_of(fitted: &Fitted, t: usize) -> u64
    requires { t < length fitted.now.guest.entries }
    ensures { result ≡ (recorded_thread fitted.now.recorded t).steps }
{
    fitted.known();
    fitted.trace().threads()[t].steps()
}
