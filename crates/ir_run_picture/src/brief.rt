//! Whether a thread leaves what it entered before its next event.

ghost use Rattle.std.specs.Prelude.{◌≡◌, true, false};
ghost use Rattle.ir_opened.specs.Positions.{IsInside};
ghost use Rattle.ir_run_picture.specs.Brief.{IsBrief};

use ir_fit::Fitted;
use ir_opened::leave_of;
use ir_past::Place;

/// Whether a thread leaves what an event of it entered, if that is an entry, before it logs another event. Time is as in `leave_of`.
pub fn is_brief(fitted: &Fitted, place: Place) -> bool
    requires { IsInside fitted.now place.thread place.event }
    ensures brief { result ≡ true → IsBrief fitted.now place.thread place.event }
    ensures held { result ≡ false → IsBrief fitted.now place.thread place.event → ⊥ }
{
    fitted.known();
    let steps = fitted.entries(place.thread as usize);
    let next = place.event as usize + 1;
    if next >= steps.len() {
        return true;
    }
    match leave_of(fitted, place) {
        None => true,
        Some(step) => step < steps[next],
    }
}
