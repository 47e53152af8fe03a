//! Where a thread holds an object for writing.

ghost use Rattle.std.specs.Prelude.{◌≡◌, ℕ, IfSome, IfNone};
ghost use Rattle.ir_past.specs.Past.{IsWriteAt};
ghost use Rattle.ir_opened.specs.Positions.{IsInside, LeavesAfter};
ghost use Rattle.ir_who_word.specs.Track.{IsHold};

use crate::hold::Hold;
use ir_fit::Fitted;
use ir_opened::{leave_of, step_of};
use ir_past::Place;

// The positions of the write entry of an object that made a version, and of its leave; none, if it is never left.
pub fn hold_of(fitted: &Fitted, row: usize, place: Place) -> Option<Hold>
    requires { IsInside fitted.now place.thread place.event }
    ensures hold { (o v l : ℕ) → IsWriteAt fitted.now.recorded place.thread place.event o v l → IfSome result (IsHold fitted.now o place) }
    ensures row { IfSome result (λ h. h.row ≡ row) }
    ensures none { IfNone result ((k : ℕ) → LeavesAfter fitted.now place.thread place.event k → ⊥) }
{
    fitted.known();
    let leave = leave_of(fitted, place)?;
    let entry = step_of(fitted, place);
    Some(Hold { row, entry, leave })
}
