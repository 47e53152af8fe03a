//! Where the threads of the rows read, write and leave.

ghost use Rattle.std.specs.Prelude.{◌≡◌, ◌+◌, ℕ, IfSome, IfNone};
ghost use Rattle.ir_past.specs.Past.{IsRow};
ghost use Rattle.ir_events.specs.Events.{event_entry};
ghost use Rattle.ir_opened.specs.Positions.{IsInside, LeavesAfter};
ghost use Rattle.ir_stale_run.specs.Watch.{IsSpan};

use crate::span::Span;
use ir_fit::Fitted;
use ir_opened::{leave_of, step_of};
use ir_past::{Place, StaleWrite};

// The position of a thread behind one of its events.
fn behind(fitted: &Fitted, thread: u8, event: u32) -> u64
    requires { IsInside fitted.now thread event }
    ensures { result ≡ event_entry fitted.now thread event + 1 }
{
    fitted.known();
    step_of(fitted, Place { thread, event }) + 1
}

// The positions of a row; none, if its write entry is never left.
pub fn span_of(fitted: &Fitted, row: usize, stale: &StaleWrite) -> Option<Span>
    requires { IsRow fitted.now.recorded stale.now }
    ensures found { IfSome result (IsSpan fitted.now stale.now) }
    ensures row { IfSome result (λ s. s.row ≡ row) }
    ensures none { IfNone result ((k : ℕ) → LeavesAfter fitted.now stale.now.thread stale.now.event k → ⊥) }
{
    fitted.known();
    let read = behind(fitted, stale.thread, stale.read);
    let write = behind(fitted, stale.thread, stale.event);
    let entry = Place {
        thread: stale.thread,
        event: stale.event,
    };
    let last = leave_of(fitted, entry)?;
    Some(Span {
        row,
        object: stale.object,
        read,
        write,
        end: last + 1,
    })
}
