//! From which step to which the boxes of a run go.

ghost use Rattle.std.specs.Prelude.{◌≡◌, ◌+◌, ℕ, IfOk};
ghost use Rattle.std.specs.List.{slice_get};
ghost use Rattle.ir_opened.specs.Paired.{ArePaired};
ghost use Rattle.ir_picture.specs.Boxes.{IsBox};
ghost use Rattle.ir_picture.specs.declared.event_box.EventBox.{EventBox};
ghost use Rattle.ir_run_picture.specs.Spans.{IsSpanOfBox};

use crate::drawing::last_step;
use ir_fit::Fitted;
use ir_holds::Span;
use ir_opened::step_of;
use ir_past::Place;
use ir_picture::EventBox;
use std::alloc::{AllocError, Global};

// From which step to which a box goes.
fn span_of(fitted: &Fitted, own: &EventBox) -> Span
    requires { IsBox fitted.now.recorded own.now }
    ensures { IsSpanOfBox fitted.now own.now result }
{
    fitted.known();
    let EventBox {
        thread,
        event,
        count,
    } = *own;
    let first = step_of(fitted, Place { thread, event });
    let end = Place {
        thread,
        event: event + (count - 1),
    };
    match last_step(fitted, end) {
        Some(last) => Span {
            thread,
            first,
            last,
        },
        None => Span {
            thread,
            first,
            last: first,
        },
    }
}

/// From which step to which each of these boxes goes. Time is linear in the boxes, and for an entry in the leaves of its thread behind it.
///
/// # Errors
/// Out of memory.
pub fn spans_of(alloc: Global, fitted: &Fitted, boxes: &[EventBox]) -> Result<Vec<Span>, AllocError>
    requires { (k : ℕ) (b : EventBox) → slice_get boxes.now k ≡ Some b → IsBox fitted.now.recorded b }
    ensures { IfOk result (λ v. ArePaired (IsSpanOfBox fitted.now) boxes.now v.items) }
{
    let mut spans = Vec::with_capacity(alloc, boxes.len())?;
    for own in boxes {
        spans.push(span_of(fitted, own))?;
    }
    Ok(spans)
}
