//! The events of a box.

ghost use Rattle.std.specs.Prelude.{◌≡◌};
ghost use Rattle.ir_picture.specs.Boxes.{IsBox};
ghost use Rattle.ir_picture.specs.Numbers.{events_in};

use crate::event_box::EventBox;
use ir_log::Event;
use ir_trace::Trace;

/// The events of a box.
pub fn events_in<'a>(trace: &'a Trace, own: &EventBox) -> &'a [Event]
    requires { IsBox trace.now own.now }
    ensures { result.now ≡ events_in trace.now own.now }
{
    let events = trace.threads()[own.thread as usize].log().events();
    let first = own.event as usize;
    &events[first..first + own.count as usize]
}
