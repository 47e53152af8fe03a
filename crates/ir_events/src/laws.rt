//! What holds of the positions of events. The function does nothing: its contract is the law.

ghost use Rattle.ir_events.specs.Laws.{EventsLogged};

/// In each run with the trace, the step at the position of an event logs that event.
pub fn events_logged()
    ensures { EventsLogged }
{}
