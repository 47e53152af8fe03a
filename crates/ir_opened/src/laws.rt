//! What holds of the entries of a trace in runs. The function does nothing: its contract is the law.

ghost use Rattle.ir_opened.specs.Positions.{EventsLeft};

/// What an event of a trace enters its thread leaves, in each run with the trace: there is a first step behind that of the event that leaves
/// the object.
pub fn events_left()
    ensures { EventsLeft }
{}
