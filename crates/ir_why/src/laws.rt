//! What holds of what events need and of chains of waits. The functions do nothing: their contracts are the laws.

ghost use Rattle.ir_why.specs.Laws.{NeedsLeftBefore, WaitsBefore};

/// A consistent cut that has the step of an event has the step that leaves what the event needs.
pub fn needs_left_before()
    ensures { NeedsLeftBefore }
{}

/// It has the steps of each wait of the chain from that event: the one that logs what waits, and the one that leaves what is needed.
pub fn waits_before()
    ensures { WaitsBefore }
{}
