//! What is known of a thread between two looks at it.

use ir_log::Event;

// What is known of a thread since it was last looked at.
#[derive(Clone, Copy, PartialEq, Eq)]
pub enum Readiness {
    // It was not looked at since something changed for it.
    Ready,
    // It waits until its object can be entered as this event says, the next one that it logs.
    Waits(Event),
    // It goes no further until a state is kept.
    Paused,
    // It has no further step that follows the trace.
    Stopped,
}
