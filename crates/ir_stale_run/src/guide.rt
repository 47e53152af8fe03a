//! What a walk over a recorded run that looks at rows goes by.

use ir_event_walk::Route;
use ir_past::StaleWrite;

/// A recorded run, and the rows that are looked at on a walk over it.
#[derive(Clone, Copy)]
pub struct Guide<'a, 'b> {
    /// The run.
    pub route: Route<'a>,
    /// The stale writes of the trace.
    pub rows: &'b [StaleWrite],
    /// Whether a thread is copied at the read entry of a row.
    pub copies: bool,
}
