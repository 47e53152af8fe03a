//! What a table is given, and what the view of a seat is made of.

use crate::state::State;
use ir_fit::Fitted;
use std::snapshot::Snapshot;

/// The guest with its trace, and its threads and objects as the table is opened. It has no bytes.
#[derive(Drop)]
pub struct Plan {
    pub fitted: Snapshot<Fitted>,
    pub opened: Snapshot<State>,
}

/// Of which plan a thread is, where it is, whether its next step was granted, the threads and objects that its seat last
/// met, and how many times it has looked. Its seat met them as it last looked at an object or, if it never did, as the
/// table was opened. No value of it is made.
pub struct Progress {
    pub plan: Plan,
    pub thread: u8,
    pub position: u64,
    pub granted: bool,
    pub met: Snapshot<State>,
    pub looks: u64,
}
