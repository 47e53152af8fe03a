//! An event with the step that logged it.

use ir_log::Event;

/// An event of a run, with the step that logged it.
#[derive(Clone, Copy, Debug)]
pub struct Logged {
    /// The number of the thread.
    pub thread: usize,
    /// The number of the event in its thread's log, from 0 on.
    pub number: usize,
    /// How many steps the thread took before.
    pub step: u64,
    /// The pc before the step.
    pub pc: u32,
    /// What the step logged.
    pub event: Event,
}
