//! What running threads report of their entries, leaves and steps.

use ir_runs::Access;

/// What those who run threads report entries and leaves to: an entry just after it, a leave just before it.
pub trait Gate {
    /// The thread has just entered the object.
    fn entered(&self, thread: u8, object: u8, access: Access);

    /// The thread is about to leave the object.
    fn leaving(&self, thread: u8, object: u8, access: Access);

    /// The thread has taken `_steps` steps more. A recording reports private ones, before each other step and now and then when
    /// there is none; what opens a recording, moves through it or searches it reports steps of all kinds, now and then.
    fn stepped(&self, _thread: u8, _steps: u64) {}
}

/// Does nothing.
#[derive(Clone, Copy, Debug)]
pub struct OpenGate;

impl Gate for OpenGate {
    fn entered(&self, _thread: u8, _object: u8, _access: Access) {}

    fn leaving(&self, _thread: u8, _object: u8, _access: Access) {}
}
