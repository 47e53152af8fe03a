//! A state that a run along a trace passes.

use ir_object::Object;
use ir_thread::Thread;

/// The threads and objects of a guest after a part of a run.
#[derive(Drop)]
pub struct PassedState {
    pub threads: Vec<Thread>,
    pub objects: Vec<Object>,
}
