//! What is reported to a gate.

use ir_object::Gate;
use ir_thread::{Ask, Thread};

// Reports a leave to the gate, just before it.
pub fn tell_leave<G: Gate>(gate: &G, thread: u8, asked: Ask) {
    if let Ask::Leave(object, access) = asked {
        gate.leaving(thread, object, access);
    }
}

// Reports an entry to the gate, just after it; a try only if the thread got in.
pub fn tell_entry<G: Gate>(gate: &G, thread: &Thread, asked: Ask) {
    match asked {
        Ask::Enter(object, access) => gate.entered(thread.number(), object, access),
        Ask::Try(object) => {
            if let Some(Some(access)) = thread.held().get(object as usize) {
                gate.entered(thread.number(), object, *access);
            }
        }
        _ => {}
    }
}

// Reports steps that the thread has taken.
pub fn tell_steps<G: Gate>(gate: &G, thread: &Thread, steps: u64) {
    if steps > 0 {
        gate.stepped(thread.number(), steps);
    }
}
