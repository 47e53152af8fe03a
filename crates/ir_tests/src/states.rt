//! States beside each other.

use ir_image::MOST_OBJECT_WORDS;
use ir_object::Object;
use ir_replay::State;
use ir_thread::Thread;

// Whether two threads have the same registers, counts, output and end.
fn same_thread(a: &Thread, b: &Thread) -> bool {
    for n in 0..32u8 {
        if a.mach().reg(n) != b.mach().reg(n) {
            return false;
        }
    }
    a.mach().pc() == b.mach().pc()
        && a.steps() == b.steps()
        && a.events() == b.events()
        && a.output() == b.output()
        && a.ended() == b.ended()
}

// Whether two objects have the same fields and words.
fn same_object(a: &Object, b: &Object) -> bool {
    for n in 0..MOST_OBJECT_WORDS as u8 {
        if a.get(n) != b.get(n) {
            return false;
        }
    }
    a.fields() == b.fields()
}

// Whether two states are the same.
pub fn same_state(a: &State, b: &State) -> bool {
    for (one, other) in a.threads().iter().zip(b.threads()) {
        if !same_thread(one, other) {
            return false;
        }
    }
    for (one, other) in a.objects().iter().zip(b.objects()) {
        if !same_object(one, other) {
            return false;
        }
    }
    a.threads().len() == b.threads().len() && a.objects().len() == b.objects().len()
}
