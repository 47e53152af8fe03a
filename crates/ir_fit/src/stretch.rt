//! Steps that one thread takes with no other's between.

use std::mem::size_of;

// Steps of one thread with no other's between, in a run along a trace. It says how far the thread was after them.
#[derive(Clone, Copy)]
pub struct Stretch {
    // How many events the thread had logged.
    pub events: u32,
    // How many leaves it had made.
    pub leaves: u32,
    // The thread's number.
    pub thread: u8,
}

const _: () = prove!(size_of::<Stretch>() == 12);
