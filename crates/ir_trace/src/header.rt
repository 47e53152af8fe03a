//! What comes before the threads of a trace.

use ir_thread::Profile;

/// Which system calls a trace's guest has, how many threads and objects, and how many steps each thread might take.
#[derive(Clone, Copy)]
pub struct Header {
    pub profile: Profile,
    pub threads: u8,
    pub objects: u8,
    pub budget: u64,
}
