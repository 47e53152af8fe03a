//! What runs one thread of a recording.

use crossbeam_utils::CachePadded;
use ir_crew::CrewSeat;
use ir_log::Log;
use ir_thread::Thread;

// One thread of the guest, its seat at the table of the objects, its log and its world.
#[derive(Drop)]
pub struct Worker<W> {
    pub seat: CrewSeat,
    pub thread: Thread,
    pub log: Log,
    pub world: W,
    // Begins a cache line, and ends one. The end of one thread's state and the registers of the next would stand on one line.
    pub apart: CachePadded<()>,
}
