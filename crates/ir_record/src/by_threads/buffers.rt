//! Buffers for what a recording by threads hands back.

use crate::outputs::Output;
use ir_crew::CrewSeat;
use ir_trace::ThreadTrace;

// Lists with room for what is handed back of each worker, made before any worker starts.
#[derive(Drop)]
pub struct Buffers<W> {
    pub seats: Vec<CrewSeat>,
    pub traces: Vec<ThreadTrace>,
    pub outputs: Vec<Output<W>>,
    // One for each worker, with room for all that a thread may print.
    pub bytes: Vec<Vec<u8>>,
    pub worlds: Vec<W>,
}
