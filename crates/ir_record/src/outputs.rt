//! What is handed back of a recording beside the trace.

/// What one thread printed, and its world.
#[derive(Drop)]
pub struct Output<W> {
    /// The bytes in the order in which they were printed.
    pub bytes: Vec<u8>,
    /// The world that answered the thread.
    pub world: W,
}

/// What each thread printed, and its world.
#[derive(Drop)]
pub struct Outputs<W> {
    /// The threads in the order of their numbers.
    pub each: Vec<Output<W>>,
}
