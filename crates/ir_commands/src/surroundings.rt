//! What a command uses beside its streams.

/// What the program uses beside its streams.
#[derive(Clone, Copy)]
pub struct Surroundings<'a, R, D, G> {
    /// Memory, the clock, and the threads that record or replay.
    pub rt: &'a R,
    /// The files that the arguments name.
    pub folder: &'a D,
    /// What is told of what threads do while they record, while a session opens a recording, moves and searches, and while all outcomes
    /// are looked for.
    pub gate: &'a G,
}
