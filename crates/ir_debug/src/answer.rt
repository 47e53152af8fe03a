//! What a debugger answers.

use ir_command::{Hit, Move, Refusal, Show};

/// An answer to a command. It reports on the debugger that gave it, as it is until its next command.
#[derive(Drop)]
pub enum Answer {
    /// To a move: where all threads are then.
    Moved(Move),
    /// To `cont` and `rcont`: where all threads are then, the one that was named at a hit, if there was one.
    Continued(u32, Option<Hit>),
    /// To `pos`: where all threads are.
    Position,
    /// To a command that shows something, but for `next`.
    Shown(Show),
    /// To `next`: the line of the thread's next step.
    Next(Vec<u8>),
    /// To `break`, `watch` and `owatch`: the number of the point.
    Set(u32),
    /// To `clear`: the number of the point.
    Cleared(u32),
    /// To `keep`: the number of the cut.
    Kept(u32),
    /// To `drop`: the number of the cut.
    Dropped(u32),
    /// To `kept`: each number, and the positions of its cut.
    KeptCuts,
    /// A refusal, after which the debugger is as before.
    Refused(Refusal),
    /// To `quit`.
    Bye,
}
