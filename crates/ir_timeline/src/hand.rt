//! What a move along a run changes.

use ir_moves::Checkpoints;
use ir_replay::State;

/// The threads and objects in hand, and the states that are kept for moves and searches to begin at.
#[derive(Drop)]
pub struct InHand {
    pub state: State,
    pub checkpoints: Checkpoints,
}
