//! States and threads beside what answers them.

ghost use Rattle.ir_world.specs.Sources.{Source};
ghost use Rattle.ir_state_store.specs.Nodes as nodes;
ghost use Rattle.ir_thread.specs.State.{ThreadState};

use ir_flat::Flat;
use ir_thread::Thread;
use ir_world::Sources;
use std::marker::Model;

/// A guest's state, and what answers each of its threads.
#[derive(Drop)]
pub struct SourcedFlat<'a> {
    pub flat: Flat<'a>,
    pub sources: Vec<Sources<'a>>,
}

impl<'a> Model for SourcedFlat<'a> {
    ghost Value = { nodes.SourcedFlat };

    ghost view = { λ s. record { flat = s.flat; sources = s.sources.items } };
}

/// A thread beside what answers it.
#[derive(Drop)]
pub struct SourcedThread<'a> {
    pub thread: Thread,
    pub source: Sources<'a>,
}

impl<'a> Model for SourcedThread<'a> {
    ghost Value = { ThreadState × Source };

    ghost view = { λ s. (s.thread, s.source) };
}
