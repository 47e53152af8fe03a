//! What holds of the events that break coherence. The functions do nothing: their contracts are the laws.

ghost use Rattle.ir_coherence.specs.Laws.{CoherentUnbroken, UnbrokenCoherent, OneCause};

/// No event of a coherent trace breaks coherence.
pub fn coherent_unbroken()
    ensures { CoherentUnbroken }
{}

/// A trace is coherent where no event breaks coherence.
pub fn unbroken_coherent()
    ensures { UnbrokenCoherent }
{}

/// An event has one first cause at most.
pub fn one_cause()
    ensures { OneCause }
{}
