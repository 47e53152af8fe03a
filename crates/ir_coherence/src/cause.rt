//! Why an event breaks coherence.

/// Why no run logs an event beside the others of its trace.
#[derive(Clone, Copy, Debug, PartialEq, Eq)]
pub enum Cause {
    /// An entry at a version above 0 that no write entry of the trace made.
    Unmade,
    /// A write entry, where another one of the trace enters the same object at the same version.
    Twice,
    /// A write entry that names another number of readers than the trace has read entries of its object at its version.
    Readers,
}

impl Cause {
    ghost use Rattle.std.specs.Prelude.{◌≡◌};
    ghost use Rattle.ir_coherence.specs.Breaking.{cause_number};

    /// The cause's number, from 1 in the order above.
    pub fn number(self) -> u8
        ensures { result ≡ cause_number self }
    {
        match self {
            Cause::Unmade => 1,
            Cause::Twice => 2,
            Cause::Readers => 3,
        }
    }
}
