//! What holds of entries in runs. The functions do nothing: the contract of each is the law.

ghost use Rattle.ir_past.specs.Leaving.{EntriesLeft};
ghost use Rattle.ir_past.specs.Returning.{ReturnsCounted};

/// A thread that reads an object at version v, and enters it next for writing at version w, leaves it between. Until it comes back other threads
/// leave the object after writing w - v times. So the write is stale exactly where another thread wrote between.
pub fn returns_counted()
    ensures { ReturnsCounted }
{}

/// What a thread enters it leaves, in each complete run: by a later step, at the version that it found.
pub fn entries_left()
    ensures { EntriesLeft }
{}
