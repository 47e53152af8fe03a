//! Laws of the flat machine, each the contract of a function without parameters.

ghost use Rattle.ir_flat.specs.Laws.{NothingStuck, WritersAlone, HeldInside, CountsFit};
ghost use Rattle.ir_flat.specs.Replies.{EachAlone};
ghost use Rattle.ir_flat.specs.Splice.{AloneIsLone, Splices};
ghost use Rattle.ir_thread.specs.State as thread;

/// In each state that a run reaches and in which a thread isn't done, some thread has a step.
pub fn nothing_stuck()
    ensures { NothingStuck }
{}

/// A writer is alone inside an object.
pub fn writers_alone()
    ensures { WritersAlone }
{}

/// A thread holds what it is inside of.
pub fn held_inside()
    ensures { HeldInside }
{}

/// Versions and counts fit the fields of an object's word.
pub fn counts_fit()
    ensures { CountsFit }
{}

/// Runs of threads alone, and one order of their object steps, make a run of all.
pub fn splices()
    ensures { Splices thread.ThreadState }
{}

/// A thread with replies that it may be given is the thread run alone with the values among them.
pub fn alone_is_lone()
    ensures { AloneIsLone }
{}

/// Each thread of a run is the thread run alone with what the run replied to it: the replies are all that it sees of
/// the others.
pub fn each_alone()
    ensures { EachAlone }
{}
