//! Laws of frozen threads, each the contract of a function without parameters.

ghost use Rattle.ir_thread_bytes.specs.Twins.{ChangesComeBack, IsThawedAgain, TellsApart};

/// Two moments of a thread have equal bytes exactly where no thread can tell them apart.
pub fn tells_apart()
    ensures { TellsApart }
{}

/// A thread that goes on comes back from its bytes and its frame as it was.
pub fn comes_back()
    ensures { IsThawedAgain }
{}

/// A thread comes back from its frame and what is changed in its private memory.
pub fn changes_come_back()
    ensures { ChangesComeBack }
{}
