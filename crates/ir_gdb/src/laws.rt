//! What holds of gdb's moves. The functions do nothing: their contracts are the laws.

ghost use Rattle.ir_gdb.specs.Laws.{ContinueIsSession, ContinueBackIsSession, StepIsSession, StepBackIsSession, NoHitIsPassed};
ghost use Rattle.ir_gdb.specs.Laws.{NoneIsBlocked, EachHitIsShownOnce, NoneIsShownTwice, ShownConditionIsMet, NoBadEndIsHidden};

/// A thread that moves alone ends where a session's command leads, with gdb's breakpoints set there too; no watch is set, the
/// thread doesn't wait, and where it continues no breakpoint has conditions.
pub fn alone_is_session()
    ensures continues { ContinueIsSession }
    ensures continues_back { ContinueBackIsSession }
    ensures steps { StepIsSession }
    ensures steps_back { StepBackIsSession }
{}

/// A move of the threads together passes no hit of a thread: no other than the thread that stops has one up to where it comes, and
/// that thread has none before its stop.
pub fn no_hit_is_passed()
    ensures { NoHitIsPassed }
{}

/// Threads whose hits are on the way don't all block each other.
pub fn none_is_blocked()
    ensures { NoneIsBlocked }
{}

/// `continue` repeated to the end shows each hit of each thread at a point without conditions once, and each at one with conditions
/// at most once; so does `reverse-continue` to the start; no watch is set.
pub fn each_hit_is_shown_once()
    ensures once { EachHitIsShownOnce }
    ensures never_twice { NoneIsShownTwice }
{}

/// Where `continue` or `reverse-continue` shows a thread at a hit of breakpoints with conditions alone, one of them is met by what gdb
/// sees there; no watch is set.
pub fn shown_condition_is_met()
    ensures { ShownConditionIsMet }
{}

/// Where a move of the threads together comes to the end of the recording, and gdb is told only that there is no more history, no thread
/// ended badly.
pub fn no_bad_end_is_hidden()
    ensures { NoBadEndIsHidden }
{}
