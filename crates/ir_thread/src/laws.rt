//! Laws of threads, each the contract of a function without parameters.

ghost use Rattle.std.specs.Prelude.{◌≡◌, length};
ghost use Rattle.ir_mach.specs.Core.{memory_size};
ghost use Rattle.ir_mach.specs.Pages.{ArePages, pages_of};
ghost use Rattle.ir_thread.specs.Alone.{RunsAlone};
ghost use Rattle.ir_thread.specs.Conditions.{EndsByTheFirst};
ghost use Rattle.ir_thread.specs.Frames.{frame_of, framed_thread};
ghost use Rattle.ir_thread.specs.Closing.{ThreadsClose};
ghost use Rattle.ir_thread.specs.State.{ThreadState};

/// A thread enters objects in rising order, uses only what it holds, releases all that it holds
/// after its end, and is done when it holds nothing.
pub fn closes()
    ensures { ThreadsClose }
{}

/// Whoever answers a thread, it is the thread run alone with the values that it was answered.
pub fn runs_alone()
    ensures { RunsAlone }
{}

/// A running thread's step ends it by the first of its conditions that isn't met: a step left of its budget, then what the
/// instruction needs, then what the system call needs, in the order of their list.
pub fn ends_by_the_first()
    ensures { EndsByTheFirst }
{}

/// A thread's private memory is 16 pages of 4,096 bytes, and building from its frame and these pages gives that thread.
pub fn built_again()
    ensures pages { (s : ThreadState) → length s.core.memory ≡ memory_size → ArePages (pages_of s.core.memory) }
    ensures same { (s : ThreadState) → length s.core.memory ≡ memory_size → framed_thread (frame_of s) (pages_of s.core.memory) ≡ s }
{}
