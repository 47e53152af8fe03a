//! What each thread keeps.

ghost use Rattle.ir_thread_bytes.specs.Twins.{KeepsBounds};

use ir_thread::Thread;

/// A thread is within its bounds.
pub fn bounded(thread: &Thread)
    ensures { KeepsBounds thread.now }
{
    thread.mach().pc();
    thread.output();
    if let Some(end) = thread.ended() {
        end.code();
    }
}
