//! What was recorded of one thread.

ghost use Rattle.std.specs.Prelude.{◌≢◌, ℕ, None};
ghost use Rattle.std.specs.List.{AllByRecursion};
ghost use Rattle.ir_thread.specs.declared.profile.Profile.{Profile};
ghost use Rattle.ir_trace.specs.Bounds.{IsEvent, IsRecordedThread};
ghost use Rattle.ir_record.specs.Gathered.{IsThreadTrace};

use ir_log::Log;
use ir_thread::Thread;
use ir_trace::ThreadTrace;

// What was recorded of a thread that has ended.
pub fn thread_trace(thread: &Thread, log: Log) -> ThreadTrace
    requires { thread.now.ended ≢ None }
    ensures value { IsThreadTrace thread.now log result }
    ensures fits { (profile : Profile) (objects : ℕ) → AllByRecursion (IsEvent profile objects) log.events → IsRecordedThread profile objects result }
{
    ThreadTrace::new(thread.steps(), thread.ended().unwrap(), log)
}
