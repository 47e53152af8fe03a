//! What was recorded of one thread.

ghost use Rattle.std.specs.Prelude.{◌≡◌, IfOk};
ghost use Rattle.ir_trace.specs.Recorded.{RecordedThread};

use ir_log::Log;
use ir_thread::End;
use std::alloc::AllocError;
use std::marker::Model;

/// What was recorded of one thread: how many steps it took, how it ended, and its log.
#[derive(Drop)]
pub struct ThreadTrace {
    steps: u64,
    end: End,
    log: Log,
}

impl Model for ThreadTrace {
    ghost Value = { RecordedThread };

    ghost view = { λ t. record { steps = t.steps; end = t.end; events = t.log.events } };
}

impl ThreadTrace {
    /// What was recorded, of its parts. It takes no memory.
    pub fn new(steps: u64, end: End, log: Log) -> ThreadTrace
        ensures { result ≡ record { steps = steps; end = end; events = log.events } }
    {
        ThreadTrace { steps, end, log }
    }

    /// How many steps the thread took, its end and what it released among them.
    pub fn steps(&self) -> u64
        ensures { result ≡ self.now.steps }
    {
        self.steps
    }

    /// How the thread ended.
    pub fn end(&self) -> End
        ensures { result ≡ self.now.end }
    {
        self.end
    }

    /// What the thread logged.
    pub fn log(&self) -> &Log
        ensures { result.now.events ≡ self.now.events }
    {
        &self.log
    }

    /// An equal record with memory of its own.
    ///
    /// # Errors
    /// Out of memory.
    pub fn copy(&self) -> Result<ThreadTrace, AllocError>
        ensures { IfOk result (λ t. t ≡ self.now) }
    {
        Ok(ThreadTrace {
            steps: self.steps,
            end: self.end,
            log: self.log.copy()?,
        })
    }
}
