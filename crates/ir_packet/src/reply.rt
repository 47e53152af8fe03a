//! What is replied.

/// A reply that is always the same.
#[derive(Clone, Copy, Debug, PartialEq, Eq)]
pub enum Reply {
    /// `OK`
    Done,
    /// The empty reply, to a packet that isn't known.
    Nothing,
    /// `E01`: a packet of another form, or no such thread.
    NotPermitted,
    /// `E0C`: out of memory.
    NoMemory,
    /// `E0E`: no such memory, code or word.
    BadAddress,
    /// `E1C`: as many points as there may be.
    NoSpace,
    /// In words: a recording can't be changed.
    ReadOnly,
    /// Gdb came to a process that was there, so `quit` detaches.
    Attached,
    /// Code and memory are where the program has them.
    Offsets,
    /// The motions of `vCont`.
    Motions,
}

/// A signal by which gdb is told how a thread ended.
#[derive(Clone, Copy, Debug, PartialEq, Eq)]
pub enum Signal {
    /// SIGILL, an illegal instruction.
    Illegal,
    /// SIGABRT, aborted.
    Aborted,
    /// SIGBUS, an address that isn't aligned.
    Misaligned,
    /// SIGSEGV, outside the memory.
    Outside,
    /// SIGSYS, a call that can't be made.
    BadCall,
    /// SIGTERM, terminated.
    Terminated,
    /// SIGXCPU, too many steps.
    TooLong,
    /// SIGXFSZ, too much output.
    TooLarge,
}

/// Why a thread stopped.
#[derive(Clone, Copy, Debug, PartialEq, Eq)]
pub enum Reason {
    /// A step is done, a range left, or a point of a session hit.
    Step,
    SoftwareBreak,
    HardwareBreak,
    /// The next step in this direction changes a word that the watch of this address has.
    Watch(u32),
    /// The thread is at its last position.
    End,
    /// The thread is at 0.
    Begin,
    /// The thread has come to its last position, and ended so.
    Ended(Signal),
    /// The thread waits where gdb steps it alone over a breakpoint. Gdb doesn't show this, and lets the thread go on as the user asked.
    Waits,
}

/// A stop of a thread, by its id, and registers that spare gdb a `g`.
#[derive(Clone, Copy, Debug, PartialEq, Eq)]
pub struct Stop {
    /// Whether gdb interrupted it.
    pub interrupted: bool,
    pub thread: u32,
    pub reason: Reason,
    pub pc: u32,
    pub sp: u32,
    pub fp: u32,
    pub ra: u32,
}
