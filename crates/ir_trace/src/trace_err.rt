//! Why a trace could not be read.

ghost use Rattle.std.specs.Prelude.{◌≡◌};
ghost use Rattle.ir_trace.specs.declared.trace_err.TraceErr.TheVariants.{NoMem};
ghost use Rattle.ir_trace.specs.Recorded.{trace_fault_number};

use std::alloc::{AllocError, AllocFailed};
use thiserror::Error;

/// The first fault from the left, or out of memory.
///
/// Fields are read from the left, each whole and then tested.
#[derive(Debug, Drop, Error)]
pub enum TraceErr {
    #[error("a field passes the end")]
    Short,
    #[error("these bytes are no trace")]
    Magic,
    #[error("a count is over its limit, there is no thread, or an event is about no object")]
    Count,
    #[error("an event of no known kind")]
    Tag,
    #[error("the reserved bytes are not 0")]
    Reserved,
    #[error("an end, its code or an input's value is out of its range")]
    Range,
    #[error("bytes stand after the end")]
    Trailing,
    #[error("memory ran out")]
    NoMem,
}

impl TraceErr {
    /// The number of the fault, 1 to 7 in the order above, or `None` for out of memory.
    pub fn number(&self) -> Option<u8>
        ensures { result ≡ trace_fault_number self.now }
    {
        match self {
            TraceErr::Short => Some(1),
            TraceErr::Magic => Some(2),
            TraceErr::Count => Some(3),
            TraceErr::Tag => Some(4),
            TraceErr::Reserved => Some(5),
            TraceErr::Range => Some(6),
            TraceErr::Trailing => Some(7),
            TraceErr::NoMem => None,
        }
    }
}

impl From<AllocError> for TraceErr {
    ghost from_gives = { λ _ e. e ≡ NoMem };

    fn from(_e: AllocError) -> TraceErr {
        TraceErr::NoMem
    }
}

impl<T: Drop> From<AllocFailed<T>> for TraceErr {
    ghost from_gives = { λ _ e. e ≡ NoMem };

    fn from(_e: AllocFailed<T>) -> TraceErr {
        TraceErr::NoMem
    }
}
