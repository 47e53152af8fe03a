//! Why a trace's header isn't a guest's.

/// Why a trace's header isn't the guest's.
#[derive(Clone, Copy, Debug, PartialEq, Eq)]
pub enum HeaderCause {
    /// Another number of threads than the guest's.
    Threads,
    /// Another number of objects than the guest's.
    Objects,
}

impl HeaderCause {
    ghost use Rattle.std.specs.Prelude.{◌≡◌};
    ghost use Rattle.ir_fit.specs.Fit.{header_cause_number};

    /// The cause's number, from 1 in the order above.
    pub fn number(self) -> u8
        ensures { result ≡ header_cause_number self }
    {
        match self {
            HeaderCause::Threads => 1,
            HeaderCause::Objects => 2,
        }
    }
}
