//! How a session ends.

/// How a session ended.
#[derive(Clone, Copy, Debug, PartialEq, Eq)]
pub enum Ended {
    /// After a line of `quit`.
    Quit,
    /// At the end of the input.
    InputEnd,
    /// The image was refused, and no line was read.
    ImageRefused,
    /// The trace was refused, and no line was read.
    TraceRefused,
    /// The trace is of no run of the guest, and no line was read.
    NotFit,
}

/// Why a session stopped.
#[derive(Clone, Copy, Debug, PartialEq, Eq)]
pub enum SessionErr {
    /// Memory ran out, before a byte was written.
    NoMem,
    /// The reader failed.
    Read,
    /// The writer failed.
    Write,
    /// As many bytes as a session may read were read, and no line of `quit` was among them.
    TooLong,
}
