//! What a step comes to.

/// Why a thread ends at an instruction.
#[derive(Clone, Copy, Debug, PartialEq, Eq)]
pub enum Fault {
    /// The instruction is EBREAK.
    Breakpoint,
    /// The word at pc is the code of no instruction.
    IllegalWord,
    /// A taken branch or jump goes to an address that is no multiple of 4.
    TargetMisaligned,
    /// The pc is outside the code.
    OutsideCode,
    /// A load is misaligned, or not wholly inside the code or private memory.
    BadLoad,
    /// A store is misaligned, or not wholly inside private memory.
    BadStore,
}

/// What a step came to.
#[derive(Clone, Copy, Debug, PartialEq, Eq)]
pub enum Ran {
    /// The instruction was carried out.
    Ran,
    /// The instruction is a system call, and nothing changed.
    Call,
    /// The thread ends here, and nothing changed.
    Fault(Fault),
}
