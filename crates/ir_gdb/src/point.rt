//! What gdb sets.

/// A breakpoint of all threads: `Z0`, or `Z1` if it is a hardware one.
#[derive(Clone, Copy, Debug, PartialEq, Eq)]
pub struct Breakpoint {
    pub address: u32,
    pub hardware: bool,
}

/// A watch of the words that some bytes lie in, of private memory or of the objects: `Z2`.
#[derive(Clone, Copy, Debug, PartialEq, Eq)]
pub struct Watched {
    pub address: u32,
    pub size: u32,
}

/// What becomes of a point that gdb sets.
#[derive(Clone, Copy, Debug, PartialEq, Eq)]
pub enum Setting {
    /// There is no such code or memory.
    BadAddress,
    /// It is set already.
    There,
    /// There are as many points as there may be.
    Full,
    /// It is set.
    New,
}
