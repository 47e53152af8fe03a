//! What the environment is asked for.

/// What a call of the environment wants to know.
#[derive(Clone, Copy, Debug, PartialEq, Eq)]
pub enum EnvKind {
    /// The time.
    Clock,
    /// A random word.
    Random,
    /// The next byte of the input, or 0xFFFFFFFF at its end.
    Input,
}
