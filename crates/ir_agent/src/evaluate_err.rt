//! What an evaluation may fail by.

/// Why an expression has no value.
#[derive(Clone, Copy, Debug, PartialEq, Eq)]
pub enum EvaluateErr {
    /// A bytecode takes more numbers than are on the stack.
    StackEmpty,
    /// There are as many as there may be.
    StackFull,
    /// There is no such bytecode, or it wants what only a stub has that traces.
    UnknownBytecode,
    DivisionByZero,
    /// There is no register of a number.
    NoRegister,
    /// There is no memory at an address.
    NoMemory,
    /// The next bytecode, or the number behind it, isn't all in the expression.
    Outside,
    /// It hasn't ended after 4,096 steps.
    TooManySteps,
}
