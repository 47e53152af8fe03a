//! What can be wrong with a source.

ghost use Rattle.std.specs.Prelude.{◌≡◌};
ghost use Rattle.ir_asm.specs.Causes.{number_of_cause};

/// The fault of a line.
#[derive(Clone, Copy, Debug, PartialEq, Eq)]
pub enum Cause {
    /// A byte that a source may not hold.
    BadByte,
    /// No such instruction or directive.
    UnknownStatement,
    /// The wrong number or form of operands.
    WrongOperands,
    /// No such register.
    UnknownRegister,
    /// A number that is malformed or out of its range.
    BadNumber,
    /// A label that is defined twice.
    LabelTwice,
    /// A label that is not defined.
    LabelMissing,
    /// A label too far away to be reached.
    TooFar,
    /// A statement or a label in the wrong section, or `.large` after a statement.
    WrongSection,
    /// Code or data over 65,536 bytes, or no code at all.
    BadSize,
    /// More threads than a guest may have, or words for an object that there is not.
    BadCount,
    /// A malformed label, or one over 64 characters.
    BadLabel,
}

impl Cause {
    /// The number that the cause goes by, 1 to 12 in the order above.
    pub fn number(self) -> u8
        ensures { result ≡ number_of_cause self }
    {
        match self {
            Cause::BadByte => 1,
            Cause::UnknownStatement => 2,
            Cause::WrongOperands => 3,
            Cause::UnknownRegister => 4,
            Cause::BadNumber => 5,
            Cause::LabelTwice => 6,
            Cause::LabelMissing => 7,
            Cause::TooFar => 8,
            Cause::WrongSection => 9,
            Cause::BadSize => 10,
            Cause::BadCount => 11,
            Cause::BadLabel => 12,
        }
    }
}
