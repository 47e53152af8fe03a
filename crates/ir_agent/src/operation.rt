//! The bytecodes.

ghost use Rattle.std.specs.Prelude.{◌≡◌};
ghost use Rattle.ir_agent.specs.Operations as operations;

/// What makes a number of two.
#[derive(Clone, Copy, Debug, PartialEq, Eq)]
pub enum Binary {
    Add,
    Subtract,
    Multiply,
    DivideSigned,
    DivideUnsigned,
    RemainderSigned,
    RemainderUnsigned,
    ShiftLeft,
    ShiftRightSigned,
    ShiftRightUnsigned,
    And,
    Or,
    Xor,
    Equal,
    LessSigned,
    LessUnsigned,
}

/// What makes a number of one.
#[derive(Clone, Copy, Debug, PartialEq, Eq)]
pub enum Unary {
    LogicalNot,
    BitwiseNot,
    Extend,
    ZeroExtend,
}

/// Eight bits, or two, four or eight times as many.
#[derive(Clone, Copy, Debug, PartialEq, Eq)]
pub enum Width {
    Byte,
    Half,
    Word,
    Double,
}

/// Where a number comes from.
#[derive(Clone, Copy, Debug, PartialEq, Eq)]
pub enum Source {
    Memory(Width),
    Constant(Width),
    Register,
}

/// What orders the stack.
#[derive(Clone, Copy, Debug, PartialEq, Eq)]
pub enum Order {
    Duplicate,
    Pop,
    Swap,
    Pick,
    Rotate,
}

/// What says where the next bytecode is.
#[derive(Clone, Copy, Debug, PartialEq, Eq)]
pub enum Flow {
    GotoIf,
    Goto,
    End,
}

/// A bytecode, without the number behind it.
#[derive(Clone, Copy, Debug, PartialEq, Eq)]
pub enum Operation {
    Binary(Binary),
    Unary(Unary),
    Source(Source),
    Order(Order),
    Flow(Flow),
}

fn binary_of(code: u8) -> Option<Binary>
    ensures { result ≡ operations.binary_bytecode code }
{
    match code {
        0x02 => Some(Binary::Add),
        0x03 => Some(Binary::Subtract),
        0x04 => Some(Binary::Multiply),
        0x05 => Some(Binary::DivideSigned),
        0x06 => Some(Binary::DivideUnsigned),
        0x07 => Some(Binary::RemainderSigned),
        0x08 => Some(Binary::RemainderUnsigned),
        0x09 => Some(Binary::ShiftLeft),
        0x0a => Some(Binary::ShiftRightSigned),
        0x0b => Some(Binary::ShiftRightUnsigned),
        0x0f => Some(Binary::And),
        0x10 => Some(Binary::Or),
        0x11 => Some(Binary::Xor),
        0x13 => Some(Binary::Equal),
        0x14 => Some(Binary::LessSigned),
        0x15 => Some(Binary::LessUnsigned),
        _ => None,
    }
}

fn unary_of(code: u8) -> Option<Unary>
    ensures { result ≡ operations.unary_bytecode code }
{
    match code {
        0x0e => Some(Unary::LogicalNot),
        0x12 => Some(Unary::BitwiseNot),
        0x16 => Some(Unary::Extend),
        0x2a => Some(Unary::ZeroExtend),
        _ => None,
    }
}

fn source_of(code: u8) -> Option<Source>
    ensures { result ≡ operations.source_bytecode code }
{
    match code {
        0x17 => Some(Source::Memory(Width::Byte)),
        0x18 => Some(Source::Memory(Width::Half)),
        0x19 => Some(Source::Memory(Width::Word)),
        0x1a => Some(Source::Memory(Width::Double)),
        0x22 => Some(Source::Constant(Width::Byte)),
        0x23 => Some(Source::Constant(Width::Half)),
        0x24 => Some(Source::Constant(Width::Word)),
        0x25 => Some(Source::Constant(Width::Double)),
        0x26 => Some(Source::Register),
        _ => None,
    }
}

fn order_of(code: u8) -> Option<Order>
    ensures { result ≡ operations.order_bytecode code }
{
    match code {
        0x28 => Some(Order::Duplicate),
        0x29 => Some(Order::Pop),
        0x2b => Some(Order::Swap),
        0x32 => Some(Order::Pick),
        0x33 => Some(Order::Rotate),
        _ => None,
    }
}

fn flow_of(code: u8) -> Option<Flow>
    ensures { result ≡ operations.flow_bytecode code }
{
    match code {
        0x20 => Some(Flow::GotoIf),
        0x21 => Some(Flow::Goto),
        0x27 => Some(Flow::End),
        _ => None,
    }
}

/// The bytecode of a number, if there is one.
pub fn operation_of(code: u8) -> Option<Operation>
    ensures { result ≡ operations.operation_of code }
{
    if let Some(operation) = binary_of(code) {
        return Some(Operation::Binary(operation));
    }
    if let Some(operation) = unary_of(code) {
        return Some(Operation::Unary(operation));
    }
    if let Some(operation) = source_of(code) {
        return Some(Operation::Source(operation));
    }
    if let Some(operation) = order_of(code) {
        return Some(Operation::Order(operation));
    }
    Some(Operation::Flow(flow_of(code)?))
}

/// How many bytes a number of a width has.
pub fn bytes_in(width: Width) -> usize
    ensures { result ≡ operations.bytes_in width }
{
    match width {
        Width::Byte => 1,
        Width::Half => 2,
        Width::Word => 4,
        Width::Double => 8,
    }
}

/// How many bytes the number behind a bytecode has.
pub fn behind(operation: Operation) -> usize
    ensures { result ≡ operations.bytes_behind operation }
{
    match operation {
        Operation::Unary(Unary::Extend | Unary::ZeroExtend) | Operation::Order(Order::Pick) => 1,
        Operation::Source(Source::Constant(width)) => bytes_in(width),
        Operation::Source(Source::Register) | Operation::Flow(Flow::GotoIf | Flow::Goto) => 2,
        _ => 0,
    }
}
