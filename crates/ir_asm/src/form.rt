//! The forms of statements, and the kinds of their operands.

use ir_image::ImageForm;
use ir_isa::{BranchOp, ImmediateOp, LoadOp, RegisterOp, ShiftOp, StoreOp};

/// Where a statement puts its bytes.
#[derive(Clone, Copy, Debug, PartialEq, Eq)]
pub enum Section {
    Text,
    Data,
}

/// What a statement's name asks for, and of statements of objects the form of their image.
#[derive(Clone, Copy, Debug, PartialEq, Eq)]
pub enum Form {
    Registers(RegisterOp),
    Immediates(ImmediateOp),
    Shifts(ShiftOp),
    Loads(LoadOp),
    JumpsTo,
    Stores(StoreOp),
    Branches(BranchOp),
    Jumps,
    LoadsUpper,
    AddsUpper,
    Fences,
    Calls,
    Breaks,
    DoesNothing,
    LoadsValue,
    Enlarges,
    Sections(Section),
    Words,
    Bytes,
    Space,
    Thread,
    Objects(ImageForm),
    Object(ImageForm),
}

/// What an operand may be; numbers and distances with their least and greatest.
#[derive(Clone, Copy, Debug, PartialEq, Eq)]
pub enum Kind {
    Register,
    Number(i64, i64),
    Address,
    Target(i64, i64),
    Value,
    Label,
}
