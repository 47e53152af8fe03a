//! What statements place.

ghost use Rattle.std.specs.Prelude.{ℕ, List};

use crate::form::Section;
use ir_isa::{BranchOp, Register};
use std::marker::Model;

/// The name of a label; in clauses its bytes.
#[derive(Drop)]
pub struct Name {
    pub text: Vec<u8>,
}

impl Model for Name {
    ghost Value = { List ℕ };

    ghost view = { λ n. n.text.items };
}

/// Words, one after the other; in clauses the list of them.
#[derive(Drop)]
pub struct WordList {
    pub words: Vec<u32>,
}

impl Model for WordList {
    ghost Value = { List ℕ };

    ghost view = { λ w. w.words.items };
}

/// Bytes, one after the other; in clauses the list of them.
#[derive(Drop)]
pub struct ByteList {
    pub bytes: Vec<u8>,
}

impl Model for ByteList {
    ghost Value = { List ℕ };

    ghost view = { λ b. b.bytes.items };
}

/// An operand that was read: a register, a number, an address `number(register)` or a name.
#[derive(Drop)]
pub enum Operand {
    Index(Register),
    Integer(i64),
    Offset(i64, Register),
    Symbol(Name),
}

/// What a statement places or says: words that it alone gives, words that wait for a label, bytes, that the image is large, the section from
/// here on, a thread's entry, the number of objects, an object's first words.
#[derive(Drop)]
pub enum Item {
    Code(WordList),
    BranchTo(BranchOp, Register, Register, Name),
    JumpTo(Register, Name),
    LoadAddress(Register, Name),
    Filled(ByteList),
    Enlarged,
    Within(Section),
    Entry(Name),
    Count(u32),
    First(u32, WordList),
    Nothing,
}

/// Where a label is.
#[derive(Clone, Copy, Debug, PartialEq, Eq)]
pub struct Place {
    pub section: Section,
    pub address: u32,
}

/// An item with its line and its address.
#[derive(Drop)]
pub struct Placed {
    pub line: usize,
    pub address: u32,
    pub item: Item,
}
