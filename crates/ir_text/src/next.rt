//! The next step of a thread.

ghost use Rattle.std.specs.Prelude.{◌≡◌, ◌++◌, IfOk, codes};
ghost use Rattle.ir_image.specs.Guest.{word_at_pc};
ghost use Rattle.ir_thread.specs.declared.ask.Ask.{Ask};
ghost use Rattle.ir_text.specs.Texts.{hex_word, number_line, disassembled, next_text};

use crate::text::{Text, put_number, put_word};
use ir_disasm::disassemble;
use ir_image::{CODE_START, Code};
use ir_stream::append;
use ir_thread::{Ask, Thread};
use std::alloc::{AllocError, Global};

/// The word of the code in which an address lies.
pub fn code_word(code: &Code, address: u32) -> Option<u32>
    ensures { result ≡ word_at_pc code.now address }
{
    if address < CODE_START {
        return None;
    }
    code.words()
        .get(((address - CODE_START) / 4) as usize)
        .copied()
}

fn instruction(alloc: Global, code: &Code, pc: u32) -> Result<Vec<u8>, AllocError>
    ensures { IfOk result (λ text. text.items ≡ disassembled pc (word_at_pc code.now pc)) }
{
    match code_word(code, pc) {
        Some(word) => Ok(disassemble(alloc, word, pc)?.into_bytes()),
        None => Vec::from_slice(alloc, b"none"),
    }
}

// The line of the instruction at pc.
fn instruction_line(alloc: Global, code: &Code, pc: u32) -> Result<Vec<u8>, AllocError>
    ensures { IfOk result (λ line. line.items ≡ codes "next " ++ hex_word pc ++ codes " " ++ disassembled pc (word_at_pc code.now pc) ++ codes "\n") }
{
    let mut prefix = Text::new();
    append(&mut prefix, b"next ");
    put_word(&mut prefix, pc);
    append(&mut prefix, b" ");
    let mut line = Vec::from_slice(alloc, prefix.as_slice())?;
    line.extend_from_slice(instruction(alloc, code, pc)?.as_slice())?;
    line.extend_from_slice(b"\n")?;
    Ok(line)
}

// The line of an object that a thread releases after its end.
fn release_line(alloc: Global, object: u8) -> Result<Vec<u8>, AllocError>
    ensures { IfOk result (λ line. line.items ≡ number_line (codes "next give back ") object) }
{
    let mut line = Text::new();
    put_number(&mut line, b"next give back ", object as u64);
    append(&mut line, b"\n");
    Vec::from_slice(alloc, line.as_slice())
}

/// The line of a thread's next step: the instruction at its pc, or what it releases after its end.
///
/// # Errors
/// Out of memory.
#[tactic(auto, using(crate::proofs::Releases::ended_text_is_line))]
pub fn next_line(alloc: Global, code: &Code, thread: &Thread) -> Result<Vec<u8>, AllocError>
    ensures { IfOk result (λ line. line.items ≡ next_text code.now thread.now) }
{
    if thread.ended().is_none() {
        return instruction_line(alloc, code, thread.mach().pc());
    }
    match thread.ask(code) {
        Ask::Leave(object, _) => release_line(alloc, object),
        _ => Vec::from_slice(alloc, b"next done\n"),
    }
}
