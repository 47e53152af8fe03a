//! The lines of a listing.

ghost use Rattle.std.specs.Prelude.{◌≡◌, ◌+◌, ◌%◌, ◌^◌, ◌<◌, IfOk};
ghost use Rattle.std.specs.String.{string_bytes};
ghost use Rattle.ir_isa.specs.Fields.{low_bits};
ghost use Rattle.ir_list.specs.Listing.{address_name, entry_thread_line, distance_of, address_after, target_of, target_name, word_line, symbol_line, word_lines};

use ir_disasm::disassemble;
use ir_isa::{Inst, decode};
use ir_symbols::{Symbol, SymbolTable, name_text};
use std::alloc::{AllocError, Global};

// The name of an address, or nothing.
fn address_name(alloc: Global, symbols: &SymbolTable, address: u32) -> Result<String, AllocError>
    ensures { IfOk result (λ text. string_bytes text ≡ address_name symbols.now address) }
{
    match name_text(alloc, symbols, address)? {
        Some(text) => Ok(text),
        None => Ok(String::new(alloc)),
    }
}

/// The line of a thread.
pub fn thread_line(
    alloc: Global,
    symbols: &SymbolTable,
    number: usize,
    entry: u32,
) -> Result<String, AllocError>
    ensures { IfOk result (λ line. string_bytes line ≡ entry_thread_line symbols.now number entry) }
{
    let address = hex::encode(alloc, entry.to_be_bytes())?;
    let name = address_name(alloc, symbols, entry)?;
    format!(in alloc; "thread {number} entry {address}{name}\n")
}

fn distance(inst: Inst) -> Option<i32>
    ensures { result ≡ distance_of inst }
{
    match inst {
        Inst::Jal { rd: _, offset } => Some(offset.value),
        Inst::Branch {
            op: _,
            rs1: _,
            rs2: _,
            offset,
        } => Some(offset.value),
        _ => None,
    }
}

fn address_after(address: u32, distance: i32) -> u32
    ensures { result ≡ address_after address distance }
{
    if distance < 0 {
        address.wrapping_sub(distance.unsigned_abs())
    } else {
        address.wrapping_add(distance as u32)
    }
}

// Where a word goes, if it is a JAL or a branch.
fn target(address: u32, word: u32) -> Option<u32>
    ensures { result ≡ target_of address word }
{
    let inst = decode(word).ok()?;
    let distance = distance(inst)?;
    Some(address_after(address, distance))
}

// The name of a target, if there is one.
fn target_name(
    alloc: Global,
    symbols: &SymbolTable,
    target: Option<u32>,
) -> Result<String, AllocError>
    ensures { IfOk result (λ text. string_bytes text ≡ target_name symbols.now target) }
{
    match target {
        Some(target) => address_name(alloc, symbols, target),
        None => Ok(String::new(alloc)),
    }
}

fn word_line(
    alloc: Global,
    symbols: &SymbolTable,
    address: u32,
    word: u32,
) -> Result<String, AllocError>
    ensures { IfOk result (λ line. string_bytes line ≡ word_line symbols.now address word) }
{
    let place = hex::encode(alloc, address.to_be_bytes())?;
    let digits = hex::encode(alloc, word.to_be_bytes())?;
    let text = disassemble(alloc, word, address)?;
    let name = target_name(alloc, symbols, target(address, word))?;
    format!(in alloc; "{place} {digits} {text}{name}\n")
}

fn symbol_line(alloc: Global, symbol: &Symbol) -> Result<String, AllocError>
    ensures { IfOk result (λ line. string_bytes line ≡ symbol_line symbol.now) }
{
    let address = hex::encode(alloc, symbol.address().to_be_bytes())?;
    let name = symbol.name();
    format!(in alloc; "{address} <{name}>:\n")
}

/// The lines of the word at an address: those of the symbols that are in it, and its own.
pub fn word_lines(
    alloc: Global,
    symbols: &SymbolTable,
    address: u32,
    word: u32,
) -> Result<String, AllocError>
    requires { address + 4 < 2 ^ 32 }
    ensures { IfOk result (λ lines. string_bytes lines ≡ word_lines symbols.now address word) }
{
    let mut lines = String::new(alloc);
    for symbol in symbols.within(address, address + 4) {
        let line = symbol_line(alloc, symbol)?;
        lines.push_str(&line)?;
    }
    let line = word_line(alloc, symbols, address, word)?;
    lines.push_str(&line)?;
    Ok(lines)
}
