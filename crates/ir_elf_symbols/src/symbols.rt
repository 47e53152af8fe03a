//! The symbols of an ELF file that name addresses.

ghost use Rattle.std.specs.Prelude.{◌≡◌, ◌<◌, ◌≤◌, ◌+◌, ◌*◌, ◌^◌, ◌++◌, ◌==◌, position, length, IfOk, OnOk};
ghost use Rattle.ir_symbols.specs.Tables.{IsSortOf};
ghost use Rattle.ir_elf_symbols.specs.Symbols.{text_at, is_made, names_place, kind_of, elf_symbol_by, symbol_at, listed_symbols, first_symbols, symbols_in, elf_symbols};

use crate::fields::{byte_at, half_at, section_at, symbol_table, word_at};
use crate::section::Section;
use ir_symbols::{Symbol, SymbolTable};
use std::alloc::{AllocError, Global};

// How many bytes an entry of the table has.
const ENTRY: usize = 16;

// Where the first byte is that is 0.
fn zero_byte(bytes: &[u8]) -> Option<usize>
    ensures { result ≡ position (λ b. b == 0) bytes.now }
{
    bytes.iter().position(|byte| *byte == 0)
}

// The bytes from a place on, up to the first that is 0.
fn text_at(file: &[u8], place: usize) -> &[u8]
    ensures { result.now ≡ text_at file.now place }
{
    let rest = &file[place.min(file.len())..];
    match zero_byte(rest) {
        Some(end) => &rest[..end],
        None => rest,
    }
}

// Whether a compiler or an assembler made the name for itself.
fn is_made(name: &[u8]) -> bool
    ensures { result ≡ is_made name.now }
{
    let first = byte_at(name, 0);
    first == b'$' || first == b'.'
}

// Whether a symbol of this information and section names a place of the file.
fn names_place(info: u8, section: u32) -> bool
    ensures { result ≡ names_place info section }
{
    info % 16 <= 2 && 0 < section && section < 0xff00
}

// The letter of a symbol: T for a function, D for anything else.
fn kind_of(info: u8) -> char
    ensures { result ≡ kind_of info }
{
    if info % 16 == 2 { 'T' } else { 'D' }
}

// The symbol of these, if it names a place and its name is one of a map's.
fn symbol_by(
    alloc: Global,
    address: u32,
    info: u8,
    section: u32,
    name: &[u8],
) -> Result<Option<Symbol>, AllocError>
    ensures { IfOk result (λ symbol. symbol ≡ elf_symbol_by address info section name.now) }
{
    if names_place(info, section) && !is_made(name) {
        Symbol::new(alloc, address, kind_of(info), name)
    } else {
        Ok(None)
    }
}

// The symbol of an entry of a table whose names begin at this place.
fn symbol_at(
    alloc: Global,
    file: &[u8],
    table: u32,
    names: u32,
    number: u32,
) -> Result<Option<Symbol>, AllocError>
    ensures { IfOk result (λ symbol. symbol ≡ symbol_at file.now table names number) }
{
    let entry = table as usize + ENTRY * number as usize;
    let address = word_at(file, entry + 4);
    let info = byte_at(file, entry + 12);
    let section = half_at(file, entry + 14);
    let name = text_at(file, names as usize + word_at(file, entry) as usize);
    symbol_by(alloc, address, info, section, name)
}

// Puts a symbol at the end, if there is one.
fn push_if(symbols: &mut Vec<Symbol>, symbol: Option<Symbol>) -> Result<(), AllocError>
    ensures { OnOk result (symbols.new.items ≡ symbols.old.items ++ listed_symbols symbol) }
{
    match symbol {
        Some(symbol) => {
            symbols.push(symbol)?;
            Ok(())
        }
        None => Ok(()),
    }
}

// The symbols of a table, if the file has all of it.
#[tactic(auto, unfolding(crate::specs::Symbols::first_symbols))]
fn symbols_in(alloc: Global, file: &[u8], table: Section) -> Result<Vec<Symbol>, AllocError>
    ensures { IfOk result (λ symbols. symbols.items ≡ symbols_in file.now table) }
{
    let mut symbols = Vec::new(alloc);
    if table.place as usize + table.size as usize > file.len() {
        return Ok(symbols);
    }
    let names = section_at(file, table.link).place;
    for number in 0..table.size / 16 {
        let symbol = symbol_at(alloc, file, table.place, names, number)?;
        push_if(&mut symbols, symbol)?;
    }
    Ok(symbols)
}

/// The symbols of an ELF file of 32 bits, little-endian, that name addresses, by rising address; those of an address in their order. These are
/// the symbols of its first table of symbols, if all of that is in the file, that are of no type, of a variable or of a function, that a
/// section of the file has, and whose names are of printable bytes and begin neither with `$` nor with a point. Of any other bytes there may be
/// none. Time grows with the table and the lengths of the names.
///
/// # Errors
/// Out of memory.
pub fn elf_symbols(alloc: Global, file: &[u8]) -> Result<SymbolTable, AllocError>
    ensures { IfOk result (λ table. IsSortOf (elf_symbols file.now) table) }
{
    match symbol_table(file) {
        Some(table) => SymbolTable::of(alloc, symbols_in(alloc, file, table)?),
        None => SymbolTable::of(alloc, Vec::new(alloc)),
    }
}
