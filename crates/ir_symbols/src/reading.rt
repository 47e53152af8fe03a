//! The reader of maps.

ghost use Rattle.std.specs.Prelude.{◌≡◌, ◌==◌, ◌<◌, ◌≤◌, [], ◌∷◌, length, position, IfOk, IfErr, IfSome, MatchOption};
ghost use Rattle.std.specs.Str.Lines.{strip_carriage_return};
ghost use Rattle.ir_symbols.specs.Maps.{address_in, symbol_by, symbol_in, leading_blanks, is_label, is_undefined, is_passed_over};
ghost use Rattle.ir_symbols.specs.Maps.{map_entry, map_lines, symbols_at, GivesSymbols, IsMapFault, IsTableOf};

use crate::entry::Entry;
use crate::legal::{is_kind, is_name};
use crate::map_err::MapErr;
use crate::symbol::Symbol;
use crate::table::SymbolTable;
use hex::FromHex;
use std::alloc::{AllocError, Global};

// How many digits an address has, and the fewest blanks that an undefined symbol has in place of it.
const DIGITS: usize = 8;

// The address that eight digits write.
fn address(digits: &[u8]) -> Option<u32>
    ensures { result ≡ address_in digits.now }
{
    let bytes = <[u8; 4] as FromHex>::from_hex(digits).ok()?;
    Some(u32::from_be_bytes(bytes))
}

// The symbol at an address whose kind and name are these, each after a blank.
fn symbol_by(alloc: Global, address: u32, label: &[u8]) -> Result<Option<Symbol>, AllocError>
    ensures { IfOk result (λ symbol. symbol ≡ symbol_by address label.now) }
{
    match label {
        [b' ', kind, b' ', name @ ..] => Symbol::new(alloc, address, char::from(*kind), name),
        _ => Ok(None),
    }
}

// The symbol of a line of eight digits, a kind and a name, if the line is one.
fn symbol(alloc: Global, line: &[u8]) -> Result<Option<Symbol>, AllocError>
    ensures { IfOk result (λ symbol. symbol ≡ symbol_in line.now) }
{
    if line.len() < DIGITS {
        return Ok(None);
    }
    let (digits, label) = line.split_at(DIGITS);
    match address(digits) {
        Some(address) => symbol_by(alloc, address, label),
        None => Ok(None),
    }
}

// How many blanks a line begins with.
fn leading_blanks(line: &[u8]) -> usize
    ensures value { result ≡ leading_blanks line.now }
    ensures within { result ≤ length line.now }
{
    line.iter().take_while(|byte| **byte == b' ').count()
}

// Whether a text is a kind, a blank and a name.
fn is_label(text: &[u8]) -> bool
    ensures { result ≡ is_label text.now }
{
    match text {
        [kind, b' ', name @ ..] => is_kind(char::from(*kind)) && is_name(name),
        _ => false,
    }
}

// Whether a line is that of an undefined symbol.
fn is_undefined(line: &[u8]) -> bool
    ensures { result ≡ is_undefined line.now }
{
    let blanks = leading_blanks(line);
    blanks >= DIGITS && is_label(&line[blanks..])
}

// Whether symbols of a kind are passed over.
fn is_passed_over(kind: char) -> bool
    ensures { result ≡ is_passed_over kind }
{
    matches!(kind, 'A' | 'a' | 'N' | 'n')
}

// What a line says.
#[tactic(auto, unfolding(crate::specs::Maps::map_entry))]
fn entry(alloc: Global, line: &[u8]) -> Result<Entry, AllocError>
    ensures { IfOk result (λ entry. entry ≡ map_entry line.now) }
{
    if line.is_empty() || is_undefined(line) {
        return Ok(Entry::Nothing);
    }
    match symbol(alloc, line)? {
        Some(symbol) if is_passed_over(symbol.kind()) => Ok(Entry::Nothing),
        Some(symbol) => Ok(Entry::Names(symbol)),
        None => Ok(Entry::Faulty),
    }
}

// A line without the carriage return at its end.
fn without_return(line: &[u8]) -> &[u8]
    ensures { result.now ≡ strip_carriage_return line.now }
{
    match line {
        [first @ .., b'\r'] => first,
        _ => line,
    }
}

// Where the first line feed is.
fn line_feed(text: &[u8]) -> Option<usize>
    ensures { result ≡ position (λ b. b == 10) text.now }
{
    text.iter().position(|byte| *byte == b'\n')
}

// The first line, and what follows its line feed, if there is one.
fn first_line(text: &[u8]) -> (&[u8], Option<&[u8]>)
    ensures lines { MatchOption result.1 (map_lines text.now ≡ result.0.now ∷ []) (λ rest. map_lines text.now ≡ result.0.now ∷ map_lines rest.now) }
    ensures shorter { IfSome result.1 (λ rest. length rest.now < length text.now) }
{
    match line_feed(text) {
        Some(end) => (without_return(&text[..end]), Some(&text[end + 1..])),
        None => (without_return(text), None),
    }
}

// The symbols of a map in the order of its lines.
fn symbols(alloc: Global, bytes: &[u8]) -> Result<Vec<Symbol>, MapErr>
    ensures { GivesSymbols (λ symbols. symbols.items) result (symbols_at bytes.now) }
{
    let mut symbols = Vec::new(alloc);
    let mut number = 0;
    let mut rest = Some(bytes);
    while let Some(text) = rest {
        let (line, after) = first_line(text);
        number += 1;
        match entry(alloc, line)? {
            Entry::Nothing => {}
            Entry::Names(symbol) => symbols.push(symbol)?,
            Entry::Faulty => return Err(MapErr::Line(number)),
        }
        rest = after;
    }
    Ok(symbols)
}

/// The table of a map, which has a line for each symbol, as `nm -n` prints it: the address in eight hexadecimal digits of
/// either case, a blank, the kind, a blank and the name. The lines may have any order, and carriage returns at their ends.
///
/// These lines are passed over:
/// - empty ones;
/// - those of undefined symbols, which have no address: eight blanks or more, a kind, a blank and a name;
/// - those of the kinds `A` and `a`, absolute symbols, and `N` and `n`, symbols for debugging.
///
/// # Errors
/// The first other line, or out of memory.
pub fn read_map(alloc: Global, bytes: &[u8]) -> Result<SymbolTable, MapErr>
    // The table has the symbols of the lines.
    ensures read { IfOk result (λ table. IsTableOf (symbols_at bytes.now) table) }
    // Or it is the first faulty line, or memory ran out.
    ensures faulty { IfErr result (λ error. IsMapFault error (symbols_at bytes.now)) }
{
    let symbols = symbols(alloc, bytes)?;
    Ok(SymbolTable::of(alloc, symbols)?)
}
