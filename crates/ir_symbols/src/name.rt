//! The text that names an address.

ghost use Rattle.std.specs.Prelude.{◌≡◌, ◌≤◌, IfOk, option_map};
ghost use Rattle.std.specs.String.{string_bytes};
ghost use Rattle.ir_symbols.specs.Names.{name_by, name_text};

use crate::symbol::Symbol;
use crate::table::SymbolTable;
use std::alloc::{AllocError, Global};

fn name_by(alloc: Global, symbol: &Symbol, address: u32) -> Result<String, AllocError>
    requires { symbol.now.address ≤ address }
    ensures { IfOk result (λ text. string_bytes text ≡ name_by address symbol.now) }
{
    let name = symbol.name();
    match address - symbol.address() {
        0 => format!(in alloc; " <{name}>"),
        distance => format!(in alloc; " <{name}+{distance}>"),
    }
}

/// The text that names an address by the nearest symbol: ` <NAME>` at the symbol, ` <NAME+N>` for N bytes after it, N in
/// decimal digits. None if no symbol reaches the address.
///
/// # Errors
/// Out of memory.
pub fn name_text(
    alloc: Global,
    symbols: &SymbolTable,
    address: u32,
) -> Result<Option<String>, AllocError>
    ensures { IfOk result (λ text. option_map string_bytes text ≡ name_text symbols.now address) }
{
    match symbols.nearest(address) {
        Some(symbol) => Ok(Some(name_by(alloc, symbol, address)?)),
        None => Ok(None),
    }
}
