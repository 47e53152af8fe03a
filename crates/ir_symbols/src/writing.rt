//! The writer of maps.

ghost use Rattle.std.specs.Prelude.{◌≡◌, IfOk};
ghost use Rattle.std.specs.String.{string_bytes};
ghost use Rattle.ir_symbols.specs.Maps.{map_line, map_text};

use crate::symbol::Symbol;
use crate::table::SymbolTable;
use std::alloc::{AllocError, Global};

fn line(alloc: Global, symbol: &Symbol) -> Result<String, AllocError>
    ensures { IfOk result (λ line. string_bytes line ≡ map_line symbol.now) }
{
    let digits = hex::encode(alloc, symbol.address().to_be_bytes())?;
    let (kind, name) = (symbol.kind(), symbol.name());
    format!(in alloc; "{digits} {kind} {name}\n")
}

/// The map of a table: for each symbol a line of its address in eight hexadecimal digits, its kind and its name.
///
/// # Errors
/// Out of memory.
pub fn write_map(alloc: Global, symbols: &SymbolTable) -> Result<Vec<u8>, AllocError>
    ensures { IfOk result (λ map. map.items ≡ map_text symbols.now) }
{
    let mut map = Vec::new(alloc);
    for symbol in symbols.as_slice() {
        let line = line(alloc, symbol)?;
        map.extend_from_slice(line.as_bytes())?;
    }
    Ok(map)
}
