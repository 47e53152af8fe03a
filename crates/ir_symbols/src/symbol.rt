//! A symbol.

ghost use Rattle.std.specs.Prelude.{◌≡◌, IfOk, IsTrue};

use crate::legal::{is_kind, is_name};
use std::alloc::{AllocError, Global};
use std::marker::Model;

/// A name of an address: where it is, the letter that `nm` prints for what it names, and the name.
///
/// The kind is a letter of either case or `?`. The name has only the bytes 32 to 126, at least one, and begins and ends
/// without a blank.
#[derive(Debug, Drop)]
pub struct Symbol {
    address: u32,
    kind: char,
    name: String,
}

impl Model for Symbol {
    ghost use Rattle.std.specs.String.{string_bytes};
    ghost use Rattle.ir_symbols.specs.Symbols.{Symbol, IsSymbol};

    ghost Value = { Symbol };

    ghost view = { λ s. record { address = s.address; kind = s.kind; name = string_bytes s.name } };

    ghost invariant = { λ s. IsSymbol (record { address = s.address; kind = s.kind; name = string_bytes s.name }) };
}

impl Symbol {
    ghost use Rattle.ir_symbols.specs.Symbols.{symbol_of, is_kind, is_name};

    /// The symbol of this address, kind and name; None if the kind is none of a symbol's, or the name.
    ///
    /// # Errors
    /// Out of memory.
    pub fn new(
        alloc: Global,
        address: u32,
        kind: char,
        name: &[u8],
    ) -> Result<Option<Symbol>, AllocError>
        ensures { IfOk result (λ symbol. symbol ≡ symbol_of address kind name.now) }
    {
        if !is_kind(kind) || !is_name(name) {
            return Ok(None);
        }
        let text = str::from_utf8(name).unwrap();
        Ok(Some(Symbol {
            address,
            kind,
            name: String::from_str(alloc, text)?,
        }))
    }

    /// Where it is.
    pub fn address(&self) -> u32
        ensures { result ≡ self.now.address }
    {
        self.address
    }

    /// The letter that `nm` prints.
    pub fn kind(&self) -> char
        ensures value { result ≡ self.now.kind }
        ensures is { IsTrue (is_kind result) }
    {
        self.kind
    }

    /// Its name.
    pub fn name(&self) -> &str
        ensures value { result.now ≡ self.now.name }
        ensures is { IsTrue (is_name result.now) }
    {
        self.name.as_str()
    }
}
