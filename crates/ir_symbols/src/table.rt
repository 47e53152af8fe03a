//! Symbols in the order of their addresses.

ghost use Rattle.std.specs.Prelude.{◌≡◌, ◌<◌, ◌≤◌, List, length, not, IfOk, IfSome, IfNone, MatchOption};
ghost use Rattle.std.specs.Option.{option_copied};
ghost use Rattle.std.specs.List.{AllPass};
ghost use Rattle.std.specs.List.Sorted.{IsNonDecreasingBy, IsPartitionPoint};
ghost use Rattle.ir_symbols.specs.Symbols.{symbol_address};
ghost use Rattle.ir_symbols.specs.Tables.{IsSortOf, symbols_within, reaches, IsNearestSymbol, nearest};

use crate::symbol::Symbol;
use std::alloc::{AllocError, Global};
use std::marker::Model;

/// Symbols in the order of their addresses; in clauses the list of them. Several may have one address.
#[derive(Debug, Drop)]
pub struct SymbolTable {
    symbols: Vec<Symbol>,
}

impl Model for SymbolTable {
    ghost use Rattle.std.specs.Prelude.{List};
    ghost use Rattle.std.specs.List.Sorted.{IsNonDecreasingBy};
    ghost use Rattle.ir_symbols.specs.Symbols.{Symbol, symbol_address};

    ghost Value = { List Symbol };

    ghost view = { λ t. t.symbols.items };

    ghost invariant = { λ t. IsNonDecreasingBy symbol_address t.symbols.items };
}

// How many symbols are below the address.
fn count_below(symbols: &[Symbol], address: u32) -> usize
    requires { IsNonDecreasingBy symbol_address symbols.now }
    ensures bound { result ≤ length symbols.now }
    ensures point { IsPartitionPoint (λ s. symbol_address s < address) (λ s. address ≤ symbol_address s) symbols.now result }
{
    symbols.partition_point(|symbol| symbol.address() < address)
}

// How many symbols are at the address or below it.
fn count_up_to(symbols: &[Symbol], address: u32) -> usize
    requires { IsNonDecreasingBy symbol_address symbols.now }
    ensures bound { result ≤ length symbols.now }
    ensures point { IsPartitionPoint (λ s. symbol_address s ≤ address) (λ s. address < symbol_address s) symbols.now result }
{
    symbols.partition_point(|symbol| symbol.address() <= address)
}

// The nearest of symbols that are in the order of their addresses.
fn nearest_of(symbols: &[Symbol], address: u32) -> Option<&Symbol>
    requires { IsNonDecreasingBy symbol_address symbols.now }
    ensures { MatchOption result (AllPass (λ s. not (reaches address s)) symbols.now) (λ s. IsNearestSymbol symbols.now address s.now) }
{
    let reached = &symbols[..count_up_to(symbols, address)];
    let highest = reached.last()?.address();
    if highest >> 16 != address >> 16 {
        return None;
    }
    Some(&reached[count_below(reached, highest)])
}

impl SymbolTable {
    /// The table of these symbols. Those of one address stay in their order.
    ///
    /// # Errors
    /// Out of memory.
    pub fn of(alloc: Global, mut symbols: Vec<Symbol>) -> Result<SymbolTable, AllocError>
        ensures { IfOk result (λ table. IsSortOf symbols.items table) }
    {
        symbols
            .as_mut_slice()
            .sort_by_key(alloc, |symbol| symbol.address())?;
        Ok(SymbolTable { symbols })
    }

    /// The symbols.
    pub fn as_slice(&self) -> &[Symbol]
        ensures value { result.now ≡ self.now }
        ensures rising { IsNonDecreasingBy symbol_address result.now }
    {
        self.symbols.as_slice()
    }

    /// The symbols from address `start` on and before `end`.
    pub fn within(&self, start: u32, end: u32) -> &[Symbol]
        ensures { result.now ≡ symbols_within start end self.now }
    {
        let symbols = self.symbols.as_slice();
        let below = &symbols[..count_below(symbols, end)];
        &below[count_below(below, start)..]
    }

    /// Of the symbols that reach the address, one at the greatest address, and of those the first. A symbol reaches its
    /// own address and those after it in the same 64 KiB.
    pub fn nearest(&self, address: u32) -> Option<&Symbol>
        ensures found { IfSome result (λ symbol. IsNearestSymbol self.now address symbol.now) }
        ensures none { IfNone result ((symbol : _) → IsNearestSymbol self.now address symbol → ⊥) }
        ensures value { option_copied result ≡ nearest self.now address }
    {
        nearest_of(self.symbols.as_slice(), address)
    }
}
