//! Laws of maps and tables.

ghost use Rattle.std.specs.Prelude.{◌≡◌, ◌↔◌, ℕ, List, Some, Ok, false};
ghost use Rattle.std.specs.List.{All};
ghost use Rattle.std.specs.List.Sorted.{IsNonDecreasingBy};
ghost use Rattle.ir_symbols.specs.Symbols.{Symbol, IsSymbol, symbol_address};
ghost use Rattle.ir_symbols.specs.Tables.{IsSortOf, IsNearestSymbol, nearest};
ghost use Rattle.ir_symbols.specs.Maps.{map_text, is_passed_over, symbols_at, IsTableOf};

/// There is one way to put symbols in the order of their addresses.
pub fn one_sort()
    ensures { (given first second : List Symbol) → IsSortOf given first → IsSortOf given second → first ≡ second }
{}

/// The nearest symbol is, of those that reach the address, one at the greatest address, and of those the first.
pub fn nearest_is_first_of_greatest()
    ensures { (symbols : List Symbol) (address : ℕ) (s : Symbol) → (nearest symbols address ≡ Some s) ↔ IsNearestSymbol symbols address s }
{}

/// The map of symbols of which none is passed over is read as these symbols. If they are in the order of their addresses, it
/// is read as their table.
pub fn map_round_trip()
    ensures symbols { (symbols : List Symbol) → All IsSymbol symbols → All (λ s. is_passed_over s.kind ≡ false) symbols → symbols_at (map_text symbols) ≡ Ok symbols }
    ensures table { (symbols table : List Symbol) → IsNonDecreasingBy symbol_address symbols → All IsSymbol symbols → All (λ s. is_passed_over s.kind ≡ false) symbols
        → IsTableOf (symbols_at (map_text symbols)) table → table ≡ symbols }
{}
