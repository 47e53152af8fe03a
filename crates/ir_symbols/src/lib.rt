//! Symbols: names of addresses, and the maps that `nm -n` prints of them.
#![tactic(auto)]

mod entry;
mod laws;
mod legal;
mod map_err;
mod name;
mod reading;
mod symbol;
mod table;
#[cfg(test)]
mod tests;
mod writing;

pub use laws::{map_round_trip, nearest_is_first_of_greatest, one_sort};
pub use map_err::MapErr;
pub use name::name_text;
pub use reading::read_map;
pub use symbol::Symbol;
pub use table::SymbolTable;
pub use writing::write_map;
