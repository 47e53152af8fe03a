//! The labels of a source in, their map out.

ghost use Rattle.std.specs.Prelude.{◌≡◌, ◌⊎◌, ◌<◌, ◌+◌, ℕ, List, false, IfOk, OnOk, length, take, true};
ghost use Rattle.std.specs.List.{All};
ghost use Rattle.std.specs.Io.KnownBytes.{Appends};
ghost use Rattle.ir_symbols.specs.Maps.{map_text};
ghost use Rattle.ir_symbols.specs.Symbols.{Symbol};
ghost use Rattle.ir_symbols.specs.Tables.{IsSortOf};
ghost use Rattle.ir_files.specs.Writers.{writer_of, Failed};
ghost use Rattle.ir_files.specs.declared.exit_status.ExitStatus.TheVariants as status;
ghost use Rattle.ir_make.specs.Mapping.{letter_of, IsNamed, label_symbol, label_symbols};

use crate::writing::write_bytes;
use ir_asm::{Labels, Place, Section};
use ir_files::{ExitStatus, WholeSink};
use ir_symbols::{Symbol, SymbolTable, write_map};
use std::alloc::{AllocError, Global};

// The letter by which a label of a section is shown.
fn letter_of(section: Section) -> char
    ensures { result ≡ letter_of section }
{
    match section {
        Section::Text => 't',
        Section::Data => 'd',
    }
}

// The symbol of a label. There is one, since each name of a label is one of a symbol too.
#[tactic(auto, using(crate::proofs::LabelNames::symbol_of_named_label))]
fn label_symbol(alloc: Global, name: &[u8], place: Place) -> Result<Symbol, AllocError>
    requires { IsNamed (name.now, place) }
    ensures { IfOk result (λ symbol. symbol ≡ label_symbol (name.now, place)) }
{
    let symbol = Symbol::new(alloc, place.address, letter_of(place.section), name)?;
    Ok(symbol.unwrap())
}

// Adds the symbol of the label of an index.
#[tactic(auto, using(crate::proofs::Labels::label_symbols_step, crate::proofs::Labels::label_at_index_is_named))]
fn push_symbol(
    alloc: Global,
    labels: &Labels,
    index: usize,
    symbols: &mut Vec<Symbol>,
) -> Result<(), AllocError>
    requires named { All IsNamed labels.now }
    requires before { symbols.old.items ≡ label_symbols (take index labels.now) }
    requires there { index < length labels.now }
    ensures { OnOk result (symbols.new.items ≡ label_symbols (take (index + 1) labels.now)) }
{
    let Some((name, place)) = labels.get_index(index) else {
        return Ok(());
    };
    symbols.push(label_symbol(alloc, name, place)?)?;
    Ok(())
}

// The symbols of labels, in their order.
fn label_symbols(alloc: Global, labels: &Labels) -> Result<Vec<Symbol>, AllocError>
    requires { All IsNamed labels.now }
    ensures { IfOk result (λ symbols. symbols.items ≡ label_symbols labels.now) }
{
    let mut symbols = Vec::new(alloc);
    for index in 0..labels.len() {
        push_symbol(alloc, labels, index, &mut symbols)?;
    }
    Ok(symbols)
}

// The map of labels.
fn map_of(alloc: Global, labels: &Labels) -> Result<Vec<u8>, AllocError>
    requires { All IsNamed labels.now }
    ensures { IfOk result (λ bytes. (table : List Symbol) × IsSortOf (label_symbols labels.now) table × (bytes.items ≡ map_text table)) }
{
    let symbols = label_symbols(alloc, labels)?;
    let table = SymbolTable::of(alloc, symbols)?;
    write_map(alloc, &table)
}

/// Writes the map of labels: a line `A K NAME` for each, by rising address, and labels of one address in their order. A is
/// the address in eight hexadecimal digits, and K is `t` in text and `d` in data. The exit status is `Done` if all of it was
/// written, and `Failed` if memory ran out, with nothing written, or the writer failed.
pub fn map_run<W: WholeSink>(alloc: Global, labels: &Labels, map: &mut W) -> ExitStatus
    requires writes { W.broken map.old ≡ false }
    requires named { All IsNamed labels.now }
    ensures status { (result ≡ status.Done) ⊎ (result ≡ status.Failed) }
    ensures done { result ≡ status.Done → (table : List Symbol) × IsSortOf (label_symbols labels.now) table
        × Appends (W.written map.old) (W.written map.new) (map_text table) }
    ensures stopped { result ≡ status.Failed → (map.new ≡ map.old)
        ⊎ ((table : List Symbol) × IsSortOf (label_symbols labels.now) table
        × Failed (writer_of (W.written map.old) (W.written map.new) (W.broken map.new)) (map_text table)) }
    ensures whole { result ≡ status.Done → W.whole map.new ≡ true }
    ensures home { W.home map.new ≡ W.home map.old }
{
    match map_of(alloc, labels) {
        Ok(bytes) => write_bytes(map, bytes.as_slice()),
        Err(_) => ExitStatus::Failed,
    }
}
