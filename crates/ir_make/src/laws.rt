//! Laws of the labels of a source, and of files that are named as images.

ghost use Rattle.std.specs.Prelude.{◌≡◌, ℕ, List, Some, Ok};
ghost use Rattle.std.specs.List.{All};
ghost use Rattle.ir_asm.specs.declared.item.Place.{Place};
ghost use Rattle.ir_asm.specs.Passes.{labels_of};
ghost use Rattle.ir_symbols.specs.Symbols.{symbol_of};
ghost use Rattle.ir_make.specs.Opening.{ImagesStay};
ghost use Rattle.ir_make.specs.Mapping.{letter_of, IsNamed, label_symbol};

/// Each label of a source has a name by the syntax of sources, and such a name is one of a symbol. So each label is a symbol.
pub fn labels_are_symbols()
    ensures named { (source : List ℕ) (labels : List (List ℕ × Place)) → labels_of source ≡ Ok labels → All IsNamed labels }
    ensures symbol { (label : List ℕ × Place) → IsNamed label → symbol_of label.1.address (letter_of label.1.section) label.0 ≡ Some (label_symbol label) }
{}

/// An image is taken as it is, since none begins as an ELF file does.
pub fn images_stay()
    ensures { ImagesStay }
{}
