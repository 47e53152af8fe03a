//! The labels and the statement of a line.

ghost use Rattle.std.specs.Prelude.{◌≡◌, map};
ghost use Rattle.std.specs.List.{list_all};
ghost use Rattle.ir_asm.specs.Text.{is_source_name, split, trim};
ghost use Rattle.ir_asm.specs.Source.{is_source_byte, all_but_last, last_segment};

use crate::text::{first_part, is_name, trim};

fn is_source_byte(byte: u8) -> bool
    ensures { result ≡ is_source_byte byte }
{
    (byte >= 32 && byte <= 126) || byte == b'\t'
}

// Whether a source may hold all these bytes.
pub fn may_be_source(line: &[u8]) -> bool
    ensures { result ≡ list_all is_source_byte line.now }
{
    line.iter().all(|byte| is_source_byte(*byte))
}

// Whether all labels are names.
#[tactic(auto, using(crate::proofs::Lines::all_but_last_of_split, crate::proofs::Lines::all_but_last_single))]
pub fn are_names(text: &[u8]) -> bool
    ensures { result ≡ list_all is_source_name (map trim (all_but_last (split 58 text.now))) }
{
    let mut rest = text;
    while let (label, Some(tail)) = first_part(rest, b':') {
        if !is_name(trim(label)) {
            return false;
        }
        rest = tail;
    }
    true
}

// What follows the last label.
#[tactic(auto, using(crate::proofs::Lines::last_of_split))]
pub fn statement(text: &[u8]) -> &[u8]
    ensures { result.now ≡ trim (last_segment (split 58 text.now)) }
{
    let mut rest = text;
    loop {
        match first_part(rest, b':') {
            (_, Some(tail)) => rest = tail,
            (part, None) => return trim(part),
        }
    }
}
