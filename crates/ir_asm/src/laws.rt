//! Laws of sources and of the texts of words.

ghost use Rattle.std.specs.Prelude.{◌≡◌, ℕ, List, [], ◌∷◌, ◌++◌, ◌<◌, ◌+◌, ◌↔◌, ◌^◌, codes, length, Ok, Err, Some, true, bytes_eq};
ghost use Rattle.std.specs.List.{list_any};
ghost use Rattle.ir_image.specs.declared.form.ImageForm.TheVariants.{Small, Large};
ghost use Rattle.ir_asm.specs.Names.{named};
ghost use Rattle.ir_asm.specs.Standing.{place_after_statement};
ghost use Rattle.ir_asm.specs.declared.form.Section.TheVariants.{Text};
ghost use Rattle.ir_disasm.specs.Printed.{text_of};
ghost use Rattle.ir_asm.specs.Placing.{AreInOrder, IsFirstFault};
ghost use Rattle.ir_asm.specs.Source.{Seen, Fault, nothing_seen, source_line, with_line, first_pass};
ghost use Rattle.ir_asm.specs.Passes.{assembled, assembled_lines, IsWordGuest};
ghost use Rattle.ir_asm.specs.declared.cause.Cause.{Cause};
ghost use Rattle.ir_asm.specs.declared.cause.Cause.TheVariants.{UnknownStatement, UnknownRegister, BadNumber, LabelTwice, LabelMissing, WrongSection, BadSize};

/// The text of a word is assembled to a small guest of one thread, whose code is that word alone.
pub fn word_law()
    ensures { (word pc : ℕ) → word < 2 ^ 32 → pc < 2 ^ 32 → IsWordGuest (assembled (text_of pc word)) word }
{
    ir_isa::encodes_again()
}

/// The first line with a fault of the first pass is the one that is named, whatever follows it.
#[tactic(auto, using(crate::proofs::Firsts::fault_at_refused_line))]
pub fn first_fault()
    ensures { (before after : List (List ℕ)) (line : List ℕ) (s : Seen) (cause : Cause) →
        first_pass 1 before nothing_seen ≡ Ok s →
        with_line (1 + length before) (source_line line) s ≡ Err cause →
        assembled_lines (before ++ line ∷ after) ≡ Err (record { line = 1 + length before; cause = cause }) }
{}

/// If the first pass has no fault and there is code, the fault of a source is that of the first of its placed
/// statements, in the order of their lines, that has one. Its label is missing, in the wrong section or too far away,
/// or its object isn't there.
#[tactic(auto, using(crate::proofs::OrderLaws::first_pass_in_order))]
pub fn second_fault()
    ensures order { (lines : List (List ℕ)) (s : Seen) → first_pass 1 lines nothing_seen ≡ Ok s → AreInOrder 1 s.placed }
    ensures exact { (lines : List (List ℕ)) (s : Seen) (fault : Fault) →
        first_pass 1 lines nothing_seen ≡ Ok s →
        0 < s.code →
        (assembled_lines lines ≡ Err fault) ↔ IsFirstFault s s.placed fault }
{}

/// A label comes after what was placed before it: its value is the start of its section plus the sizes of what comes
/// before it in that section.
#[tactic(auto, using(crate::proofs::LabelValues::label_value_is_place))]
pub fn label_value()
    ensures { (before after : List (List ℕ)) (line name : List ℕ) (s : Seen) →
        first_pass 1 (before ++ line ∷ after) nothing_seen ≡ Ok s →
        list_any (bytes_eq name) (source_line line).labels ≡ true →
        named s.labels name ≡ Some (place_after_statement Text before) }
{}

/// Sources and their answers.
pub fn examples()
    ensures empty { assembled (codes "") ≡ Err (record { line = 2; cause = BadSize }) }
    ensures unknown { assembled (codes "x\n") ≡ Err (record { line = 1; cause = UnknownStatement }) }
    ensures twice { assembled (codes "a: a: nop\n") ≡ Err (record { line = 1; cause = LabelTwice }) }
    ensures register { assembled (codes "addi a0, zer, 2048\n") ≡ Err (record { line = 1; cause = UnknownRegister }) }
    ensures number { assembled (codes "addi a0, zero, 2048\n") ≡ Err (record { line = 1; cause = BadNumber }) }
    ensures missing { assembled (codes "beq a0, a1, far\n") ≡ Err (record { line = 1; cause = LabelMissing }) }
    ensures section { assembled (codes "nop\n.space 1\n") ≡ Err (record { line = 2; cause = WrongSection }) }
    ensures end { assembled (codes "nop\nend: .thread end\n") ≡ Err (record { line = 2; cause = WrongSection }) }
    ensures large { assembled (codes ".large\nnop") ≡ Ok (record { form = Large; entries = 0x00010000 ∷ []; code = 0x13 ∷ []; bytes = []; words = [] }) }
    ensures late { assembled (codes "nop\n.large\n") ≡ Err (record { line = 2; cause = WrongSection }) }
    ensures carried { assembled (codes "li a0, 0x12345FFF") ≡ Ok (record { form = Small; entries = 0x00010000 ∷ []; code = 0x12346537 ∷ 0xFFF50513 ∷ []; bytes = []; words = [] }) }
{}
