//! Marks what each instruction reads, and what it leaves to marked registers after it, until nothing changes.

ghost use Rattle.std.specs.Prelude.{◌≡◌, ◌≤◌, ◌<◌, ◌+◌, ◌*◌, ◌/◌, ◌%◌, ◌^◌, ℕ, List, true, false, length, slice_set, IfSome};
ghost use Rattle.ir_image.specs.Guest.{fetched, code_start};
ghost use Rattle.ir_image.specs.declared.fetched.Fetched.TheVariants.{Found};
ghost use Rattle.ir_liveness.specs.Flow.{call_limit};
ghost use Rattle.ir_liveness.specs.Live.{Point};
ghost use Rattle.ir_liveness.specs.Table.{is_marked, IsLiveTable};
ghost use Rattle.ir_liveness.specs.Marks.{places_of_word, point_at, IsMarkSeen, AreMarksLive, IsSwept};
ghost use Rattle.ir_liveness.specs.Ways.{LeadsToWord, MayAsk};

use crate::flow::{CALL_LIMIT, Way, asked_after, reads, way_after, writes};
use crate::marks::{MARKS_A_WORD, MARKS_EACH, Marks};
use ir_image::{CODE_START, Code, Fetched};
use ir_isa::Inst;

// Whether a register is marked at a word's pc, where a7 asks for this call.
fn is_marked_at(marks: &Marks, pc: u32, number: u32, register: u8) -> bool
    ensures found { result ≡ true → (pc % 4 ≡ 0) × (is_marked marks.now (record { pc = pc; number = number }) register ≡ true) }
    ensures none { result ≡ false → pc % 4 ≡ 0 → is_marked marks.now (record { pc = pc; number = number }) register ≡ true → ⊥ }
{
    pc % 4 == 0 && marks.is_marked(pc, number, register)
}

// Whether the way leads to where a register is marked and a7 asks for this call.
fn is_marked_by(marks: &Marks, way: Way, number: u32, register: u8) -> bool
    requires call { number < call_limit }
    requires register { register < 32 }
    ensures found { result ≡ true → (next : ℕ) × LeadsToWord way next × (is_marked marks.now (record { pc = next; number = number }) register ≡ true) }
    ensures none { result ≡ false → (next : ℕ) → LeadsToWord way next → is_marked marks.now (record { pc = next; number = number }) register ≡ true → ⊥ }
{
    match way {
        Way::Nowhere => false,
        Way::To(there) => is_marked_at(marks, there, number, register),
        Way::Either(first, second) => {
            is_marked_at(marks, first, number, register)
                || is_marked_at(marks, second, number, register)
        }
        Way::Anywhere => marks.is_marked_anywhere(number, register),
    }
}

// Whether the way leads to where a register is marked, whatever a7 asks for.
fn is_marked_by_any(marks: &Marks, way: Way, register: u8) -> bool
    requires { register < 32 }
    ensures found { result ≡ true → (next : Point) × LeadsToWord way next.pc × (next.number < call_limit) × (is_marked marks.now next register ≡ true) }
    ensures none { result ≡ false → (next : Point) → LeadsToWord way next.pc → next.number < call_limit → is_marked marks.now next register ≡ true → ⊥ }
{
    for number in 0..CALL_LIMIT {
        if is_marked_by(marks, way, number, register) {
            return true;
        }
    }
    false
}

// Whether the way leads to where a register is marked and a7 asks for the known call, or for any call if none is known.
fn is_marked_after(marks: &Marks, way: Way, asked: Option<u32>, register: u8) -> bool
    requires call { IfSome asked (λ known. known < call_limit) }
    requires register { register < 32 }
    ensures found { result ≡ true → (next : Point) × LeadsToWord way next.pc × MayAsk asked next.number × (is_marked marks.now next register ≡ true) }
    ensures none { result ≡ false → (next : Point) → LeadsToWord way next.pc → MayAsk asked next.number → is_marked marks.now next register ≡ true → ⊥ }
{
    match asked {
        Some(known) => is_marked_by(marks, way, known, register),
        None => is_marked_by_any(marks, way, register),
    }
}

// Whether the instruction at a point reads a register, or leaves it to a point where it is marked.
fn is_seen(marks: &Marks, inst: &Inst, pc: u32, number: u32, register: u8) -> bool
    requires word { pc % 4 ≡ 0 }
    requires call { number < call_limit }
    requires register { register < 32 }
    ensures found { result ≡ true → IsMarkSeen marks.now inst.now (record { pc = pc; number = number }) register }
    ensures none { result ≡ false → IsMarkSeen marks.now inst.now (record { pc = pc; number = number }) register → ⊥ }
{
    if reads(inst, number, register) {
        return true;
    }
    if writes(inst, number, register) {
        return false;
    }
    let way = way_after(inst, number, pc);
    is_marked_after(marks, way, asked_after(inst, number), register)
}

// Marks a place of a word if its register is seen there; whether that is new.
fn mark_if_seen(marks: &mut Marks, inst: &Inst, word: usize, place: usize) -> bool
    requires fits { code_start + 4 * word < 2 ^ 32 }
    requires within { word * places_of_word + place < length marks.old }
    requires low { place < places_of_word }
    ensures size { length marks.new ≡ length marks.old }
    ensures swept { (code : List ℕ) → fetched code (code_start + 4 * word) ≡ Found inst.now → IsSwept code marks.old marks.new result (λ w p. (w ≡ word) × (p ≡ place)) }
{
    let pc = CODE_START + 4 * word as u32;
    let number = (place / MARKS_EACH) as u32;
    let register = (place % MARKS_EACH) as u8;
    if marks.is_marked(pc, number, register) || !is_seen(marks, inst, pc, number, register) {
        return false;
    }
    marks.mark(word, place);
    true
}

// Marks what is seen at a word of this instruction; whether there was any.
fn sweep_places(marks: &mut Marks, inst: &Inst, word: usize) -> bool
    requires fits { code_start + 4 * word < 2 ^ 32 }
    requires within { (word + 1) * places_of_word ≤ length marks.old }
    ensures size { length marks.new ≡ length marks.old }
    ensures swept { (code : List ℕ) → fetched code (code_start + 4 * word) ≡ Found inst.now → IsSwept code marks.old marks.new result (λ w p. (w ≡ word) × (p < places_of_word)) }
{
    let mut any = false;
    for place in 0..MARKS_A_WORD {
        if mark_if_seen(marks, inst, word, place) {
            any = true;
        }
    }
    any
}

// Marks what is seen at a word; whether there was any.
fn sweep_word(code: &Code, marks: &mut Marks, word: usize) -> bool
    requires fits { code_start + 4 * word < 2 ^ 32 }
    requires within { (word + 1) * places_of_word ≤ length marks.old }
    ensures size { length marks.new ≡ length marks.old }
    ensures swept { IsSwept code.now marks.old marks.new result (λ w p. (w ≡ word) × (p < places_of_word)) }
{
    match code.fetch(CODE_START + 4 * word as u32) {
        Fetched::Found(inst) => sweep_places(marks, &inst, word),
        Fetched::Illegal => false,
        Fetched::Outside => false,
    }
}

// From the last word to the first, marks what is seen there; whether there was any.
fn sweep(code: &Code, words: usize, marks: &mut Marks) -> bool
    requires fits { code_start + 4 * words ≤ 2 ^ 32 }
    requires within { length marks.old ≡ words * places_of_word }
    ensures size { length marks.new ≡ length marks.old }
    ensures swept { IsSwept code.now marks.old marks.new result (λ w p. (w < words) × (p < places_of_word)) }
{
    let mut changed = false;
    for k in 0..words {
        if sweep_word(code, marks, words - 1 - k) {
            changed = true;
        }
    }
    changed
}

/// Marks all live registers of a code, where no others are marked yet. That takes as many sweeps over the code, at most,
/// as there are places to mark, and one more; few where most of the code goes on to later words.
pub fn mark_live(code: &Code, marks: &mut Marks)
    requires fits { code_start + 4 * length code.now ≤ 2 ^ 32 }
    requires within { length marks.old ≡ length code.now * places_of_word }
    requires live { AreMarksLive code.now marks.old }
    ensures { IsLiveTable code.now marks.new }
{
    let words = code.words().len();
    'sweeps: loop {
        if !sweep(code, words, marks) {
            return;
        }
    }
}
