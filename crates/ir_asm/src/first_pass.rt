//! The first pass over the lines of a source.

ghost use Rattle.std.specs.Prelude.{◌≡◌, ◌+◌, ◌<◌, ◌∷◌, [], map, length, IfSome, IfOk, MatchOption};
ghost use Rattle.ir_asm.specs.Text.{split, trim};
ghost use Rattle.ir_asm.specs.Faults.{MakesOrFaults};
ghost use Rattle.ir_asm.specs.Source.{all_but_last, source_line, source_lines, line_without_return, with_labels, with_statement, with_line, first_pass};
ghost use Rattle.ir_asm.specs.Answered.{AnswersSource};

use crate::asm_err::{AsmErr, at_line};
use crate::cause::Cause;
use crate::line::{are_names, may_be_source, statement};
use crate::refusal::Refusal;
use crate::scan::Scan;
use crate::statement::item_in;
use crate::text::{before, first_part, trim};
use std::alloc::Global;

// After the labels of a line.
#[tactic(auto, using(crate::proofs::Lines::all_but_last_of_split, crate::proofs::Lines::all_but_last_single, crate::proofs::Passing::with_labels_taken, crate::proofs::Passing::with_labels_refused))]
fn with_labels(alloc: Global, scan: &mut Scan, text: &[u8]) -> Result<(), Refusal>
    ensures { MakesOrFaults scan.new result (with_labels (map trim (all_but_last (split 58 text.now))) scan.old) }
{
    let mut rest = text;
    while let (label, Some(tail)) = first_part(rest, b':') {
        scan.with_label(alloc, trim(label))?;
        rest = tail;
    }
    Ok(())
}

// After a statement, which may be empty.
fn with_statement(
    alloc: Global,
    scan: &mut Scan,
    line: usize,
    statement: &[u8],
) -> Result<(), Refusal>
    ensures { MakesOrFaults scan.new result (with_statement line statement.now scan.old) }
{
    if statement.is_empty() {
        return Ok(());
    }
    let item = item_in(alloc, scan.form, scan.section, statement)?;
    scan.begin();
    scan.with_item(alloc, line, item)
}

// After a line: its bytes, all its labels' forms, its labels, its statement.
fn with_line(alloc: Global, scan: &mut Scan, number: usize, line: &[u8]) -> Result<(), Refusal>
    ensures { MakesOrFaults scan.new result (with_line number (source_line line.now) scan.old) }
{
    if !may_be_source(line) {
        return Err(Refusal::Faulty(Cause::BadByte));
    }
    let text = before(line, b'#');
    if !are_names(text) {
        return Err(Refusal::Faulty(Cause::BadLabel));
    }
    with_labels(alloc, scan, text)?;
    with_statement(alloc, scan, number, statement(text))
}

// A line without the carriage return at its end.
#[tactic(auto, using(crate::proofs::Passing::last_return_dropped, crate::proofs::Passing::end_without_return_stays))]
fn without_return(line: &[u8]) -> &[u8]
    ensures { result.now ≡ line_without_return line.now }
{
    match line {
        [init @ .., last] if *last == b'\r' => init,
        _ => line,
    }
}

// The first line, and what follows its line feed, if it is not the last.
#[tactic(auto, using(crate::proofs::Passing::without_returns_split))]
fn first_line(text: &[u8]) -> (&[u8], Option<&[u8]>)
    ensures lines { MatchOption result.1 (source_lines text.now ≡ result.0.now ∷ []) (λ rest. source_lines text.now ≡ result.0.now ∷ source_lines rest.now) }
    ensures shorter { IfSome result.1 (λ rest. length rest.now < length text.now) }
{
    match first_part(text, b'\n') {
        (line, Some(rest)) => (without_return(line), Some(rest)),
        last => last,
    }
}

/// After the lines of a source, of which each is gone over once; the answer is the number of the line that would follow.
///
/// # Errors
/// The first fault, or out of memory.
pub fn first_pass(alloc: Global, scan: &mut Scan, source: &[u8]) -> Result<usize, AsmErr>
    ensures exact { AnswersSource (λ _. scan.new) result (first_pass 1 (source_lines source.now) scan.old) }
    ensures count { IfOk result (λ number. number ≡ length (source_lines source.now) + 1) }
{
    let mut rest = source;
    let mut more = true;
    let mut number = 1;
    while more {
        let (line, after) = first_line(rest);
        match with_line(alloc, scan, number, line) {
            Ok(()) => number += 1,
            Err(refusal) => return Err(at_line(number, refusal)),
        }
        match after {
            Some(tail) => rest = tail,
            None => more = false,
        }
    }
    Ok(number)
}
