//! What reports a fault of a source.

ghost use Rattle.std.specs.Prelude.{◌≡◌, ◌<◌, map, take, IfOk};
ghost use Rattle.std.specs.Option.{option_map};
ghost use Rattle.std.specs.String.{string_bytes};
ghost use Rattle.ir_make.specs.Assembling.{cause_words, most_shown, shown_fault, source_line_at, fault_line, explaining_line, report};

use ir_asm::Cause;
use std::alloc::{AllocError, Global};

// The most bytes of a line that are shown.
const MOST_LINE_SHOWN: usize = 200;

// A cause in words, which are those of the help.
fn words_of(cause: Cause) -> &'static str
    ensures { result.now ≡ cause_words cause }
{
    match cause {
        Cause::BadByte => "a byte that a source may not hold",
        Cause::UnknownStatement => "an unknown instruction or directive",
        Cause::WrongOperands => "a wrong number or form of operands",
        Cause::UnknownRegister => "an unknown register",
        Cause::BadNumber => "a malformed number or one out of range",
        Cause::LabelTwice => "a label defined twice",
        Cause::LabelMissing => "an undefined label",
        Cause::TooFar => "a label that is too far away",
        Cause::WrongSection =>
            "a statement or label of the wrong section, or `.large` after a statement",
        Cause::BadSize => "too much code or data, or no code",
        Cause::BadCount => "too many threads, or no such object",
        Cause::BadLabel => "a malformed label",
    }
}

fn shown(byte: u8) -> u8
    ensures exact { result ≡ shown_fault byte }
    ensures ascii { result < 128 }
{
    match byte {
        b'\t' => b' ',
        b' '..=b'~' => byte,
        _ => b'?',
    }
}

// A line of a text, counted from 1; nothing where there is none.
fn line_at(text: &str, number: usize) -> &str
    ensures { result.now ≡ source_line_at text.now number }
{
    text.lines().nth(number.saturating_sub(1)).unwrap_or("")
}

// As many bytes of a line as are shown.
#[tactic(auto, using(crate::proofs::ShownLines::take_min_length))]
fn shown_part(line: &[u8]) -> &[u8]
    ensures { result.now ≡ take most_shown line.now }
{
    line.split_at(MOST_LINE_SHOWN.min(line.len())).0
}

// Bytes as they are shown.
fn shown_text(alloc: Global, bytes: &[u8]) -> Result<String, AllocError>
    ensures { IfOk result (λ s. string_bytes s ≡ map shown_fault bytes.now) }
{
    let mut text = String::with_capacity(alloc, bytes.len())?;
    for byte in bytes {
        text.push(shown(*byte) as char)?;
    }
    Ok(text)
}

fn fault_line(alloc: Global, line: usize, cause: Cause) -> Result<String, AllocError>
    ensures { IfOk result (λ s. string_bytes s ≡ fault_line (record { line = line; cause = cause })) }
{
    let number = cause.number();
    format!(in alloc; "line {line} error {number}\n")
}

// The line that explains a fault of a text in the file of this name.
#[tactic(auto, using(crate::proofs::ShownLines::after_cause_of_part))]
fn explaining_line(
    alloc: Global,
    name: &str,
    text: &str,
    line: usize,
    cause: Cause,
) -> Result<String, AllocError>
    ensures { IfOk result (λ s. string_bytes s ≡ explaining_line name.now text.now (record { line = line; cause = cause })) }
{
    let words = words_of(cause);
    let part = shown_part(line_at(text, line).as_bytes());
    if part.is_empty() {
        return format!(in alloc; "{name}:{line}: {words}\n");
    }
    let shown = shown_text(alloc, part)?;
    format!(in alloc; "{name}:{line}: {words}: {shown}\n")
}

/// What reports a fault of a text: the line `line L error C`, and where the file's name is given a line that explains it,
/// by that name, the line's number, the cause in words and the line itself.
///
/// # Errors
/// Out of memory.
pub fn report(
    alloc: Global,
    explained: Option<&str>,
    text: &str,
    line: usize,
    cause: Cause,
) -> Result<String, AllocError>
    ensures { IfOk result (λ s. string_bytes s ≡ report (option_map (λ s. s.now) explained.entry) text.now (record { line = line; cause = cause })) }
{
    let mut report = fault_line(alloc, line, cause)?;
    match explained {
        Some(name) => {
            let why = explaining_line(alloc, name, text, line, cause)?;
            report.push_str(why.as_str())?;
            Ok(report)
        }
        None => Ok(report),
    }
}
