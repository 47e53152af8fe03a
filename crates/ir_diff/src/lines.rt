//! The lines of `ir diff`.

ghost use Rattle.std.specs.Prelude.{◌≡◌, IfOk};
ghost use Rattle.std.specs.String.{string_bytes};
ghost use Rattle.ir_diff.specs.Lines.{common_line, budget_line, differing_header_line, same_line, differs_line, ready_text, end_text};

use ir_trace::ThreadTrace;
use std::alloc::{AllocError, Global};

/// The line of the common part.
pub fn common_line(alloc: Global, part: &[u32]) -> Result<String, AllocError>
    ensures { IfOk result (λ s. string_bytes s ≡ common_line part.now) }
{
    let mut line = String::from_str(alloc, "common")?;
    for count in part {
        line.push_str(format!(in alloc; " {count}")?.as_str())?;
    }
    line.push('\n')?;
    Ok(line)
}

/// The line of budgets that differ, else nothing.
pub fn budget_line(alloc: Global, one: u64, two: u64) -> Result<String, AllocError>
    ensures { IfOk result (λ s. string_bytes s ≡ budget_line one two) }
{
    if one == two {
        return Ok(String::new(alloc));
    }
    format!(in alloc; "budget {one} and {two}\n")
}

/// The line of headers that differ.
pub fn header_line(alloc: Global, cause: u8) -> Result<String, AllocError>
    ensures { IfOk result (λ s. string_bytes s ≡ differing_header_line cause) }
{
    format!(in alloc; "header differs {cause}\n")
}

/// The line of a thread that is the same.
pub fn same_line(alloc: Global, thread: u8) -> Result<String, AllocError>
    ensures { IfOk result (λ s. string_bytes s ≡ same_line thread) }
{
    format!(in alloc; "thread {thread} same\n")
}

// In which traces a thread is ready.
fn ready_text(first: bool, second: bool) -> &'static str
    ensures { result.now ≡ ready_text first second }
{
    match (first, second) {
        (true, true) => " ready in 1 and 2",
        (true, false) => " ready in 1",
        (false, true) => " ready in 2",
        (false, false) => "",
    }
}

/// The line of a thread that differs from an event on, and in which traces it is ready there.
pub fn differs_line(
    alloc: Global,
    thread: u8,
    event: u32,
    first: bool,
    second: bool,
) -> Result<String, AllocError>
    ensures { IfOk result (λ s. string_bytes s ≡ differs_line thread event (ready_text first second)) }
{
    let ready = ready_text(first, second);
    format!(in alloc; "thread {thread} differs event {event}{ready}\n")
}

/// The end of a thread.
pub fn end_text(alloc: Global, thread: &ThreadTrace) -> Result<String, AllocError>
    ensures { IfOk result (λ s. string_bytes s ≡ end_text thread.now) }
{
    let end = thread.end().number();
    let code = thread.end().code();
    let steps = thread.steps();
    format!(in alloc; "end {end} code {code} steps {steps}")
}
