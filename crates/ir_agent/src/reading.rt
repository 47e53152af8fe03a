//! Bytecodes are read from an expression.

ghost use Rattle.std.specs.Prelude.{◌≡◌, ◌≤◌, ◌+◌, ◌*◌, drop, length};
ghost use Rattle.ir_agent.specs.Operations.{wrapped, number_from};
ghost use Rattle.ir_agent.specs.Evaluation.{with_number, fetch};

use crate::evaluate_err::EvaluateErr;
use crate::fetched::Fetched;
use crate::operation::{Operation, behind, operation_of};

// A number of one more byte.
fn more(before: u64, byte: u8) -> u64
    ensures { result ≡ wrapped (before * 256 + byte) }
{
    ((u128::from(before) * 256 + u128::from(byte)) % (1 << 64)) as u64
}

// The number that bytes write behind those that wrote `before`, the highest first.
#[tactic(auto, unfolding(crate::specs::Operations::number_from))]
fn number_from(before: u64, bytes: &[u8]) -> u64
    ensures { result ≡ number_from before bytes.now }
{
    match bytes {
        [] => before,
        [byte, rest @ ..] => number_from(more(before, *byte), rest),
    }
}

// A bytecode with the number that begins at a place.
fn with_number(code: &[u8], start: usize, operation: Operation) -> Result<Fetched, EvaluateErr>
    requires { start ≤ length code.now }
    ensures { result ≡ with_number operation start (drop start code.now) }
{
    let count = behind(operation);
    let rest = &code[start..];
    if count > rest.len() {
        return Err(EvaluateErr::Outside);
    }
    let number = number_from(0, &rest[..count]);
    Ok(Fetched {
        operation,
        number,
        next: start + count,
    })
}

/// The bytecode at a place of an expression, with the number behind it.
pub fn fetch(code: &[u8], place: usize) -> Result<Fetched, EvaluateErr>
    ensures { result ≡ fetch code.now place }
{
    let Some(byte) = code.get(place) else {
        return Err(EvaluateErr::Outside);
    };
    let Some(operation) = operation_of(*byte) else {
        return Err(EvaluateErr::UnknownBytecode);
    };
    with_number(code, place + 1, operation)
}
