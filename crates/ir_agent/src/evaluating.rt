//! Expressions are evaluated.

ghost use Rattle.std.specs.Prelude.{◌≡◌};
ghost use Rattle.ir_agent.specs.Evaluation.{scene_of, flowed, performed, expression_step, evaluates, IsTurnOf};
ghost use Rattle.ir_agent.specs.Evaluation as evaluation;

use crate::evaluate_err::EvaluateErr;
use crate::fetched::Fetched;
use crate::operation::{Flow, Operation};
use crate::performing::{do_binary, do_order, do_source, do_unary};
use crate::reading::fetch;
use crate::seen::Seen;
use crate::stack::Stack;
use crate::turn::Turn;

/// The most steps of an evaluation.
pub const MOST_EXPRESSION_STEPS: usize = 4096;

// Goes to a place, or on, or ends with the top as the value.
fn flow(flow: Flow, number: u64, next: usize, stack: &mut Stack) -> Turn
    ensures { IsTurnOf result stack.new (flowed flow number next stack.old) }
{
    match flow {
        Flow::Goto => Turn::Goes(number),
        Flow::GotoIf => match stack.pop() {
            None => Turn::Ends(Err(EvaluateErr::StackEmpty)),
            Some(0) => Turn::Goes(next as u64),
            Some(_) => Turn::Goes(number),
        },
        Flow::End => Turn::Ends(stack.pop().ok_or(EvaluateErr::StackEmpty)),
    }
}

// Does to the stack what a bytecode does that isn't of flow.
fn perform<S: Seen>(seen: &S, fetched: Fetched, stack: &mut Stack) -> Turn
    ensures { IsTurnOf result stack.new (performed (scene_of (S.registers seen.now) (S.bytes seen.now)) fetched.operation fetched.number fetched.next stack.old) }
{
    let number = fetched.number;
    let done = match fetched.operation {
        Operation::Binary(operation) => do_binary(operation, stack),
        Operation::Unary(operation) => do_unary(operation, number, stack),
        Operation::Source(source) => do_source(seen, source, number, stack),
        Operation::Order(order) => do_order(order, number, stack),
        Operation::Flow(kind) => return flow(kind, number, fetched.next, stack),
    };
    match done {
        Ok(()) => Turn::Goes(fetched.next as u64),
        Err(error) => Turn::Ends(Err(error)),
    }
}

// One step, at a place.
fn step<S: Seen>(seen: &S, code: &[u8], place: u64, stack: &mut Stack) -> Turn
    ensures { IsTurnOf result stack.new (expression_step (scene_of (S.registers seen.now) (S.bytes seen.now)) code.now place stack.old) }
{
    if place >= code.len() as u64 {
        return Turn::Ends(Err(EvaluateErr::Outside));
    }
    match fetch(code, place as usize) {
        Ok(fetched) => perform(seen, fetched, stack),
        Err(error) => Turn::Ends(Err(error)),
    }
}

/// What an expression evaluates to.
///
/// # Errors
/// The expression has no value.
pub fn evaluate<S: Seen>(seen: &S, code: &[u8]) -> Result<u64, EvaluateErr>
    ensures { result ≡ evaluates (scene_of (S.registers seen.now) (S.bytes seen.now)) code.now }
{
    let mut stack = Stack::new();
    let mut place = 0;
    'steps: for taken in 0..MOST_EXPRESSION_STEPS {
        match step(seen, code, place, &mut stack) {
            Turn::Goes(next) => place = next,
            Turn::Ends(result) => return result,
        }
    }
    Err(EvaluateErr::TooManySteps)
}

/// Whether a condition is met: it evaluates to something else than 0, or has no value.
pub fn holds<S: Seen>(seen: &S, code: &[u8]) -> bool
    ensures { result ≡ evaluation.condition_holds (scene_of (S.registers seen.now) (S.bytes seen.now)) code.now }
{
    match evaluate(seen, code) {
        Ok(value) => value != 0,
        Err(_) => true,
    }
}
