//! What each bytecode does to the stack.

ghost use Rattle.std.specs.Prelude.{◌≡◌, ◌<◌, ◌+◌, ◌*◌, ◌∷◌, [], length, MatchResult, OnOk, slice_get};
ghost use Rattle.ir_agent.specs.Evaluation.{scene_of, after_binary, after_unary, after_source, after_order, or_empty, number_in_memory, seen_byte, most_stack, LeavesStack};
ghost use Rattle.ir_agent.specs.Operations.{wrapped};

use crate::arithmetic::{binary_value, unary_value};
use crate::evaluate_err::EvaluateErr;
use crate::operation::{Binary, Order, Source, Unary, bytes_in};
use crate::seen::Seen;
use crate::stack::Stack;

// Takes the number on top.
fn take(stack: &mut Stack) -> Result<u64, EvaluateErr>
    ensures taken { MatchResult result (λ n. stack.old ≡ n ∷ stack.new) (λ e. (stack.old ≡ []) × (e ≡ EvaluateErr.StackEmpty)) }
    ensures room { OnOk result (length stack.new < most_stack) }
{
    stack.pop().ok_or(EvaluateErr::StackEmpty)
}

/// A number is made of two.
///
/// # Errors
/// `StackEmpty`, `DivisionByZero`.
pub fn do_binary(operation: Binary, stack: &mut Stack) -> Result<(), EvaluateErr>
    ensures { LeavesStack result stack.new (after_binary operation stack.old) }
{
    let b = take(stack)?;
    let a = take(stack)?;
    let Some(value) = binary_value(operation, a, b) else {
        return Err(EvaluateErr::DivisionByZero);
    };
    stack.put_back(value);
    Ok(())
}

/// A number is made of one.
///
/// # Errors
/// `StackEmpty`.
pub fn do_unary(operation: Unary, number: u64, stack: &mut Stack) -> Result<(), EvaluateErr>
    ensures { LeavesStack result stack.new (after_unary operation number stack.old) }
{
    let a = take(stack)?;
    stack.put_back(unary_value(operation, number, a));
    Ok(())
}

// The byte at an address of 32 bits.
fn byte_at<S: Seen>(seen: &S, address: u64) -> Option<u8>
    ensures { result ≡ seen_byte (scene_of (S.registers seen.now) (S.bytes seen.now)) address }
{
    if address >= 1 << 32 {
        return None;
    }
    seen.byte(address as u32)
}

// A byte below a number.
fn joined(low: u8, high: u64) -> u64
    ensures { result ≡ wrapped (low + 256 * high) }
{
    ((u128::from(low) + 256 * u128::from(high)) % (1 << 64)) as u64
}

// The number that bytes from an address on write, the lowest first, if they are all there.
#[tactic(auto, unfolding(crate::specs::Evaluation::number_in_memory))]
fn number_at<S: Seen>(seen: &S, count: usize, address: u64) -> Option<u64>
    ensures { result ≡ number_in_memory (scene_of (S.registers seen.now) (S.bytes seen.now)) count address }
{
    if count == 0 {
        return Some(0);
    }
    let low = byte_at(seen, address)?;
    let high = number_at(seen, count - 1, address + 1)?;
    Some(joined(low, high))
}

/// A number is put on the stack.
///
/// # Errors
/// `StackEmpty`, `StackFull`, `NoMemory`, `NoRegister`.
pub fn do_source<S: Seen>(
    seen: &S,
    source: Source,
    number: u64,
    stack: &mut Stack,
) -> Result<(), EvaluateErr>
    ensures { LeavesStack result stack.new (after_source (scene_of (S.registers seen.now) (S.bytes seen.now)) source number stack.old) }
{
    match source {
        Source::Memory(width) => {
            let address = take(stack)?;
            let Some(value) = number_at(seen, bytes_in(width), address) else {
                return Err(EvaluateErr::NoMemory);
            };
            stack.put_back(value);
            Ok(())
        }
        Source::Constant(_) => stack.push(number),
        Source::Register => {
            let Some(value) = seen.register(number) else {
                return Err(EvaluateErr::NoRegister);
            };
            stack.push(u64::from(value))
        }
    }
}

// The number of a place below the top again.
fn repeat(depth: u64, stack: &mut Stack) -> Result<(), EvaluateErr>
    ensures { LeavesStack result stack.new (or_empty (slice_get stack.old depth) stack.old) }
{
    let Some(value) = stack.below_top(depth) else {
        return Err(EvaluateErr::StackEmpty);
    };
    stack.push(value)
}

// The two upper numbers exchanged.
#[tactic(auto, using(crate::proofs::Room::room_for_another))]
fn swap(stack: &mut Stack) -> Result<(), EvaluateErr>
    ensures { LeavesStack result stack.new (after_order Order.Swap 0 stack.old) }
{
    let b = take(stack)?;
    let a = take(stack)?;
    stack.put_back(b);
    stack.put_back(a);
    Ok(())
}

// The top below the next two.
#[tactic(auto, using(crate::proofs::Room::room_for_another, crate::proofs::Room::room_for_a_third))]
fn rotate(stack: &mut Stack) -> Result<(), EvaluateErr>
    ensures { LeavesStack result stack.new (after_order Order.Rotate 0 stack.old) }
{
    let c = take(stack)?;
    let b = take(stack)?;
    let a = take(stack)?;
    stack.put_back(c);
    stack.put_back(a);
    stack.put_back(b);
    Ok(())
}

/// The stack is ordered.
///
/// # Errors
/// `StackEmpty`, `StackFull`.
pub fn do_order(order: Order, number: u64, stack: &mut Stack) -> Result<(), EvaluateErr>
    ensures { LeavesStack result stack.new (after_order order number stack.old) }
{
    match order {
        Order::Duplicate => repeat(0, stack),
        Order::Pop => {
            take(stack)?;
            Ok(())
        }
        Order::Swap => swap(stack),
        Order::Pick => repeat(number, stack),
        Order::Rotate => rotate(stack),
    }
}
