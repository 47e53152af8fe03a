//! Orders as turns, and turns as items.

ghost use Rattle.std.specs.Prelude.{◌≡◌, ◌≤◌, IfOk, length, take, replicate};
ghost use Rattle.ir_record.specs.Recording.{order_of_turns, turns_of_items};
ghost use Rattle.ir_record.specs.Refusing.{plain_turns};

use crate::item::Item;
use crate::turns::Turns;
use std::alloc::{AllocError, Global};

// How many entries at the prefix of the order are this one.
fn repeats(order: &[u8], entry: u8) -> usize
    ensures within { result ≤ length order.now }
    ensures same { take result order.now ≡ replicate result entry }
{
    for index in 0..order.len() {
        if order[index] != entry {
            return index;
        }
    }
    order.len()
}

// The turns that write the order out.
pub fn turns_of(alloc: Global, order: &[u8]) -> Result<Vec<Turns>, AllocError>
    ensures { IfOk result (λ turns. order_of_turns turns.items ≡ order.now) }
{
    let mut turns = Vec::new(alloc);
    let mut at = 0;
    'order: while at < order.len() {
        let thread = order[at];
        let more = repeats(&order[at + 1..], thread);
        turns.push(Turns {
            thread,
            count: more as u64 + 1,
        })?;
        at += more + 1;
    }
    Ok(turns)
}

// The items of these turns, in which no try is refused that may enter.
pub fn items_of(alloc: Global, order: &[Turns]) -> Result<Vec<Item>, AllocError>
    ensures { IfOk result (λ items. turns_of_items items.items ≡ plain_turns (order_of_turns order.now)) }
{
    let mut items = Vec::with_capacity(alloc, order.len())?;
    'turns: for turns in order {
        items.push(Item {
            thread: turns.thread,
            count: turns.count,
            refused: false,
        })?;
    }
    Ok(items)
}
