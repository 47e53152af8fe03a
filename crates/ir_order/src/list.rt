//! The list that spells an order.

ghost use Rattle.std.specs.Prelude.{◌≡◌, ◌≢◌, List, [], ◌++◌, IfOk, OnOk, replicate};
ghost use Rattle.std.specs.String.{string_bytes};
ghost use Rattle.ir_record.specs.Recording.{order_of_turns, turns_of_items};
ghost use Rattle.ir_record.specs.Refusing.{Turn};
ghost use Rattle.ir_order.specs.Spelling.{item_text, with_item, Spells, IsListOf};

use ir_record::{Item, Turns};
use ir_record_command::MOST_TURNS;
use std::alloc::{AllocError, Global};

#[cfg(test)]
mod tests;

// The text of an item.
fn item_text(alloc: Global, item: Item) -> Result<String, AllocError>
    ensures { IfOk result (λ s. string_bytes s ≡ item_text item.thread item.refused item.count) }
{
    let thread = item.thread;
    let count = item.count;
    if item.refused {
        if count == 1 {
            format!(in alloc; "{thread}!")
        } else {
            format!(in alloc; "{thread}!x{count}")
        }
    } else if count == 1 {
        format!(in alloc; "{thread}")
    } else {
        format!(in alloc; "{thread}x{count}")
    }
}

// Puts an item at the end of a list.
fn push_item(alloc: Global, list: &mut String, item: Item) -> Result<(), AllocError>
    ensures { OnOk result (string_bytes list.new ≡ with_item (string_bytes list.old) (item_text item.thread item.refused item.count)) }
{
    let item = item_text(alloc, item)?;
    if !list.is_empty() {
        list.push(',')?;
    }
    list.push_str(item.as_str())?;
    Ok(())
}

// Puts an item's turns at the end of a list, in items of no more than `MOST_TURNS` turns.
fn push_turns(alloc: Global, list: &mut String, item: Item) -> Result<(), AllocError>
    ensures { OnOk result ((turns : List Turn) → IsListOf (string_bytes list.old) turns → IsListOf (string_bytes list.new) (turns ++ replicate item.count (item.thread, item.refused))) }
{
    let mut left = item.count;
    'items: while left > 0 {
        let count = left.min(MOST_TURNS);
        push_item(alloc, list, Item { count, ..item })?;
        left -= count;
    }
    Ok(())
}

/// The list that spells these turns: `T` for one step of thread T, `TxN` for N steps, with commas between. It is empty
/// where there is no step.
///
/// # Errors
/// Out of memory.
pub fn list_of(alloc: Global, turns: &[Turns]) -> Result<String, AllocError>
    ensures spelled { IfOk result (λ list. order_of_turns turns.now ≢ [] → Spells (string_bytes list) (order_of_turns turns.now)) }
    ensures empty { IfOk result (λ list. order_of_turns turns.now ≡ [] → string_bytes list ≡ []) }
{
    let mut list = String::new(alloc);
    'turns: for each in turns {
        let item = Item {
            thread: each.thread,
            count: each.count,
            refused: false,
        };
        push_turns(alloc, &mut list, item)?;
    }
    Ok(list)
}

/// The list that spells the turns of these items: as `list_of` writes it, with a mark `!` after a thread where tries are refused.
///
/// # Errors
/// Out of memory.
pub fn list_of_items(alloc: Global, items: &[Item]) -> Result<String, AllocError>
    ensures { IfOk result (λ list. IsListOf (string_bytes list) (turns_of_items items.now)) }
{
    let mut list = String::new(alloc);
    'items: for each in items {
        push_turns(alloc, &mut list, *each)?;
    }
    Ok(list)
}
