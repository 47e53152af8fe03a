//! Turns that are noted.

ghost use Rattle.std.specs.Prelude.{◌≡◌, ◌<◌, [], ◌∷◌, ◌++◌, ◌↔◌, IsTrue, OnOk};
ghost use Rattle.ir_record.specs.Recording.{turns_of_items};
ghost use Rattle.ir_shrink.specs.Items.{AreJoined, turns_of};

use ir_record::Item;
use std::alloc::AllocError;

// Whether two items are of one thread and treat tries alike.
fn are_alike(first: Item, next: Item) -> bool
    ensures { IsTrue result ↔ ((first.thread ≡ next.thread) × (first.refused ≡ next.refused)) }
{
    first.thread == next.thread && first.refused == next.refused
}

// Puts an item after another, with it as one if they are alike.
fn push_after(items: &mut Vec<Item>, last: Item, item: Item) -> Result<(), AllocError>
    ensures turns { OnOk result (turns_of_items items.new.items ≡ turns_of_items items.old.items ++ (turns_of last ++ turns_of item)) }
    ensures joined { OnOk result (AreJoined (items.old.items ++ last ∷ []) → 0 < item.count → AreJoined items.new.items) }
{
    if are_alike(last, item) {
        // No guest takes as many steps as would be too many here.
        let Some(count) = last.count.checked_add(item.count) else {
            return Err(AllocError);
        };
        items.push(Item { count, ..last })?;
        return Ok(());
    }
    items.push(last)?;
    items.push(item)?;
    Ok(())
}

/// The turns of an item are noted after others.
///
/// # Errors
/// Out of memory.
pub fn note(items: &mut Vec<Item>, item: Item) -> Result<(), AllocError>
    ensures turns { OnOk result (turns_of_items items.new.items ≡ turns_of_items items.old.items ++ turns_of item) }
    ensures joined { OnOk result (AreJoined items.old.items → AreJoined items.new.items) }
{
    if item.count == 0 {
        return Ok(());
    }
    match items.pop() {
        Some(last) => {
            push_after(items, last, item)?;
            Ok(())
        }
        None => {
            items.push(item)?;
            Ok(())
        }
    }
}
