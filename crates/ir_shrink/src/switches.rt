//! How often threads change places.

ghost use Rattle.std.specs.Prelude.{◌≡◌, ◌≤◌, map};
ghost use Rattle.ir_record.specs.Recording.{turns_of_items};
ghost use Rattle.ir_shrink.specs.Switches.{change_from, thread_changes};

use ir_record::Item;

// 1 for a step of another thread than the last one, if there was a last one.
fn change(last: Option<u8>, thread: u8) -> u64
    ensures value { result ≡ change_from last thread }
    ensures few { result ≤ 1 }
{
    match last {
        Some(last) => { if last == thread { 0 } else { 1 } }
        None => 0,
    }
}

/// How often a turn of these items is of another thread than the one before it.
pub fn switches(items: &[Item]) -> u64
    ensures { result ≡ thread_changes (map (λ t. t.0) (turns_of_items items.now)) }
{
    let mut last = None;
    let mut count = 0;
    'items: for item in items {
        if item.count == 0 {
            continue;
        }
        let more = change(last, item.thread);
        count += more;
        last = Some(item.thread);
    }
    count
}
