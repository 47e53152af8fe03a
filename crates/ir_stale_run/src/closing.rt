//! Rows that a thread has passed.

ghost use Rattle.std.specs.Prelude.{◌≡◌, ◌≢◌, ◌⊎◌, ◌<◌, ◌≤◌, ℕ, true, false, IfSome, IfNone, length, slice_get, slice_set, slice_index_or, Some};
ghost use Rattle.ir_thread.specs.Permitted.{most_steps};
ghost use Rattle.ir_past.specs.declared.stale_write.StaleWrite.{StaleWrite};
ghost use Rattle.ir_stale_run.specs.declared.kept.Open.{Open};
ghost use Rattle.ir_stale_run.specs.declared.found.Found.TheVariants.{Unknown};
ghost use Rattle.ir_stale_run.specs.Watch.{IsFoundAs, IsGuide, IsOpenAt, IsWatch, IsWatchedWrite, NoneEnds, AddsRests, IsWithout};

use crate::found::Found;
use crate::guide::Guide;
use crate::judging::found_of;
use crate::kept::Open;
use crate::watch::Watch;

// How many steps more than the run a thread may take to come to the same call.
const MORE_STEPS: u64 = 65_536;

// How a row rests on its read whose thread, at position k, has left the object.
fn judged(guide: Guide<'_, '_>, t: usize, k: u64, opened: Open) -> Found
    requires guide { IsGuide guide.route.fitted.now guide.rows.now guide.route.ends.now guide.route.code.now }
    requires opened { IsOpenAt guide.copies guide.route.fitted.now guide.rows.now t k opened }
    requires here { opened.span.end ≡ k }
    requires bound { k ≤ most_steps }
    ensures { (x : StaleWrite) → slice_get guide.entry.rows.now opened.span.row ≡ Some x → IsFoundAs guide.entry.copies guide.entry.route.fitted.now x result }
{
    let Open { span, kept } = opened;
    found_of(guide.route.code.code(), kept, k - span.read + MORE_STEPS)
}

// Keeps what is found of a row.
fn keep(rests: &mut [Found], row: usize, rest: Found)
    requires { row < length rests.old }
    ensures { rests.new ≡ slice_set rests.old row rest }
{
    rests[row] = rest;
}

// Whether an open row ends at position k, if there is such a row.
fn ends_at(opened: &[Open], i: usize, k: u64) -> Option<bool>
    ensures there { IfSome result (λ b. i < length opened.now) }
    ensures ends { IfSome result (λ b. b ≡ true → (d : Open) → (slice_index_or opened.now i d).span.end ≡ k) }
    ensures later { IfSome result (λ b. b ≡ false → (d : Open) → (slice_index_or opened.now i d).span.end ≢ k) }
    ensures past { IfNone result (length opened.now ≤ i) }
{
    match opened.get(i) {
        Some(row) => Some(row.span.end == k),
        None => None,
    }
}

// Takes an open row out.
fn take_out(opened: &mut Vec<Open>, i: usize) -> Open
    requires { i < length opened.old.items }
    ensures out { IsWithout opened.old.items opened.new.items i }
    ensures taken { (d : Open) → slice_index_or opened.old.items i d ≡ result }
{
    opened.swap_remove(i)
}

// Closes the open rows of thread t that end at position k, where it is, and keeps what is found of them.
pub fn close_due(guide: Guide<'_, '_>, t: usize, k: u64, watch: &mut Watch, rests: &mut [Found])
    requires guide { IsGuide guide.route.fitted.now guide.rows.now guide.route.ends.now guide.route.code.now }
    requires watch { IsWatch guide.copies guide.route.fitted.now guide.rows.now t k watch.old }
    requires size { length rests.old ≡ length guide.rows.now }
    requires bound { k ≤ most_steps }
    ensures watch { IsWatch guide.entry.copies guide.entry.route.fitted.now guide.entry.rows.now t k watch.new }
    ensures ends { NoneEnds k watch.new.opened.items }
    ensures same { (watch.new.spans ≡ watch.old.spans) × (watch.new.next ≡ watch.old.next) }
    ensures adds { AddsRests guide.entry.copies guide.entry.route.fitted.now guide.entry.rows.now rests.old rests.new }
    ensures found { (r : ℕ) (x : StaleWrite) → slice_get guide.entry.rows.now r ≡ Some x → IsWatchedWrite watch.old r
        → IsWatchedWrite watch.new r ⊎ IsFoundAs guide.entry.copies guide.entry.route.fitted.now x (slice_index_or rests.new r Unknown) }
{
    let mut i = 0;
    'opened: while let Some(ends) = ends_at(&watch.opened, i, k) {
        if ends {
            let opened = take_out(&mut watch.opened, i);
            let row = opened.span.row;
            keep(rests, row, judged(guide, t, k, opened));
        } else {
            i += 1;
        }
    }
}
