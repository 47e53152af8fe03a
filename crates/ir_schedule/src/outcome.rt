//! What threads and objects came to.

ghost use Rattle.ir_schedule.specs.Conditions.{ends_by, exits_with, is_bad, is_fault, is_spent, some_is};
ghost use Rattle.ir_flat.specs.Flat.{Flat};
ghost use Rattle.std.specs.List.{slice_index_or};
ghost use Rattle.std.specs.Prelude.{◌≡◌, [], None, map};

use ir_flat::Flat;
use ir_thread::{End, Thread};

// Whether a thread has ended so.
pub fn ends_by(ended: Option<End>, number: u32) -> bool
    ensures { result ≡ ends_by number ended }
{
    match ended {
        Some(end) => end.number() as u32 == number,
        None => false,
    }
}

// Whether a thread exits with this code.
pub fn exits_with(ended: Option<End>, code: u32) -> bool
    ensures { result ≡ exits_with code ended }
{
    match ended {
        Some(End::Exit(given)) => given == code,
        _ => false,
    }
}

// How thread t ended, if it has.
pub fn end_at(flat: &Flat<'_>, t: u32) -> Option<End>
    ensures { result ≡ slice_index_or (map (λ x. x.ended) flat.now.threads) t None }
{
    let threads = flat.threads();
    if t as usize >= threads.len() {
        return None;
    }
    threads[t as usize].ended()
}

// What thread t printed.
pub fn output_at<'a>(flat: &'a Flat<'_>, t: u32) -> &'a [u8]
    ensures { result.now ≡ slice_index_or (map (λ x. x.output) flat.now.threads) t [] }
{
    let threads = flat.threads();
    if t as usize >= threads.len() {
        return &[];
    }
    threads[t as usize].output()
}

// The word of this index of an object.
pub fn word_at(flat: &Flat<'_>, object: u32, index: u32) -> u32
    ensures { result ≡ slice_index_or (slice_index_or (map (λ c. c.words) flat.now.objects) object []) index 0 }
{
    let objects = flat.objects();
    if object as usize >= objects.len() {
        return 0;
    }
    let words = objects[object as usize].contents();
    if index as usize >= words.len() {
        return 0;
    }
    words[index as usize]
}

// Whether some thread has ended, and not by an exit.
#[tactic(auto, using(crate::proofs::Texts::some_is_true_at_place, crate::proofs::Texts::some_is_step, crate::proofs::Texts::some_is_false_at_end))]
pub fn some_fault(threads: &[Thread]) -> bool
    ensures { result ≡ some_is is_fault (map (λ x. x.ended) threads.now) }
{
    'threads: for thread in threads {
        if let Some(end) = thread.ended() {
            if end.number() != 1 {
                return true;
            }
        }
    }
    false
}

// Whether a thread has ended, and not by an exit with code 0.
fn is_bad(ended: Option<End>) -> bool
    ensures { result ≡ is_bad ended }
{
    match ended {
        None => false,
        Some(end) => !exits_with(Some(end), 0),
    }
}

// Whether some thread has ended so.
#[tactic(auto, using(crate::proofs::Texts::some_is_true_at_place, crate::proofs::Texts::some_is_step, crate::proofs::Texts::some_is_false_at_end))]
pub fn some_bad(threads: &[Thread]) -> bool
    ensures { result ≡ some_is is_bad (map (λ x. x.ended) threads.now) }
{
    'threads: for thread in threads {
        if is_bad(thread.ended()) {
            return true;
        }
    }
    false
}

// Whether some thread has spent its budget.
#[tactic(auto, using(crate::proofs::Texts::some_is_true_at_place, crate::proofs::Texts::some_is_step, crate::proofs::Texts::some_is_false_at_end))]
pub fn some_spent(threads: &[Thread]) -> bool
    ensures { result ≡ some_is is_spent (map (λ x. x.ended) threads.now) }
{
    'threads: for thread in threads {
        if ends_by(thread.ended(), End::BudgetSpent.number() as u32) {
            return true;
        }
    }
    false
}
