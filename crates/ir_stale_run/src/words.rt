//! Which words of an object were got and are others, and whether any was put.

ghost use Rattle.std.specs.Prelude.{◌≡◌, ◌&&◌};
ghost use Rattle.ir_stale_run.specs.WhatIf.{is_reading, is_get, gets, is_writing_hold, is_put_call, puts, is_changed, changed_word};
ghost use Rattle.ir_stale_run.specs.declared.hold.Hold.TheVariants.{Reading};

use crate::hold::Hold;
use crate::holding::hold_after;
use ir_event_walk::{Exchange, word_of};
use ir_image::MOST_OBJECT_WORDS;
use ir_thread::Ask;

// Whether a call gets this word of the object, in the read's hold.
fn gets_now(object: u8, index: u8, hold: Hold, asked: Ask) -> bool
    ensures { result ≡ (is_reading hold && is_get object index asked) }
{
    match (hold, asked) {
        (Hold::Reading, Ask::Get(got, place)) => got == object && place == index,
        _ => false,
    }
}

// Whether the calls get this word of the object in the read's hold.
fn gets(object: u8, index: u8, calls: &[Exchange]) -> bool
    ensures { result ≡ gets object index Reading calls.now }
{
    let mut hold = Hold::Reading;
    for call in calls {
        if gets_now(object, index, hold, call.asked) {
            return true;
        }
        hold = hold_after(object, call, hold);
    }
    false
}

// Whether a call puts a word into the object, in the write's hold.
fn puts_now(object: u8, hold: Hold, asked: Ask) -> bool
    ensures { result ≡ (is_writing_hold hold && is_put_call object asked) }
{
    match (hold, asked) {
        (Hold::Writing, Ask::Put(written, _, _)) => written == object,
        _ => false,
    }
}

// Whether the calls put a word into the object in the write's hold.
pub fn puts(object: u8, calls: &[Exchange]) -> bool
    ensures { result ≡ puts object Reading calls.now }
{
    let mut hold = Hold::Reading;
    for call in calls {
        if puts_now(object, hold, call.asked) {
            return true;
        }
        hold = hold_after(object, call, hold);
    }
    false
}

// Whether the calls get a word of the object in the read's hold that was this and is another.
fn is_changed(object: u8, was: &[u32], now: &[u32], calls: &[Exchange], index: u8) -> bool
    ensures { result ≡ is_changed object was.now now.now calls.now index }
{
    word_of(was, index) != word_of(now, index) && gets(object, index, calls)
}

// The least word that was got in the read's hold and is another at the write. Time is linear in the calls.
pub fn changed_word(object: u8, was: &[u32], now: &[u32], calls: &[Exchange]) -> Option<u8>
    ensures { result ≡ changed_word object was.now now.now calls.now }
{
    for index in 0..MOST_OBJECT_WORDS as u8 {
        if is_changed(object, was, now, calls, index) {
            return Some(index);
        }
    }
    None
}
