//! The threads and the words of objects at one moment of a walk.

ghost use Rattle.std.specs.Prelude.{◌≡◌, ◌<◌, length, slice_index, IfOk};
ghost use Rattle.std.specs.List.{slice_index_or};
ghost use Rattle.ir_flat.specs.Flat.{idle};
ghost use Rattle.ir_object.specs.Empty.{empty};

use ir_replay::State;
use ir_thread::Thread;
use std::alloc::{AllocError, Global};

/// Thread t.
pub fn thread_of(state: &State, t: usize) -> &Thread
    requires { t < length state.now.threads }
    ensures { result.now ≡ slice_index_or state.now.threads t idle }
{
    &state.threads()[t]
}

/// The words of an object.
///
/// # Errors
/// Out of memory.
pub fn words_of(alloc: Global, state: &State, object: u8) -> Result<Vec<u32>, AllocError>
    ensures { IfOk result (λ words. words.items ≡ (slice_index_or state.now.objects object empty).words) }
{
    match state.objects().get(object as usize) {
        Some(object) => Vec::from_slice(alloc, object.contents()),
        None => Ok(Vec::new(alloc)),
    }
}

/// A word of an object; 0 if there is no such object or word.
pub fn word_at(state: &State, object: u8, index: u8) -> u32
    ensures { result ≡ slice_index (slice_index_or state.now.objects object empty).words index }
{
    match state.objects().get(object as usize) {
        Some(object) => word_of(object.contents(), index),
        None => 0,
    }
}

/// The word of an index; 0 past the last.
pub fn word_of(words: &[u32], index: u8) -> u32
    ensures { result ≡ slice_index words.now index }
{
    match words.get(index as usize) {
        Some(word) => *word,
        None => 0,
    }
}
