//! What counts of what a run came to.

ghost use Rattle.std.specs.Prelude.{◌≡◌, [], map, IfOk, option_map};
ghost use Rattle.std.specs.List.{slice_index_or};
ghost use Rattle.ir_schedule.specs.Conditions.{end_state};
ghost use Rattle.ir_within.specs.Plans.{aspects_of};
ghost use Rattle.ir_within.specs.Aspects.{what_counts, counted_words};
ghost use Rattle.ir_within.specs.Seen.{value_of};

use crate::aspects::Aspects;
use crate::seen_end::SeenEnd;
use ir_flat::Flat;
use ir_object::Object;
use ir_thread::Thread;
use std::alloc::{AllocError, Global};
use std::hash::Hash;

/// What counts of what a run came to, to be looked up by a hash: nothing is in the lists that don't count.
#[derive(PartialEq, Eq, Hash, Drop)]
pub struct Seen {
    ends: Vec<SeenEnd>,
    outputs: Vec<Vec<u8>>,
    words: Vec<Vec<u32>>,
}

// How each thread ended.
fn ends_of(alloc: Global, threads: &[Thread]) -> Result<Vec<SeenEnd>, AllocError>
    ensures { IfOk result (λ v. map (λ e. e.ended) v.items ≡ map (λ x. x.ended) threads.now) }
{
    let mut ends = Vec::new(alloc);
    for thread in threads {
        let ended = thread.ended();
        ends.push(SeenEnd { ended })?;
    }
    Ok(ends)
}

// What each thread printed.
fn outputs_of(alloc: Global, threads: &[Thread]) -> Result<Vec<Vec<u8>>, AllocError>
    ensures { IfOk result (λ v. map (λ w. w.items) v.items ≡ map (λ x. x.output) threads.now) }
{
    let mut outputs = Vec::new(alloc);
    for thread in threads {
        let bytes = Vec::from_slice(alloc, thread.output())?;
        outputs.push(bytes)?;
    }
    Ok(outputs)
}

// The words of each object.
fn all_words(alloc: Global, objects: &[Object]) -> Result<Vec<Vec<u32>>, AllocError>
    ensures { IfOk result (λ v. map (λ w. w.items) v.items ≡ map (λ c. c.words) objects.now) }
{
    let mut words = Vec::new(alloc);
    for object in objects {
        let each = Vec::from_slice(alloc, object.contents())?;
        words.push(each)?;
    }
    Ok(words)
}

// The words of an object, none if there is no such object.
fn words_at(objects: &[Object], number: u8) -> &[u32]
    ensures { result.now ≡ slice_index_or (map (λ c. c.words) objects.now) number [] }
{
    match objects.get(number as usize) {
        Some(object) => object.contents(),
        None => &[],
    }
}

// The words of these objects.
fn words_of(alloc: Global, objects: &[Object], chosen: &[u8]) -> Result<Vec<Vec<u32>>, AllocError>
    ensures { IfOk result (λ v. map (λ w. w.items) v.items ≡ map (λ o. slice_index_or (map (λ c. c.words) objects.now) o []) chosen.now) }
{
    let mut words = Vec::new(alloc);
    for number in chosen {
        let each = Vec::from_slice(alloc, words_at(objects, *number))?;
        words.push(each)?;
    }
    Ok(words)
}

// The words of objects that count.
fn counted_words(
    alloc: Global,
    objects: &[Object],
    chosen: Option<&[u8]>,
) -> Result<Vec<Vec<u32>>, AllocError>
    ensures { IfOk result (λ v. map (λ w. w.items) v.items ≡ counted_words (option_map (λ o. o.now) chosen.entry) (map (λ c. c.words) objects.now)) }
{
    match chosen {
        None => all_words(alloc, objects),
        Some(chosen) => words_of(alloc, objects, chosen),
    }
}

/// What counts of what threads and objects came to.
///
/// # Errors
/// Out of memory.
pub fn seen_of(alloc: Global, aspects: Aspects<'_>, flat: &Flat<'_>) -> Result<Seen, AllocError>
    ensures { IfOk result (λ s. value_of s ≡ what_counts (aspects_of aspects.entry) (end_state flat.now)) }
{
    let mut ends = Vec::new(alloc);
    if aspects.ends {
        ends = ends_of(alloc, flat.threads())?;
    }
    let mut outputs = Vec::new(alloc);
    if aspects.outputs {
        outputs = outputs_of(alloc, flat.threads())?;
    }
    let words = counted_words(alloc, flat.objects(), aspects.objects)?;
    Ok(Seen {
        ends,
        outputs,
        words,
    })
}
