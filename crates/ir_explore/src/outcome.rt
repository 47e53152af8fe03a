//! The lines of an outcome.

ghost use Rattle.std.specs.Prelude.{◌≡◌, ◌++◌, length, OnOk, IfOk};
ghost use Rattle.std.specs.List.{slice_index_or};
ghost use Rattle.ir_object.specs.Empty.{empty};
ghost use Rattle.ir_explore.specs.Texts.{outcome_threads_text, outcome_object_text, objects_text, objects_in, IsOutcomeText};

use crate::lines::{outcome_line, put_object, put_thread};
use crate::started::Started;
use ir_flat::Flat;
use ir_object::Object;
use ir_order::list_of_items;
use ir_outcomes::Shown;
use ir_thread::Thread;
use std::alloc::{AllocError, Global};

// Puts the lines of the threads.
fn put_threads(alloc: Global, text: &mut Vec<u8>, threads: &[Thread]) -> Result<(), AllocError>
    ensures { OnOk result (text.new.items ≡ text.old.items ++ outcome_threads_text threads.now (length threads.now)) }
{
    for t in 0..threads.len() {
        put_thread(alloc, text, t, &threads[t])?;
    }
    Ok(())
}

// Puts the line of an object whose words aren't its first ones.
fn put_changed(
    alloc: Global,
    text: &mut Vec<u8>,
    number: usize,
    first: &[u32],
    words: &[u32],
) -> Result<(), AllocError>
    ensures { OnOk result (text.new.items ≡ text.old.items ++ outcome_object_text number first.now words.now) }
{
    if words == first {
        return Ok(());
    }
    put_object(alloc, text, number, words)
}

// Puts the lines of the objects.
fn put_objects(
    alloc: Global,
    text: &mut Vec<u8>,
    started: Started<'_>,
    now: &[Object],
) -> Result<(), AllocError>
    requires { length now.now ≡ length started.first.now }
    ensures { OnOk result (text.new.items ≡ text.old.items ++ objects_text started.entry.words started.entry.first.now now.now (length now.now)) }
{
    let words = started.words;
    for o in 0..now.len() {
        let first = &started.first[o].contents()[..words];
        put_changed(alloc, text, o, first, &now[o].contents()[..words])?;
    }
    Ok(())
}

/// The lines of an outcome at this state, by its number.
pub fn outcome_text(
    alloc: Global,
    started: Started<'_>,
    flat: &Flat<'_>,
    number: usize,
    shown: &Shown,
) -> Result<Vec<u8>, AllocError>
    requires { length flat.now.objects ≡ length started.first.now }
    ensures { IfOk result (λ text. IsOutcomeText (objects_in started.entry) flat.now number shown.now text.items) }
{
    let list = list_of_items(alloc, shown.turns.as_slice())?;
    let line = outcome_line(alloc, number, shown.level, list.as_str())?;
    let mut text = Vec::from_slice(alloc, line.as_bytes())?;
    put_threads(alloc, &mut text, flat.threads())?;
    put_objects(alloc, &mut text, started, flat.objects())?;
    Ok(text)
}
