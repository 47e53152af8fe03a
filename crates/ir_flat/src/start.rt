//! The threads and objects of a guest at its start.

ghost use Rattle.ir_image.specs.Guest.{most_object_words, object_count, first_words};
ghost use Rattle.ir_image.specs.Padded.{padded};
ghost use Rattle.ir_thread.specs.State.{most_budget};
ghost use Rattle.ir_flat.specs.Flat.{start_threads, start_cells};
ghost use Rattle.ir_flat.specs.Room.{HaveRoom};
ghost use Rattle.std.specs.Prelude.{◌≡◌, ◌<◌, ◌≤◌, length, IfOk};

use ir_image::{Image, MOST_OBJECT_WORDS};
use ir_object::Object;
use ir_thread::{Profile, Thread};
use std::alloc::{AllocError, Global};

pub fn threads(
    alloc: Global,
    image: &Image,
    budget: u64,
    profile: Profile,
) -> Result<Vec<Thread>, AllocError>
    requires { budget ≤ most_budget }
    ensures { IfOk result (λ threads. threads.items ≡ start_threads image.now budget profile 0 (length image.now.entries)) }
{
    let count = image.entries().len();
    let mut threads = Vec::with_capacity(alloc, count)?;
    for number in 0..count {
        threads.push(Thread::new(alloc, image, number, budget, profile)?)?;
    }
    Ok(threads)
}

// These words, and 0 after them.
fn padded(words: &[u32]) -> [u32; MOST_OBJECT_WORDS]
    requires { length words.now ≤ most_object_words }
    ensures { result ≡ padded words.now }
{
    let mut contents = [0; MOST_OBJECT_WORDS];
    contents[..words.len()].copy_from_slice(words);
    contents
}

// What the object's words are at the start.
fn first_words(image: &Image, object: usize) -> [u32; MOST_OBJECT_WORDS]
    requires { object < object_count image.now }
    ensures { result ≡ first_words image.now object }
{
    let count = image.object_words();
    let words = &image.words()[count * object..];
    padded(&words[..count])
}

pub fn objects(alloc: Global, image: &Image) -> Result<Vec<Object>, AllocError>
    ensures { IfOk result (λ objects. objects.items ≡ start_cells image.now 0 (object_count image.now)) }
{
    let count = image.object_count();
    let mut objects = Vec::with_capacity(alloc, count)?;
    for number in 0..count {
        objects.push(Object::new(first_words(image, number)))?;
    }
    Ok(objects)
}

/// The threads become those of a guest before its first step, in the memory that they have.
pub fn restart_threads(threads: &mut [Thread], image: &Image, budget: u64, profile: Profile)
    requires budget { budget ≤ most_budget }
    requires size { length threads.old ≡ length image.now.entries }
    requires objects { HaveRoom threads.old (object_count image.now) }
    ensures { threads.new ≡ start_threads image.now budget profile 0 (length image.now.entries) }
{
    for number in 0..threads.len() {
        threads[number].restart(image, number, budget, profile);
    }
}

/// The objects become those of a guest before its first step.
pub fn restart_objects(objects: &mut [Object], image: &Image)
    requires { length objects.old ≡ object_count image.now }
    ensures { objects.new ≡ start_cells image.now 0 (object_count image.now) }
{
    for number in 0..objects.len() {
        objects[number] = Object::new(first_words(image, number));
    }
}
