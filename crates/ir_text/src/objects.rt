//! The lines of an object.

ghost use Rattle.std.specs.Prelude.{◌≡◌, ◌≢◌, ◌≤◌, ◌<◌, ◌+◌, ◌++◌, length, slice_index, slice_index_or, flat_map, codes, decimal, true, false, Some};
ghost use Rattle.arrayvec.specs.ArrayVec.{array_vec_len};
ghost use Rattle.ir_image.specs.Guest.{most_threads, most_object_words};
ghost use Rattle.ir_thread.specs.State.{held_at};
ghost use Rattle.ir_flat.specs.Flat.{idle};
ghost use Rattle.ir_flat.specs.Room.{object_with};
ghost use Rattle.ir_stream.specs.Writing.{WritesText};
ghost use Rattle.ir_text.specs.Texts.{joined, inside_for, words_text, object_text};
ghost use Rattle.ir_text.specs.Held.{held_by, state_line};

use crate::text::{Text, put_number, put_word};
use arrayvec::ArrayVec;
use ir_image::MOST_THREADS;
use ir_object::Object;
use ir_runs::Access;
use ir_stream::{DeviceErr, Sink, append, write_all};
use ir_thread::Thread;

// The most numbers of threads.
const MOST_NUMBERS: usize = MOST_THREADS as usize;

// The numbers of threads, rising.
type Numbers = ArrayVec<u8, MOST_NUMBERS>;

// What a thread is inside an object for, if it is inside.
fn held_by(threads: &[Thread], object: usize, thread: usize) -> Option<Access>
    requires { thread < length threads.now }
    ensures { result ≡ held_by threads.now object thread }
{
    match threads[thread].held().get(object) {
        Some(access) => *access,
        None => None,
    }
}

// Whether a thread that holds an object so is inside it for this access.
fn is_inside(held: Option<Access>, access: Access) -> bool
    ensures inside { result ≡ true → held ≡ Some access }
    ensures other { result ≡ false → held ≢ Some access }
{
    match (held, access) {
        (Some(Access::Reading), Access::Reading) | (Some(Access::Writing), Access::Writing) => true,
        _ => false,
    }
}

// The threads that are inside an object so.
fn inside_for(threads: &[Thread], object: usize, access: Access) -> Numbers
    requires { length threads.now ≤ most_threads }
    ensures value { result.items ≡ inside_for access (held_by threads.now object) (length threads.now) }
    ensures few { array_vec_len result ≤ most_threads }
{
    let mut inside = Numbers::new();
    for thread in 0..threads.len() {
        if is_inside(held_by(threads, object, thread), access) {
            append(&mut inside, &[thread as u8]);
        }
    }
    inside
}

// Puts numbers at the end, a comma before each.
fn put_others(text: &mut Text, numbers: &[u8])
    requires few { length numbers.now ≤ most_threads }
    requires room { array_vec_len text.old ≤ 560 }
    ensures text { text.new.items ≡ text.old.items ++ flat_map (λ m. codes "," ++ decimal m) numbers.now }
    ensures len { array_vec_len text.new ≤ array_vec_len text.old + 336 }
{
    for number in numbers {
        put_number(text, b",", *number as u64);
    }
}

// Puts numbers at the end, joined by commas, or `-` for none.
fn put_joined(text: &mut Text, numbers: &[u8])
    requires few { length numbers.now ≤ most_threads }
    requires room { array_vec_len text.old ≤ 512 }
    ensures text { text.new.items ≡ text.old.items ++ joined numbers.now }
    ensures len { array_vec_len text.new ≤ array_vec_len text.old + 356 }
{
    match numbers {
        [] => append(text, b"-"),
        [first, others @ ..] => {
            put_number(text, b"", *first as u64);
            put_others(text, others);
        }
    }
}

// Puts the first `count` of the object's words at the end.
fn put_words(text: &mut Text, object: &Object, count: usize)
    requires few { count ≤ most_object_words }
    requires room { array_vec_len text.old ≤ 880 }
    ensures text { text.new.items ≡ text.old.items ++ words_text (slice_index object.now.words) count }
    ensures len { array_vec_len text.new ≤ array_vec_len text.old + 144 }
{
    for index in 0..count as u8 {
        append(text, b" ");
        put_word(text, object.get(index));
    }
}

// Puts the first line into an empty text: how often the object was written and read, and who is inside.
fn put_state(text: &mut Text, threads: &[Thread], number: usize, object: &Object)
    requires empty { array_vec_len text.old ≡ 0 }
    requires few { length threads.now ≤ most_threads }
    ensures text { text.new.items ≡ text.old.items ++ state_line (length threads.now) (object_with object.now (held_by threads.now number)) }
    ensures len { array_vec_len text.new ≤ 790 }
{
    let fields = object.fields();
    put_number(text, b"version ", fields.version as u64);
    put_number(text, b" left ", fields.left as u64);
    append(text, b" readers ");
    put_joined(
        text,
        inside_for(threads, number, Access::Reading).as_slice(),
    );
    append(text, b" writer ");
    put_joined(
        text,
        inside_for(threads, number, Access::Writing).as_slice(),
    );
    append(text, b"\n");
}

/// Writes the lines of the object of this number among these threads, with the first `words` of its words. Takes no memory.
pub fn write_object<W: Sink>(
    threads: &[Thread],
    number: usize,
    object: &Object,
    words: usize,
    writer: &mut W,
) -> Result<(), DeviceErr>
    requires threads { length threads.now ≤ most_threads }
    requires words { words ≤ most_object_words }
    ensures { WritesText W.written W.broken writer.old writer.new (object_text (length threads.now) words (object_with object.now (held_by threads.now number))) result }
{
    let mut text = Text::new();
    put_state(&mut text, threads, number, object);
    append(&mut text, b"words");
    put_words(&mut text, object, words);
    append(&mut text, b"\n");
    write_all(writer, text.as_slice())
}
