//! How the table is opened and closed.

ghost use Rattle.std.specs.Prelude.{◌≡◌, ◌<◌, ◌≤◌, ◌+◌, ◌^◌, ℕ, [], length, slice_index, IfOk};
ghost use Rattle.std.specs.Slots.{slots_items, slots_len, IsFull};
ghost use mathlib.Core.Option.{some};
ghost use lib.ListN.{get_elem?};
ghost use Rattle.ir_image.specs.Guest.{object_count, most_object_words};
ghost use Rattle.ir_object.specs.Layout.{word_place, content_place};
ghost use Rattle.ir_crew.specs.Rule.{crew_tracks_from};
ghost use Rattle.ir_crew.specs.Ends.{AreCrewSeats, IsCrewEnd, IsCrewLaid, IsObjectOf};

use crate::plays::{Law, OffFirst};
use crate::table::{Crew, CrewSeat};
use atomic_table::{Closed, Table};
use ir_image::{Image, MOST_OBJECT_WORDS};
use ir_object::{APART, CONTENT_PLACE, Object, WORD_PLACE, Word};
use std::alloc::{AllocError, Global};

// The words of the table before the first step: of each object its word, and its contents.
fn lay(alloc: Global, image: &Image) -> Result<Vec<u64>, AllocError>
    ensures { IfOk result (λ v. IsCrewLaid image.now v.items) }
{
    let words = image.words();
    let each = image.object_words();
    let mut laid = vec![in alloc; 0; WORD_PLACE + APART * image.object_count()]?;
    for at in 0..words.len() {
        laid[CONTENT_PLACE + APART * (at / each) + at % each] = u64::from(words[at]);
    }
    Ok(laid)
}

impl Crew {
    /// The objects of the guest, which no thread has entered, and a seat for each of its threads.
    ///
    /// # Errors
    /// Out of memory.
    pub fn open(alloc: Global, image: &Image) -> Result<(Crew, Vec<CrewSeat>), AllocError>
        ensures key { IfOk result (λ r. r.0.table.shared.key ≡ image.now) }
        ensures seats { IfOk result (λ r. AreCrewSeats r.0.table.shared.table_id 0 r.1.items × (length r.1.items ≡ length image.now.entries)) }
    {
        let threads = image.entries().len() as u8;
        let words = lay(alloc, image)?;
        let (table, seat) = Table::of_words(alloc, words.as_slice(), image)?;
        let crew = Crew { table };
        let seats = crew.deal(alloc, threads, seat)?;
        Ok((crew, seats))
    }

    // A seat for each thread, of one for all.
    fn deal(
        &self,
        alloc: Global,
        threads: u8,
        mut seat: CrewSeat,
    ) -> Result<Vec<CrewSeat>, AllocError>
        requires threads { 0 < threads }
        requires seat { (seat.table_id ≡ self.now.table.shared.table_id) × (seat.me ≡ (crew_tracks_from 0 threads, [])) }
        ensures { IfOk result (λ v. AreCrewSeats self.now.table.shared.table_id 0 v.items × (length v.items ≡ threads)) }
    {
        let mut seats = Vec::with_capacity(alloc, threads as usize)?;
        for _thread in 1..threads {
            seats.push(self.table.shared.split_seat::<OffFirst>(&mut seat))?;
        }
        seats.push(seat)?;
        Ok(seats)
    }
}

// What word i of object o says, once all steps are taken.
fn content(closed: &Closed<(), Global>, o: usize, i: usize) -> u32
    requires there { content_place o i < slots_len closed.now.words }
    requires full { IsFull closed.now.words }
    requires small { (word : ℕ) → get_elem? (slots_items closed.now.words) (content_place o i) ≡ some word → word < 2 ^ 32 }
    ensures { get_elem? (slots_items closed.now.words) (content_place o i) ≡ some result }
{
    closed.word(CONTENT_PLACE + APART * o + i) as u32
}

// The contents of object o, once all steps are taken.
fn contents(closed: &Closed<(), Global>, o: usize) -> [u32; MOST_OBJECT_WORDS]
    requires there { word_place (o + 1) ≤ slots_len closed.now.words }
    requires full { IsFull closed.now.words }
    requires small { (i word : ℕ) → i < most_object_words → get_elem? (slots_items closed.now.words) (content_place o i) ≡ some word → word < 2 ^ 32 }
    ensures { (i : ℕ) → i < most_object_words → get_elem? (slots_items closed.now.words) (content_place o i) ≡ some (slice_index result i) }
{
    let mut contents = [0; MOST_OBJECT_WORDS];
    for i in 0..MOST_OBJECT_WORDS {
        contents[i] = content(closed, o, i);
    }
    contents
}

// Object o, once all steps are taken.
fn object(closed: &Closed<(), Global>, o: usize) -> Object
    requires there { word_place (o + 1) ≤ slots_len closed.now.words }
    requires full { IsFull closed.now.words }
    requires small { (i word : ℕ) → i < most_object_words → get_elem? (slots_items closed.now.words) (content_place o i) ≡ some word → word < 2 ^ 32 }
    ensures { IsObjectOf (slots_items closed.now.words) o result }
{
    let word = Word {
        bits: closed.word(WORD_PLACE + APART * o),
    };
    Object::from_parts(word, contents(closed, o))
}

impl Crew {
    /// Ends the table, once all seats are joined into this one, and writes the objects.
    pub fn close(self, seat: CrewSeat, objects: &mut [Object])
        requires seat { seat.table_id ≡ self.table.shared.table_id }
        requires room { length objects.old ≡ object_count self.table.shared.key }
        ensures { IsCrewEnd self.table.shared.key seat.me.0 objects.new }
    {
        let Crew { table } = self;
        let closed = table.close_with(seat);
        for o in 0..objects.len() {
            objects[o] = object(&closed, o);
        }
        closed.free();
    }
}
