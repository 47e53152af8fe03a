//! How the table is opened and closed.

ghost use Rattle.std.specs.Prelude.{◌≡◌, ◌≢◌, ◌+◌, ◌*◌, ◌^◌, ◌<◌, ◌≤◌, ℕ, [], ◌∷◌, ◌++◌, length, slice_index, slice_get, Some, IfOk, List};
ghost use Rattle.std.specs.Slots.{slots_items, slots_len, IsFull};
ghost use Rattle.ir_weave.specs.declared.plan.Plan.{Plan};
ghost use Rattle.ir_weave.specs.declared.plan.Progress.{Progress};
ghost use Rattle.ir_image.specs.Guest.{most_objects, object_count, most_object_words};
ghost use Rattle.ir_object.specs.Cell.{Cell};
ghost use Rattle.ir_weave.specs.Standing.{StandsAtCut, flat_in, positions};
ghost use Rattle.ir_object.specs.Layout.{content_place, table_length};
ghost use Rattle.ir_weave.specs.Table.{IsLaid, IsTable, laid, object_in};
ghost use Rattle.ir_weave.specs.Woven.{trace_in, IsFor, AreSeats, IsSeated, IsClosedTable, IsEnd, AreRead, tracks_from};

use crate::plan::Plan;
use crate::plays::{Both, OffFirst};
use crate::state::State;
use crate::weave::{Weave, WeaveSeat};
use atomic_table::{Closed, Table};
use ir_fit::Fitted;
use ir_image::MOST_OBJECT_WORDS;
use ir_object::{APART, CONTENT_PLACE, Object, WORD_PLACE, Word};
use std::alloc::{AllocError, Global};
use std::snapshot::Snapshot;

// The places from an object's word to its contents.
const CONTENTS: usize = CONTENT_PLACE - WORD_PLACE;

// Word k of a table of these objects.
fn word_at(objects: &[Object], k: usize) -> u64
    requires { k < table_length (length objects.now) }
    ensures value { result ≡ laid objects.now k }
    ensures small { (o i : ℕ) → i < most_object_words → k ≡ content_place o i → result < 2 ^ 32 }
{
    if k < WORD_PLACE {
        return 0;
    }
    let object = &objects[(k - WORD_PLACE) / APART];
    let r = (k - WORD_PLACE) % APART;
    if r == 0 {
        return Word::pack(object.fields()).bits;
    }
    if r < CONTENTS || r >= CONTENTS + MOST_OBJECT_WORDS {
        return 0;
    }
    u64::from(object.contents()[r - CONTENTS])
}

fn lay(alloc: Global, objects: &[Object]) -> Result<Vec<u64>, AllocError>
    requires { length objects.now ≤ most_objects }
    ensures { IfOk result (λ v. IsLaid objects.now v.items (table_length (length objects.now))) }
{
    let count = WORD_PLACE + APART * objects.len();
    let mut words = Vec::with_capacity(alloc, count)?;
    for k in 0..count {
        words.push(word_at(objects, k))?;
    }
    Ok(words)
}

impl Weave {
    /// A table of the state's objects, and a seat for each thread.
    ///
    /// # Errors
    /// Out of memory.
    pub fn open(
        alloc: Global,
        fitted: &Fitted,
        state: &State,
    ) -> Result<(Weave, Vec<WeaveSeat>), AllocError>
        requires { StandsAtCut fitted.now (positions (flat_in fitted.now state.now)) state.now }
        ensures table { IfOk result (λ r. IsFor r.0.table.shared.key fitted.now) }
        ensures opened { IfOk result (λ r. r.0.table.shared.key.opened.value ≡ state.now) }
        ensures seats { IfOk result (λ r. AreSeats r.0.table.shared.table_id r.0.table.shared.key 0 r.1.items × (length r.1.items ≡ length fitted.now.guest.entries)) }
        // Each thread of the state can step at its seat.
        ensures seated { IfOk result (λ r. (t : ℕ) (x : _) (s : _) → slice_get state.now.threads t ≡ Some x → slice_get r.1.items t ≡ Some s → IsSeated r.0.table.shared.key s.me.0 x) }
    {
        let words = lay(alloc, state.objects())?;
        let count = state.threads().len();
        fitted.image().code();
        let plan = Plan {
            fitted: Snapshot::of(fitted),
            opened: Snapshot::of(state),
        };
        let (table, seat) = Table::of_words(alloc, words.as_slice(), &plan)?;
        let weave = Weave { table };
        let seats = weave.deal(alloc, count, seat)?;
        Ok((weave, seats))
    }

    fn deal(
        &self,
        alloc: Global,
        count: usize,
        mut seat: WeaveSeat,
    ) -> Result<Vec<WeaveSeat>, AllocError>
        requires some { 0 < count }
        requires seat { (seat.table_id ≡ self.now.table.shared.table_id) × (seat.me ≡ (tracks_from self.now.table.shared.key 0 count, [])) }
        ensures { IfOk result (λ v. AreSeats self.now.table.shared.table_id self.now.table.shared.key 0 v.items × (length v.items ≡ count)) }
    {
        let mut seats = Vec::with_capacity(alloc, count)?;
        for _thread in 1..count {
            seats.push(self.table.shared.split_seat::<OffFirst>(&mut seat))?;
        }
        seats.push(seat)?;
        Ok(seats)
    }

    /// One seat of two, with the threads of both.
    pub fn join(&self, mut seat: WeaveSeat, other: WeaveSeat) -> WeaveSeat
        requires seat { (seat.table_id ≡ self.now.table.shared.table_id) × (seat.me.1 ≡ []) }
        requires other { (other.table_id ≡ self.now.table.shared.table_id) × (other.me.1 ≡ []) }
        ensures { (result.table_id ≡ seat.table_id) × (result.me ≡ (seat.me.0 ++ other.me.0, [])) }
    {
        self.table.shared.join_seat::<Both>(&mut seat, other);
        seat
    }

    /// Ends the table, and writes the objects of the guest at the cut where the threads of its views are.
    pub fn close(self, seat: WeaveSeat, objects: &mut [Object])
        requires seat { seat.table_id ≡ self.table.shared.table_id }
        requires room { length objects.old ≡ object_count (trace_in self.table.shared.key).guest }
        ensures { IsClosedTable self.table.shared.key seat.me.0 objects.new }
    {
        let Weave { table } = self;
        let closed = table.close_with(seat);
        for (o, object) in objects.iter_mut().enumerate() {
            *object = object_at(&closed, o);
        }
        closed.free();
    }
}

// The contents of an object.
fn contents_at(closed: &Closed<(), Global>, from: usize) -> [u32; MOST_OBJECT_WORDS]
    requires room { from + most_object_words ≤ slots_len closed.now.words }
    requires full { IsFull closed.now.words }
    requires small { (i : ℕ) → i < most_object_words → slice_index (slots_items closed.now.words) (from + i) < 2 ^ 32 }
    ensures { AreRead (slots_items closed.now.words) from result most_object_words }
{
    let mut contents = [0; MOST_OBJECT_WORDS];
    for (i, word) in contents.iter_mut().enumerate() {
        *word = closed.word(from + i) as u32;
    }
    contents
}

// Object o of a table that is closed.
fn object_at(closed: &Closed<(), Global>, o: usize) -> Object
    requires full { IsFull closed.now.words }
    requires table { (k : Plan) × (v : List Progress) × (e : IsEnd k v (slots_items closed.now.words)) × (o < length e.cells) × (slots_len closed.now.words ≡ table_length (length e.cells)) }
    ensures { (k : Plan) (v : List Progress) (e : IsEnd k v (slots_items closed.now.words)) → o < length e.cells → result ≡ object_in e.cells o }
{
    let word = Word {
        bits: closed.word(WORD_PLACE + APART * o),
    };
    Object::from_parts(word, contents_at(closed, CONTENT_PLACE + APART * o))
}
