//! The table, and the steps on it that wait for no thread.

ghost use Rattle.std.specs.Prelude.{◌≡◌, ◌≢◌, ◌+◌, ◌*◌, ◌<◌, ℕ, [], ◌++◌, Some, None};
ghost use Rattle.ir_image.specs.Guest.{object_count, most_object_words};
ghost use Rattle.ir_runs.specs.declared.access.Access.TheVariants.{Writing};
ghost use Rattle.ir_object.specs.Layout.{table_length};
ghost use Rattle.ir_crew.specs.Plays.{IsAlone, history, did, inside_by};
ghost use Rattle.ir_crew.specs.declared.deed.Deed.TheVariants.{Leave as Left, Get as Got, Put as Wrote};

use crate::deed::Track;
use crate::plays::{Both, Get, Law, LeaveRead, LeaveWrite, Look, Put};
use atomic_table::{Seat, Table};
use ir_image::Image;
use ir_object::{APART, CONTENT_PLACE, WORD_PLACE, Word};
use ir_runs::Access;
use std::alloc::Global;
use std::collections::LinkedList;

/// A seat at the table, which represents threads of the guest. Its view is the object steps that they have taken.
pub type CrewSeat = Seat<(), LinkedList<Track>>;

/// The objects of a guest that is recorded by threads.
#[derive(Drop)]
pub struct Crew {
    /// Word 0 is for joins. The other words are where `ir_object` lays an object's word and contents.
    pub table: Table<(), LinkedList<Track>, Image, Law, Global>,
    ghost words: { table.shared.table_id.words ≡ table_length (object_count table.shared.key) },
    ghost slots: { table.shared.table_id.slots ≡ 0 },
}

impl Crew {
    /// The seat's thread leaves an object that it is inside.
    #[inline(always)]
    pub fn leave(&self, seat: &mut CrewSeat, object: u8, access: Access)
        requires seat { (seat.old.table_id ≡ self.now.table.shared.table_id) × IsAlone seat.old.me.0 }
        requires object { object < object_count self.now.table.shared.key }
        requires inside { inside_by object (history seat.old.me.0) ≡ Some access }
        ensures seat { (seat.new.table_id ≡ seat.old.table_id) × (seat.new.id ≡ seat.old.id) }
        ensures left { (version : ℕ) × (seat.new.me ≡ (did seat.old.me.0 object (Left access version), seat.old.me.1)) }
    {
        let place = WORD_PLACE + APART * object as usize;
        let shared = &self.table.shared;
        match access {
            Access::Reading => {
                shared.fetch_add::<LeaveRead>(seat, place, Word::READER_LEAVES);
            }
            Access::Writing => {
                let seen = shared.load::<Look>(seat, place);
                let left = Word { bits: seen }.next_version();
                shared.store::<LeaveWrite>(seat, place, left.bits);
            }
        }
    }

    /// The word of an object that the seat's thread is inside.
    #[inline(always)]
    pub fn get(&self, seat: &mut CrewSeat, object: u8, index: u8) -> u32
        requires seat { (seat.old.table_id ≡ self.now.table.shared.table_id) × IsAlone seat.old.me.0 }
        requires object { (object < object_count self.now.table.shared.key) × (index < most_object_words) }
        requires inside { inside_by object (history seat.old.me.0) ≢ None }
        ensures seat { (seat.new.table_id ≡ seat.old.table_id) × (seat.new.id ≡ seat.old.id) }
        ensures got { seat.new.me ≡ (did seat.old.me.0 object (Got index result), seat.old.me.1) }
    {
        let place = CONTENT_PLACE + APART * object as usize + index as usize;
        self.table.shared.load::<Get>(seat, place) as u32
    }

    /// Writes a word of an object that the seat's thread is inside for writing.
    #[inline(always)]
    pub fn put(&self, seat: &mut CrewSeat, object: u8, index: u8, value: u32)
        requires seat { (seat.old.table_id ≡ self.now.table.shared.table_id) × IsAlone seat.old.me.0 }
        requires object { (object < object_count self.now.table.shared.key) × (index < most_object_words) }
        requires inside { inside_by object (history seat.old.me.0) ≡ Some Writing }
        ensures seat { (seat.new.table_id ≡ seat.old.table_id) × (seat.new.id ≡ seat.old.id) }
        ensures put { seat.new.me ≡ (did seat.old.me.0 object (Wrote index value), seat.old.me.1) }
    {
        let place = CONTENT_PLACE + APART * object as usize + index as usize;
        self.table
            .shared
            .store::<Put>(seat, place, u64::from(value));
    }

    /// One seat of two, with the threads of both.
    pub fn join(&self, mut seat: CrewSeat, other: CrewSeat) -> CrewSeat
        requires seat { (seat.table_id ≡ self.now.table.shared.table_id) × (seat.me.1 ≡ []) }
        requires other { (other.table_id ≡ self.now.table.shared.table_id) × (other.me.1 ≡ []) }
        ensures { (result.table_id ≡ seat.table_id) × (result.me ≡ (seat.me.0 ++ other.me.0, [])) }
    {
        self.table.shared.join_seat::<Both>(&mut seat, other);
        seat
    }
}
