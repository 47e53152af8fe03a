//! Entries, which may wait.

ghost use Rattle.std.specs.Prelude.{◌≡◌, ◌<◌, map, None};
ghost use Rattle.ir_image.specs.Guest.{object_count};
ghost use Rattle.ir_thread.specs.State.{most_events};
ghost use Rattle.ir_runs.specs.declared.access.Access.TheVariants.{Reading, Writing};
ghost use Rattle.ir_crew.specs.Rule.{entries, shared_of};
ghost use Rattle.ir_crew.specs.Plays.{IsAlone, history, did, inside_by};
ghost use Rattle.ir_crew.specs.declared.deed.Deed.TheVariants.{Enter};

use crate::pauses::Pauses;
use crate::plays::{EnterRead, EnterWrite, Look};
use crate::table::{Crew, CrewSeat};
use ir_object::{APART, WORD_PLACE, Word};
use std::sync::Wait;

impl Crew {
    /// The seat's thread enters the object for reading; the version that it finds. It waits while a writer is inside.
    #[inline(always)]
    pub fn enter_read<R: Wait>(&self, rt: &R, seat: &mut CrewSeat, object: u8) -> u32
        requires seat { (seat.old.table_id ≡ self.now.table.shared.table_id) × IsAlone seat.old.me.0 }
        requires object { object < object_count self.now.table.shared.key }
        requires outside { inside_by object (history seat.old.me.0) ≡ None }
        requires room { entries (map shared_of (history seat.old.me.0)) < most_events }
        ensures seat { (seat.new.table_id ≡ seat.old.table_id) × (seat.new.id ≡ seat.old.id) }
        ensures entered { seat.new.me ≡ (did seat.old.me.0 object (Enter Reading result 0), seat.old.me.1) }
    {
        let place = WORD_PLACE + APART * object as usize;
        let shared = &self.table.shared;
        let mut pauses = Pauses::new();
        let mut seen = shared.load::<Look>(seat, place);
        for _ in rt.forever() {
            let word = Word { bits: seen };
            if word.can_read() {
                let entered = seen + Word::READER_ENTERS;
                let found = shared.compare_exchange::<EnterRead>(seat, place, seen, entered);
                if found == seen {
                    return word.version();
                }
                pauses.pause();
                seen = found;
            } else {
                pauses.pause();
                seen = shared.load::<Look>(seat, place);
            }
        }
        unreachable!()
    }

    /// The seat's thread enters the object for writing; the version that it finds, and the readers that have left it. It waits
    /// while anyone is inside.
    #[inline(always)]
    pub fn enter_write<R: Wait>(&self, rt: &R, seat: &mut CrewSeat, object: u8) -> (u32, u32)
        requires seat { (seat.old.table_id ≡ self.now.table.shared.table_id) × IsAlone seat.old.me.0 }
        requires object { object < object_count self.now.table.shared.key }
        requires room { entries (map shared_of (history seat.old.me.0)) < most_events }
        ensures seat { (seat.new.table_id ≡ seat.old.table_id) × (seat.new.id ≡ seat.old.id) }
        ensures entered { seat.new.me ≡ (did seat.old.me.0 object (Enter Writing result.0 result.1), seat.old.me.1) }
    {
        let place = WORD_PLACE + APART * object as usize;
        let shared = &self.table.shared;
        let mut pauses = Pauses::new();
        let mut seen = shared.load::<Look>(seat, place);
        for _ in rt.forever() {
            let word = Word { bits: seen };
            if word.can_write() {
                let entered = seen + Word::WRITER_ENTERS;
                let found = shared.compare_exchange::<EnterWrite>(seat, place, seen, entered);
                if found == seen {
                    return (word.version(), word.left());
                }
                pauses.pause();
                seen = found;
            } else {
                pauses.pause();
                seen = shared.load::<Look>(seat, place);
            }
        }
        unreachable!()
    }
}
