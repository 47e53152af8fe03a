//! Tries, which wait for no thread.

ghost use Rattle.std.specs.Prelude.{◌≡◌, ◌<◌, map, MatchOption};
ghost use Rattle.ir_image.specs.Guest.{object_count};
ghost use Rattle.ir_thread.specs.State.{most_events};
ghost use Rattle.ir_crew.specs.Rule.{entries, shared_of};
ghost use Rattle.ir_crew.specs.Plays.{IsAlone, history, did};
ghost use Rattle.ir_crew.specs.declared.deed.Deed.TheVariants.{Try};

use crate::plays::{Look, TryWrite};
use crate::table::{Crew, CrewSeat};
use ir_object::{APART, WORD_PLACE, Word};

impl Crew {
    /// The seat's thread tries to enter the object for writing: the version that it finds, and the readers that have left it, or
    /// `None` if it continues without it. It waits for no thread and takes no memory, and may be refused although no thread is inside.
    pub fn try_write(&self, seat: &mut CrewSeat, object: u8) -> Option<(u32, u32)>
        requires seat { (seat.old.table_id ≡ self.now.table.shared.table_id) × IsAlone seat.old.me.0 }
        requires object { object < object_count self.now.table.shared.key }
        requires room { entries (map shared_of (history seat.old.me.0)) < most_events }
        ensures seat { (seat.new.table_id ≡ seat.old.table_id) × (seat.new.id ≡ seat.old.id) }
        ensures tried { MatchOption result (seat.new.me ≡ seat.old.me) (λ r. seat.new.me ≡ (did seat.old.me.0 object (Try r.0 r.1), seat.old.me.1)) }
    {
        let place = WORD_PLACE + APART * object as usize;
        let shared = &self.table.shared;
        let seen = shared.load::<Look>(seat, place);
        let word = Word { bits: seen };
        if !word.can_write() {
            return None;
        }
        let entered = seen + Word::WRITER_ENTERS;
        let found = shared.compare_exchange::<TryWrite>(seat, place, seen, entered);
        if found == seen {
            Some((word.version(), word.left()))
        } else {
            None
        }
    }
}
