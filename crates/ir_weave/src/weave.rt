//! The table: the words of a guest's objects, which the threads of a replay share.

ghost use Rattle.std.specs.Prelude.{◌≡◌, ◌≢◌, ◌+◌, ◌*◌, ◌^◌, ◌<◌, ◌≤◌, ◌↔◌, [], ◌∷◌, suc, true, false, length, IfOk, OnErr, MatchBool, slice_get, Some, IsTrue};
ghost use Rattle.ir_image.specs.Guest.{object_count};
ghost use Rattle.ir_thread.specs.State.{ask_of};
ghost use Rattle.ir_thread.specs.declared.ask.Ask.TheVariants as ask;
ghost use Rattle.ir_log.specs.declared.event.Event.{Event};
ghost use Rattle.ir_fit.specs.Ahead.{IsOpen};
ghost use Rattle.ir_weave.specs.Ahead.{IsAsking, IsEntering};
ghost use Rattle.ir_object.specs.Layout.{table_length};
ghost use Rattle.ir_weave.specs.Woven.{trace_in, progress, met_of, Rises, HasMet, IsTableOpened, IsSeated, IsGranted, WasStopped, OpensTable, Answers};
ghost use Rattle.ir_runs.specs.Machine.{LeftAt};
ghost use Rattle.ir_runs.specs.declared.access.Access.TheVariants.{Writing};
ghost use Rattle.ir_runs.specs.Run.{Emits};
ghost use Rattle.ir_cut.specs.Positions.{machine_of, start_of, EachRun};

use crate::plan::{Plan, Progress};
use crate::plays::{Law, Look, ReadVersion, StepOn};
use atomic_table::{Seat, Table};
use ir_log::Event;
use ir_object::{APART, CONTENT_PLACE, WORD_PLACE, Word};
use ir_runs::Access;
use ir_thread::Thread;
use std::alloc::Global;
use std::collections::LinkedList;

/// What a thread steps with. It has no bytes.
pub type WeaveSeat = Seat<(), LinkedList<Progress>>;

/// The words of a guest's objects, which the threads of a replay share.
#[derive(Drop)]
pub struct Weave {
    pub table: Table<(), LinkedList<Progress>, Plan, Law, Global>,
    ghost words: { table.shared.table_id.words ≡ table_length (object_count (trace_in table.shared.key).guest) },
    ghost slots: { table.shared.table_id.slots ≡ 0 },
    ghost opened: { IsTableOpened table.shared.key },
}

// Whether an object with this word can be entered as the event says.
fn opens(word: u64, event: Event) -> bool
    ensures { IsTrue result ↔ OpensTable word event }
{
    let fields = Word { bits: word }.fields();
    match event {
        Event::Answer(..) | Event::Try { .. } => false,
        Event::Read { version, .. } => fields.version == version && !fields.writer,
        Event::Write {
            version,
            readers,
            ..
        } => {
            fields.version == version
                && fields.left == readers
                && !fields.writer
                && fields.inside == 0
        }
    }
}

impl Weave {
    // Whether the thread is granted its entry: the object can be entered as the event says.
    fn look(
        &self,
        seat: &mut WeaveSeat,
        thread: &Thread,
        object: u8,
        access: Access,
        event: Event,
    ) -> bool
        requires seat { seat.old.table_id ≡ self.now.table.shared.table_id }
        requires thread { IsSeated self.now.table.shared.key seat.old.me.0 thread.now }
        requires entering { IsEntering (trace_in self.now.table.shared.key) thread.now object access event }
        ensures seat { (seat.new.table_id ≡ seat.old.table_id) × (seat.new.id ≡ seat.old.id) }
        ensures granted { result ≡ true
            → (seat.new.me
            ≡ (progress self.now.table.shared.key thread.now.number thread.now.steps true (met_of seat.new.me.0) ∷ [], seat.old.me.1))
            × IsGranted self.now.table.shared.key seat.new.me.0 thread.now }
        ensures stopped { result ≡ false
            → (seat.new.me
            ≡ (progress self.now.table.shared.key thread.now.number thread.now.steps false (met_of seat.new.me.0) ∷ [], seat.old.me.1))
            × (s : WasStopped self.now.table.shared.key thread.now.number thread.now.steps)
            × HasMet (met_of seat.old.me.0) (met_of seat.new.me.0) s.cut }
        ensures rises { Rises (met_of seat.old.me.0) (met_of seat.new.me.0) }
    {
        let place = WORD_PLACE + APART * object as usize;
        let seen = self.table.shared.load::<Look>(seat, place);
        opens(seen, event)
    }

    // The thread enters the object, which was granted.
    fn step_in(&self, seat: &mut WeaveSeat, thread: &Thread, object: u8, access: Access)
        requires seat { seat.old.table_id ≡ self.now.table.shared.table_id }
        requires granted { IsGranted self.now.table.shared.key seat.old.me.0 thread.now }
        requires entering { (event : Event) × IsEntering (trace_in self.now.table.shared.key) thread.now object access event }
        ensures seat { (seat.new.table_id ≡ seat.old.table_id) × (seat.new.id ≡ seat.old.id) }
        ensures entered { seat.new.me ≡ (progress self.now.table.shared.key thread.now.number (suc thread.now.steps) false (met_of seat.old.me.0) ∷ [], seat.old.me.1) }
    {
        let place = WORD_PLACE + APART * object as usize;
        match access {
            Access::Reading => self
                .table
                .shared
                .fetch_add::<StepOn>(seat, place, Word::READER_ENTERS),
            Access::Writing => self
                .table
                .shared
                .fetch_add::<StepOn>(seat, place, Word::WRITER_ENTERS),
        };
    }

    // The thread enters the object, if it can be entered as the event says. Whether it did.
    pub(crate) fn enter(
        &self,
        seat: &mut WeaveSeat,
        thread: &Thread,
        object: u8,
        access: Access,
        event: Event,
    ) -> bool
        requires seat { seat.old.table_id ≡ self.now.table.shared.table_id }
        requires thread { IsSeated self.now.table.shared.key seat.old.me.0 thread.now }
        requires entering { IsEntering (trace_in self.now.table.shared.key) thread.now object access event }
        ensures seat { (seat.new.table_id ≡ seat.old.table_id) × (seat.new.id ≡ seat.old.id) }
        ensures entered { result ≡ true → seat.new.me ≡ (progress self.now.table.shared.key thread.now.number (suc thread.now.steps) false (met_of seat.new.me.0) ∷ [], seat.old.me.1) }
        ensures stopped { result ≡ false
            → (seat.new.me
            ≡ (progress self.now.table.shared.key thread.now.number thread.now.steps false (met_of seat.new.me.0) ∷ [], seat.old.me.1))
            × (s : WasStopped self.now.table.shared.key thread.now.number thread.now.steps)
            × HasMet (met_of seat.old.me.0) (met_of seat.new.me.0) s.cut }
        ensures rises { Rises (met_of seat.old.me.0) (met_of seat.new.me.0) }
    {
        if !self.look(seat, thread, object, access, event) {
            return false;
        }
        self.step_in(seat, thread, object, access);
        true
    }

    // The version of an object that the thread is about to leave after writing.
    fn version(&self, seat: &mut WeaveSeat, thread: &Thread, object: u8) -> u64
        requires seat { seat.old.table_id ≡ self.now.table.shared.table_id }
        requires thread { IsSeated self.now.table.shared.key seat.old.me.0 thread.now }
        requires asking { IsAsking (trace_in self.now.table.shared.key) thread.now (ask.Leave object Writing) }
        ensures seat { (seat.new.table_id ≡ seat.old.table_id) × (seat.new.id ≡ seat.old.id) × (seat.new.me ≡ seat.old.me) }
        ensures small { result < 2 ^ 31 }
        ensures version { EachRun (trace_in self.now.table.shared.key)
            (λ run. Emits (machine_of (trace_in self.now.table.shared.key)) (start_of (trace_in self.now.table.shared.key)) run
            thread.now.number thread.now.steps (LeftAt object Writing result)) }
    {
        let place = WORD_PLACE + APART * object as usize;
        self.table.shared.load::<ReadVersion>(seat, place) / Word::VERSION
    }

    // The thread leaves the object.
    pub(crate) fn leave(&self, seat: &mut WeaveSeat, thread: &Thread, object: u8, access: Access)
        requires seat { seat.old.table_id ≡ self.now.table.shared.table_id }
        requires thread { IsSeated self.now.table.shared.key seat.old.me.0 thread.now }
        requires asking { IsAsking (trace_in self.now.table.shared.key) thread.now (ask.Leave object access) }
        ensures seat { (seat.new.table_id ≡ seat.old.table_id) × (seat.new.id ≡ seat.old.id) }
        ensures left { seat.new.me ≡ (progress self.now.table.shared.key thread.now.number (suc thread.now.steps) false (met_of seat.old.me.0) ∷ [], seat.old.me.1) }
    {
        let place = WORD_PLACE + APART * object as usize;
        match access {
            Access::Reading => {
                self.table
                    .shared
                    .fetch_add::<StepOn>(seat, place, Word::READER_LEAVES);
            }
            Access::Writing => {
                let version = self.version(seat, thread, object);
                self.table
                    .shared
                    .store::<StepOn>(seat, place, (version + 1) * Word::VERSION);
            }
        }
    }

    // The thread reads a word of the object.
    pub(crate) fn get(&self, seat: &mut WeaveSeat, thread: &Thread, object: u8, index: u8) -> u32
        requires seat { seat.old.table_id ≡ self.now.table.shared.table_id }
        requires thread { IsSeated self.now.table.shared.key seat.old.me.0 thread.now }
        requires asking { IsAsking (trace_in self.now.table.shared.key) thread.now (ask.Get object index) }
        ensures seat { (seat.new.table_id ≡ seat.old.table_id) × (seat.new.id ≡ seat.old.id) }
        ensures read { seat.new.me ≡ (progress self.now.table.shared.key thread.now.number (suc thread.now.steps) false (met_of seat.old.me.0) ∷ [], seat.old.me.1) }
        ensures value { Answers (trace_in self.now.table.shared.key) thread.now.number thread.now.steps result }
    {
        let place = CONTENT_PLACE + APART * object as usize + index as usize;
        self.table.shared.load::<StepOn>(seat, place) as u32
    }

    // The thread writes a word of the object.
    pub(crate) fn put(
        &self,
        seat: &mut WeaveSeat,
        thread: &Thread,
        object: u8,
        index: u8,
        value: u32,
    )
        requires seat { seat.old.table_id ≡ self.now.table.shared.table_id }
        requires thread { IsSeated self.now.table.shared.key seat.old.me.0 thread.now }
        requires asking { IsAsking (trace_in self.now.table.shared.key) thread.now (ask.Put object index value) }
        ensures seat { (seat.new.table_id ≡ seat.old.table_id) × (seat.new.id ≡ seat.old.id) }
        ensures put { seat.new.me ≡ (progress self.now.table.shared.key thread.now.number (suc thread.now.steps) false (met_of seat.old.me.0) ∷ [], seat.old.me.1) }
    {
        let place = CONTENT_PLACE + APART * object as usize + index as usize;
        self.table.shared.store::<StepOn>(seat, place, value as u64);
    }
}
