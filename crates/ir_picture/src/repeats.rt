//! Events that see nothing new.

ghost use Rattle.std.specs.Prelude.{◌≡◌, ◌+◌, ◌<◌, Some, true, false, List, length, vec_len, slice_set, IfOk};
ghost use Rattle.ir_log.specs.declared.event.Event.{Event};
ghost use Rattle.ir_past.specs.Progress.{FitsSoFar};
ghost use Rattle.ir_picture.specs.Boxing.{Notes, IsRepeat, version_noted, are_alike};

use ir_log::Event;
use std::alloc::{AllocError, Global};

/// What an event does again.
#[derive(Clone, Copy, Debug, PartialEq, Eq)]
pub enum Repeat {
    /// Nothing, or nothing that its thread did before.
    Nothing,
    /// It reads an object at the version at which its thread's entry of the object before was a read too.
    Read,
    /// It is a refused try of the object that the event before it tried in vain.
    Try,
}

/// Whether two events that follow each other and repeat this belong into one box.
pub fn are_alike(before: Repeat, repeat: Repeat) -> bool
    ensures { result ≡ are_alike before repeat }
{
    match (before, repeat) {
        (Repeat::Read, Repeat::Read) => true,
        (Repeat::Try, Repeat::Try) => true,
        _ => false,
    }
}

/// Whether this version is the one that is noted.
pub fn is_noted(noted: Option<u32>, version: u32) -> bool
    ensures set { result ≡ true → noted ≡ Some version }
    ensures clear { result ≡ false → noted ≡ Some version → ⊥ }
{
    match noted {
        Some(known) => known == version,
        None => false,
    }
}

// Whether this object is the one that was tried.
fn was_tried(tried: Option<u8>, object: u8) -> bool
    ensures set { result ≡ true → tried ≡ Some object }
    ensures clear { result ≡ false → tried ≡ Some object → ⊥ }
{
    match tried {
        Some(known) => known == object,
        None => false,
    }
}

/// What a thread did last.
#[derive(Drop)]
pub struct Habits {
    // Of each object the version that the thread's last entry of it read.
    read: Vec<Option<u32>>,
    // The object that the last event tried in vain.
    tried: Option<u8>,
}

impl Habits {
    /// Nothing yet, of this many objects.
    ///
    /// # Errors
    /// Out of memory.
    pub fn new(alloc: Global, objects: u8) -> Result<Habits, AllocError>
        ensures objects { IfOk result (λ h. vec_len h.read ≡ objects) }
        ensures notes { IfOk result (λ h. (es : List Event) → Notes es 0 h) }
    {
        Ok(Habits {
            read: vec![in alloc; None; objects as usize]?,
            tried: None,
        })
    }

    // Notes the version that an entry of an object read, or none; what was noted before.
    fn turn(&mut self, object: u8, version: Option<u32>) -> Option<u32>
        requires { object < vec_len self.old.read }
        ensures value { result ≡ version_noted self.old.read.items object }
        ensures read { self.new.read.items ≡ slice_set self.old.read.items object version }
        ensures objects { vec_len self.new.read ≡ vec_len self.old.read }
        ensures tried { self.new.tried ≡ self.old.tried }
    {
        let before = self.read[object as usize];
        self.read[object as usize] = version;
        before
    }

    // Notes what the event tries in vain, or nothing; what was noted before.
    fn turn_try(&mut self, tried: Option<u8>) -> Option<u8>
        ensures value { result ≡ self.old.tried }
        ensures read { self.new.read ≡ self.old.read }
        ensures tried { self.new.tried ≡ tried }
    {
        let before = self.tried;
        self.tried = tried;
        before
    }

    /// Notes the next event of a log; what it repeats.
    pub fn note(&mut self, events: &[Event], place: usize) -> Repeat
        requires place { place < length events.now }
        requires fits { FitsSoFar events.now (vec_len self.old.read) }
        requires notes { Notes events.now place self.old }
        ensures objects { vec_len self.new.read ≡ vec_len self.old.read }
        ensures notes { Notes events.now (place + 1) self.new }
        ensures repeat { IsRepeat events.now place result }
    {
        match events[place] {
            Event::Answer(..) => {
                self.turn_try(None);
                Repeat::Nothing
            }
            Event::Read { object, version } => {
                self.turn_try(None);
                let before = self.turn(object, Some(version));
                if is_noted(before, version) {
                    Repeat::Read
                } else {
                    Repeat::Nothing
                }
            }
            Event::Write { object, .. } => {
                self.turn_try(None);
                self.turn(object, None);
                Repeat::Nothing
            }
            Event::Try { object } => {
                let tried = self.turn_try(Some(object));
                if was_tried(tried, object) {
                    Repeat::Try
                } else {
                    Repeat::Nothing
                }
            }
        }
    }
}
