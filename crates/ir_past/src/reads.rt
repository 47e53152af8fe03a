//! The read entries of each object, by version.

ghost use Rattle.std.specs.Prelude.{◌≡◌, ◌+◌, ◌<◌, ◌≤◌, ◌==◌, ◌&&◌, ◌++◌, ◌∷◌, ℕ, [], if◌then◌else◌, length, vec_len, OnOk, IfOk};
ghost use Rattle.ir_log.specs.declared.event.Event.TheVariants.{Read};
ghost use Rattle.ir_trace.specs.Recorded.{recorded_thread};
ghost use Rattle.ir_past.specs.Past.{AreReaders};
ghost use Rattle.ir_past.specs.Progress.{HasReads};
ghost use Rattle.ir_past.specs.Tables.{read_at_row, read_in};

use crate::logs::{events_of, thread_count};
use crate::place::Place;
use ir_log::Event;
use ir_trace::Trace;
use std::alloc::{AllocError, Global};

/// The read entries of one object at each version.
#[derive(Drop)]
pub struct ObjectReads {
    versions: Vec<Vec<Place>>,
}

impl ObjectReads {
    // No read entry.
    fn new(alloc: Global) -> ObjectReads
        ensures { (v : ℕ) → read_at_row result v ≡ [] }
    {
        ObjectReads {
            versions: Vec::new(alloc),
        }
    }

    // Makes room for this many versions.
    fn reserve(&mut self, versions: usize) -> Result<(), AllocError>
        ensures room { OnOk result (versions ≤ vec_len self.new.versions) }
        ensures same { OnOk result ((v : ℕ) → read_at_row self.new v ≡ read_at_row self.old v) }
    {
        let alloc = *self.versions.allocator();
        for _ in self.versions.len()..versions {
            self.versions.push(Vec::new(alloc))?;
        }
        Ok(())
    }

    // Notes a read entry at a version.
    fn note(&mut self, version: u32, place: Place) -> Result<(), AllocError>
        ensures { OnOk result ((v : ℕ) → read_at_row self.new v ≡ (if v == version then read_at_row self.old version ++ place ∷ [] else read_at_row self.old v)) }
    {
        self.reserve(version as usize + 1)?;
        self.versions[version as usize].push(place)?;
        Ok(())
    }

    // The read entries at a version.
    fn get(&self, version: u32) -> &[Place]
        ensures { result.now ≡ read_at_row self.now version }
    {
        match self.versions.get(version as usize) {
            Some(places) => places.as_slice(),
            None => &[],
        }
    }
}

/// The read entries of each object at each version.
#[derive(Drop)]
pub struct Reads {
    objects: Vec<ObjectReads>,
}

impl Reads {
    // No read entry of any of this many objects.
    fn new(alloc: Global, objects: u8) -> Result<Reads, AllocError>
        ensures objects { IfOk result (λ m. vec_len m.objects ≡ objects) }
        ensures none { IfOk result (λ m. (o v : ℕ) → read_in m o v ≡ []) }
    {
        let mut all = Vec::new(alloc);
        for _ in 0..objects {
            all.push(ObjectReads::new(alloc))?;
        }
        Ok(Reads { objects: all })
    }

    // Notes a read entry of an object at a version.
    fn note(&mut self, object: u8, version: u32, place: Place) -> Result<(), AllocError>
        requires { object < vec_len self.old.objects }
        ensures objects { OnOk result (vec_len self.new.objects ≡ vec_len self.old.objects) }
        ensures noted { OnOk result ((o v : ℕ) → read_in self.new o v ≡ (if (o == object) && (v == version) then read_in self.old object version ++ place ∷ [] else read_in self.old o v)) }
    {
        self.objects[object as usize].note(version, place)
    }

    /// The read entries of an object at a version, by rising thread and then by event.
    pub fn get(&self, object: u8, version: u32) -> &[Place]
        ensures { result.now ≡ read_in self.now object version }
    {
        match self.objects.get(object as usize) {
            Some(reads) => reads.get(version),
            None => &[],
        }
    }
}

// Notes an event, if it is a read entry.
fn note_event(reads: &mut Reads, trace: &Trace, here: Place) -> Result<(), AllocError>
    requires thread { here.thread < length trace.now.threads }
    requires event { here.event < length (recorded_thread trace.now here.thread).events }
    requires has { HasReads trace.now here.thread here.event reads.old }
    ensures { OnOk result (HasReads trace.now here.thread (here.event + 1) reads.new) }
{
    let events = events_of(trace, here.thread);
    match events[here.event as usize] {
        Event::Answer(..) => Ok(()),
        Event::Write { .. } => Ok(()),
        Event::Try { .. } => Ok(()),
        Event::Read { object, version } => reads.note(object, version, here),
    }
}

// Notes the read entries of a thread.
fn note_thread(reads: &mut Reads, trace: &Trace, thread: u8) -> Result<(), AllocError>
    requires thread { thread < length trace.now.threads }
    requires has { HasReads trace.now thread 0 reads.old }
    ensures { OnOk result (HasReads trace.now (thread + 1) 0 reads.new) }
{
    for event in 0..events_of(trace, thread).len() as u32 {
        note_event(reads, trace, Place { thread, event })?;
    }
    Ok(())
}

/// The read entries of a trace, by their objects and versions. Time and memory are linear in the events and the versions that are read.
///
/// # Errors
/// Out of memory.
pub fn reads_of(alloc: Global, trace: &Trace) -> Result<Reads, AllocError>
    ensures { IfOk result (λ reads. (o v : ℕ) → AreReaders trace.now o v (read_in reads o v)) }
{
    let mut reads = Reads::new(alloc, trace.objects())?;
    for thread in 0..thread_count(trace) {
        note_thread(&mut reads, trace, thread)?;
    }
    Ok(reads)
}
