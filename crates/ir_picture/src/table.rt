//! What is placed of each version of each object.

ghost use Rattle.std.specs.Prelude.{◌≡◌, ◌+◌, ◌<◌, ◌≤◌, ◌==◌, ◌&&◌, ◌^◌, ℕ, Some, None, if◌then◌else◌, length, vec_len, OnOk, IfOk};
ghost use Rattle.ir_past.specs.Past.{entered};
ghost use Rattle.ir_past.specs.Progress.{FitsSoFar};
ghost use Rattle.ir_picture.specs.Placing.{later_of, unknown_version, version_at, version_in, made_by_box, after_needs, noted, noted_all};

use crate::placed_box::Point;
use ir_log::Event;
use std::alloc::{AllocError, Global};

/// The first place of all.
pub const START: Point = Point { x: 0, u: 1 };

/// Of two places the greater numbers of each kind.
pub fn later(one: Point, other: Point) -> Point
    ensures { result ≡ later_of one other }
{
    Point {
        x: one.x.max(other.x),
        u: one.u.max(other.u),
    }
}

/// What is placed of a version of an object. Places after ends are the least that are right of these.
#[derive(Clone, Copy, Debug, PartialEq, Eq)]
pub struct Version {
    /// After the end of the write entry that made it, if that is placed.
    pub made: Option<Point>,
    /// How many of its read entries are placed.
    pub readers: u32,
    /// After the ends of these.
    pub left: Point,
}

const UNKNOWN: Version = Version {
    made: None,
    readers: 0,
    left: START,
};

impl Version {
    // After what made the version of this number, if that is placed; nothing made the first version.
    fn made_by(self, version: u32) -> Option<Point>
        ensures { result ≡ made_by_box self version }
    {
        if version == 0 { Some(START) } else { self.made }
    }
}

/// What is placed of each version of an object.
#[derive(Drop)]
pub struct Versions {
    all: Vec<Version>,
}

impl Versions {
    // Nothing.
    fn new(alloc: Global) -> Versions
        ensures { (v : ℕ) → version_at result v ≡ unknown_version }
    {
        Versions {
            all: Vec::new(alloc),
        }
    }

    // Makes room for this many versions.
    fn reserve(&mut self, versions: usize) -> Result<(), AllocError>
        ensures room { OnOk result (versions ≤ vec_len self.new.all) }
        ensures same { OnOk result ((v : ℕ) → version_at self.new v ≡ version_at self.old v) }
    {
        if versions <= self.all.len() {
            return Ok(());
        }
        self.all.resize(versions, UNKNOWN)?;
        Ok(())
    }

    // Notes what is placed of a version.
    fn set(&mut self, version: usize, known: Version) -> Result<(), AllocError>
        requires { version < 2 ^ 33 }
        ensures { OnOk result ((v : ℕ) → version_at self.new v ≡ (if v == version then known else version_at self.old v)) }
    {
        self.reserve(version + 1)?;
        self.all[version] = known;
        Ok(())
    }

    // What is placed of a version.
    fn get(&self, version: usize) -> Version
        ensures { result ≡ version_at self.now version }
    {
        match self.all.get(version) {
            Some(known) => *known,
            None => UNKNOWN,
        }
    }
}

/// What is placed of each version of each object.
#[derive(Drop)]
pub struct Table {
    objects: Vec<Versions>,
}

impl Table {
    /// Nothing, of this many objects.
    ///
    /// # Errors
    /// Out of memory.
    pub fn new(alloc: Global, objects: u8) -> Result<Table, AllocError>
        ensures objects { IfOk result (λ t. vec_len t.objects ≡ objects) }
        ensures none { IfOk result (λ t. (o v : ℕ) → version_in t o v ≡ unknown_version) }
    {
        let mut all = Vec::new(alloc);
        for _ in 0..objects {
            all.push(Versions::new(alloc))?;
        }
        Ok(Table { objects: all })
    }

    /// What is placed of a version of an object.
    pub fn get(&self, object: u8, version: usize) -> Version
        ensures { result ≡ version_in self.now object version }
    {
        match self.objects.get(object as usize) {
            Some(versions) => versions.get(version),
            None => UNKNOWN,
        }
    }

    /// Notes what is placed of a version of an object.
    ///
    /// # Errors
    /// Out of memory.
    pub fn set(&mut self, object: u8, version: usize, known: Version) -> Result<(), AllocError>
        requires object { object < vec_len self.old.objects }
        requires version { version < 2 ^ 33 }
        ensures objects { OnOk result (vec_len self.new.objects ≡ vec_len self.old.objects) }
        ensures noted { OnOk result ((o v : ℕ) → version_in self.new o v ≡ (if (o == object) && (v == version) then known else version_in self.old o v)) }
    {
        self.objects[object as usize].set(version, known)
    }

    /// The first place after all that an event needs, if all that is placed.
    pub fn place_after_needs(&self, event: Event) -> Option<Point>
        ensures { result ≡ after_needs (version_in self.now) event }
    {
        match event {
            Event::Answer(..) => Some(START),
            Event::Try { .. } => Some(START),
            Event::Read { object, version } => {
                let known = self.get(object, version as usize);
                known.made_by(version)
            }
            Event::Write {
                object,
                version,
                readers,
            } => {
                let known = self.get(object, version as usize);
                if known.readers == readers {
                    Some(later(known.made_by(version)?, known.left))
                } else {
                    None
                }
            }
        }
    }

    /// Notes that an event is placed, and the first place after its end.
    ///
    /// # Errors
    /// Out of memory.
    pub fn note(&mut self, event: Event, after: Point) -> Result<(), AllocError>
        requires object { (o : ℕ) → entered event ≡ Some o → o < vec_len self.old.objects }
        requires room { (o v : ℕ) → (version_in self.old o v).readers + 1 < 2 ^ 32 }
        ensures objects { OnOk result (vec_len self.new.objects ≡ vec_len self.old.objects) }
        ensures noted { OnOk result ((o v : ℕ) → version_in self.new o v ≡ noted event after (version_in self.old) o v) }
    {
        match event {
            Event::Answer(..) => Ok(()),
            Event::Try { .. } => Ok(()),
            Event::Read { object, version } => {
                let known = self.get(object, version as usize);
                let more = Version {
                    made: known.made,
                    readers: known.readers + 1,
                    left: later(known.left, after),
                };
                self.set(object, version as usize, more)
            }
            Event::Write {
                object,
                version,
                ..
            } => {
                let known = self.get(object, version as usize + 1);
                let more = Version {
                    made: Some(after),
                    readers: known.readers,
                    left: known.left,
                };
                self.set(object, version as usize + 1, more)
            }
        }
    }

    /// Notes that the events of a box are placed, and the first place after its end.
    ///
    /// # Errors
    /// Out of memory.
    pub fn note_all(&mut self, events: &[Event], after: Point) -> Result<(), AllocError>
        requires fits { FitsSoFar events.now (vec_len self.old.objects) }
        requires room { (o v : ℕ) → (version_in self.old o v).readers + length events.now < 2 ^ 32 }
        ensures objects { OnOk result (vec_len self.new.objects ≡ vec_len self.old.objects) }
        ensures noted { OnOk result ((o v : ℕ) → version_in self.new o v ≡ noted_all events.now after (version_in self.old) o v) }
    {
        for event in events {
            self.note(*event, after)?;
        }
        Ok(())
    }
}
