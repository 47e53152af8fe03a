//! The write entries of each object, by version.

ghost use Rattle.std.specs.Prelude.{◌≡◌, ◌+◌, ◌<◌, ◌≤◌, ◌==◌, ◌&&◌, ℕ, Some, None, if◌then◌else◌, length, vec_len, OnOk, IfOk};
ghost use Rattle.ir_past.specs.Tables.{made_at, maker_in};

use crate::place::Place;
use std::alloc::{AllocError, Global};

/// The write entries of one object: where the one at each version is.
#[derive(Drop)]
pub struct ObjectMakers {
    writes: Vec<Option<Place>>,
}

impl ObjectMakers {
    // No write entry.
    fn new(alloc: Global) -> ObjectMakers
        ensures { (v : ℕ) → made_at result v ≡ None }
    {
        ObjectMakers {
            writes: Vec::new(alloc),
        }
    }

    // Makes room for this many versions.
    fn reserve(&mut self, versions: usize) -> Result<(), AllocError>
        ensures room { OnOk result (versions ≤ vec_len self.new.writes) }
        ensures same { OnOk result ((v : ℕ) → made_at self.new v ≡ made_at self.old v) }
    {
        if versions <= self.writes.len() {
            return Ok(());
        }
        self.writes.resize(versions, None)?;
        Ok(())
    }

    // Notes the write entry at a version.
    fn note(&mut self, version: u32, place: Place) -> Result<(), AllocError>
        ensures { OnOk result ((v : ℕ) → made_at self.new v ≡ (if v == version then Some place else made_at self.old v)) }
    {
        self.reserve(version as usize + 1)?;
        self.writes[version as usize] = Some(place);
        Ok(())
    }

    // The write entry at a version.
    fn get(&self, version: u32) -> Option<Place>
        ensures { result ≡ made_at self.now version }
    {
        match self.writes.get(version as usize) {
            Some(place) => *place,
            None => None,
        }
    }
}

/// The write entries of each object.
#[derive(Drop)]
pub struct Makers {
    pub objects: Vec<ObjectMakers>,
}

impl Makers {
    /// No write entry of any of this many objects.
    ///
    /// # Errors
    /// Out of memory.
    pub fn new(alloc: Global, objects: u8) -> Result<Makers, AllocError>
        ensures objects { IfOk result (λ m. vec_len m.objects ≡ objects) }
        ensures none { IfOk result (λ m. (o v : ℕ) → maker_in m o v ≡ None) }
    {
        let mut all = Vec::new(alloc);
        for _ in 0..objects {
            all.push(ObjectMakers::new(alloc))?;
        }
        Ok(Makers { objects: all })
    }

    /// Notes the write entry of an object at a version.
    ///
    /// # Errors
    /// Out of memory.
    pub fn note(&mut self, object: u8, version: u32, place: Place) -> Result<(), AllocError>
        requires { object < vec_len self.old.objects }
        ensures objects { OnOk result (vec_len self.new.objects ≡ vec_len self.old.objects) }
        ensures noted { OnOk result ((o v : ℕ) → maker_in self.new o v ≡ (if (o == object) && (v == version) then Some place else maker_in self.old o v)) }
    {
        self.objects[object as usize].note(version, place)
    }

    /// The write entry of an object at a version.
    pub fn get(&self, object: u8, version: u32) -> Option<Place>
        ensures { result ≡ maker_in self.now object version }
    {
        match self.objects.get(object as usize) {
            Some(makers) => makers.get(version),
            None => None,
        }
    }
}
