//! How many entries of each object there are at each version.

ghost use Rattle.std.specs.Prelude.{◌≡◌, ℕ, [], ◌∷◌, length, vec_len, OnOk, IfOk};
ghost use Rattle.ir_log.specs.Logging.{label_of};
ghost use Rattle.ir_coherence.specs.Counting.{MayStand, count_at, reads_of, writes_of, CountsNone, CountsMore, HasRoom, IsSettled, AreSettled, SameCounts, nobody_made, cause_by};

use crate::cause::Cause;
use crate::version_counts::VersionCounts;
use ir_log::Event;
use std::alloc::{AllocError, Global};

/// The entries of one object.
#[derive(Drop)]
pub struct ObjectCounts {
    pub reads: VersionCounts,
    pub writes: VersionCounts,
}

impl ObjectCounts {
    // Makes ready to be asked.
    fn settle(&mut self) -> Result<(), AllocError>
        ensures reads { OnOk result (IsSettled self.new.reads) }
        ensures writes { OnOk result (IsSettled self.new.writes) }
        ensures same_reads { OnOk result ((v : ℕ) → count_at self.new.reads v ≡ count_at self.old.reads v) }
        ensures same_writes { OnOk result ((v : ℕ) → count_at self.new.writes v ≡ count_at self.old.writes v) }
    {
        self.reads.settle()?;
        self.writes.settle()
    }
}

/// The entries of each object.
#[derive(Drop)]
pub struct EntryCounts {
    pub objects: Vec<ObjectCounts>,
}

impl EntryCounts {
    /// No entry of any object; for each object the number of versions that have a place of their own.
    ///
    /// # Errors
    /// Out of memory.
    pub fn new(alloc: Global, limits: &[usize]) -> Result<EntryCounts, AllocError>
        ensures { IfOk result (CountsNone (length limits.now)) }
    {
        let mut objects = Vec::with_capacity(alloc, limits.len())?;
        for limit in limits {
            let reads = VersionCounts::new(alloc, *limit)?;
            let writes = VersionCounts::new(alloc, *limit)?;
            objects.push(ObjectCounts { reads, writes })?;
        }
        Ok(EntryCounts { objects })
    }

    /// How many read entries of the object there are at the version.
    pub fn reads(&self, object: u8, version: u32) -> usize
        requires { AreSettled self.now }
        ensures { result ≡ reads_of self.now object version }
    {
        match self.objects.get(object as usize) {
            Some(counts) => counts.reads.get(version),
            None => 0,
        }
    }

    /// How many write entries of the object there are at the version.
    pub fn writes(&self, object: u8, version: u32) -> usize
        requires { AreSettled self.now }
        ensures { result ≡ writes_of self.now object version }
    {
        match self.objects.get(object as usize) {
            Some(counts) => counts.writes.get(version),
            None => 0,
        }
    }

    /// Counts one more event.
    ///
    /// # Errors
    /// Out of memory.
    pub fn add(&mut self, event: Event) -> Result<(), AllocError>
        requires object { MayStand (vec_len self.old.objects) event }
        requires room { HasRoom self.old 1 }
        ensures { OnOk result (CountsMore self.old self.new (label_of event ∷ [])) }
    {
        match event {
            Event::Answer(..) | Event::Try { .. } => Ok(()),
            Event::Read { object, version } => self.objects[object as usize].reads.add(version),
            Event::Write {
                object,
                version,
                ..
            } => self.objects[object as usize].writes.add(version),
        }
    }

    /// Makes ready to be asked.
    ///
    /// # Errors
    /// Out of memory.
    pub fn settle(&mut self) -> Result<(), AllocError>
        ensures settled { OnOk result (AreSettled self.new) }
        ensures same { OnOk result (SameCounts self.old self.new) }
    {
        for number in 0..self.objects.len() {
            self.objects[number].settle()?;
        }
        Ok(())
    }

    // Whether an entry at the version is of a version that no write entry made.
    fn is_unmade(&self, object: u8, version: u32) -> bool
        requires { AreSettled self.now }
        ensures { result ≡ nobody_made (writes_of self.now) object version }
    {
        version > 0 && self.writes(object, version - 1) == 0
    }

    // The same of a write entry at the version, and how many of these there are.
    fn written(&self, object: u8, version: u32) -> (bool, usize)
        requires { AreSettled self.now }
        ensures unmade { result.0 ≡ nobody_made (writes_of self.now) object version }
        ensures writes { result.1 ≡ writes_of self.now object version }
    {
        if version == 0 {
            return (false, self.writes(object, version));
        }
        match self.objects.get(object as usize) {
            Some(counts) => {
                let (before, here) = counts.writes.both(version);
                (before == 0, here)
            }
            None => (true, 0),
        }
    }

    /// The first cause for which an event breaks coherence, where the entries of its trace are counted here.
    pub fn cause_of(&self, event: Event) -> Option<Cause>
        requires { AreSettled self.now }
        ensures { result ≡ cause_by (reads_of self.now) (writes_of self.now) (label_of event) }
    {
        match event {
            Event::Answer(..) | Event::Try { .. } => None,
            Event::Read { object, version } => {
                self.is_unmade(object, version).then_some(Cause::Unmade)
            }
            Event::Write {
                object,
                version,
                readers,
            } => {
                let (unmade, writes) = self.written(object, version);
                if unmade {
                    Some(Cause::Unmade)
                } else if writes > 1 {
                    Some(Cause::Twice)
                } else if self.reads(object, version) != readers as usize {
                    Some(Cause::Readers)
                } else {
                    None
                }
            }
        }
    }
}
