//! How many entries there are at each version of an object.

ghost use Rattle.std.specs.Prelude.{◌≡◌, ◌+◌, ◌-◌, ◌<◌, ◌^◌, ℕ, OnOk, IfOk};
ghost use Rattle.ir_coherence.specs.Counting.{count_at, IsEmpty, IsSettled, OneMore};

use crate::far_versions::FarVersions;
use std::alloc::{AllocError, Global};

/// How many entries there are at each version. Versions below a limit have a place of their own, so that time and memory are linear
/// where versions are dense; the others are sorted and searched.
#[derive(Drop)]
pub struct VersionCounts {
    near: Vec<u32>,
    far: FarVersions,
}

impl VersionCounts {
    /// No entry at any version, with a place for each version below the limit.
    pub fn new(alloc: Global, limit: usize) -> Result<VersionCounts, AllocError>
        ensures { IfOk result IsEmpty }
    {
        Ok(VersionCounts {
            near: vec![in alloc; 0u32; limit]?,
            far: FarVersions::new(alloc),
        })
    }

    /// Counts one more entry at the version.
    ///
    /// # Errors
    /// Out of memory.
    pub fn add(&mut self, version: u32) -> Result<(), AllocError>
        requires { count_at self.old version + 1 < 2 ^ 32 }
        ensures { OnOk result (OneMore self.old self.new version) }
    {
        match self.near.get_mut(version as usize) {
            Some(count) => *count += 1,
            None => self.far.push(version)?,
        }
        Ok(())
    }

    /// Makes ready to be asked.
    ///
    /// # Errors
    /// Out of memory.
    pub fn settle(&mut self) -> Result<(), AllocError>
        ensures settled { OnOk result (IsSettled self.new) }
        ensures same { OnOk result ((v : ℕ) → count_at self.new v ≡ count_at self.old v) }
    {
        self.far.sort()
    }

    /// How many entries there are at the version.
    #[inline(always)]
    pub fn get(&self, version: u32) -> usize
        requires { IsSettled self.now }
        ensures { result ≡ count_at self.now version }
    {
        match self.near.get(version as usize) {
            Some(count) => *count as usize,
            None => self.far.count(version),
        }
    }

    /// How many entries there are at the version before and at the version.
    #[inline(always)]
    pub fn both(&self, version: u32) -> (usize, usize)
        requires settled { IsSettled self.now }
        requires later { 0 < version }
        ensures before { result.0 ≡ count_at self.now (version - 1) }
        ensures here { result.1 ≡ count_at self.now version }
    {
        if version as usize <= self.near.len() {
            (self.get(version - 1), self.get(version))
        } else {
            self.far.both(version)
        }
    }
}
