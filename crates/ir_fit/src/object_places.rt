//! The steps by which one object was entered, or left, for one kind of access.

ghost use Rattle.std.specs.Prelude.{◌≡◌, ◌<◌, ◌≤◌, ◌++◌, [], ◌∷◌, List, length, IfOk, OnOk};
ghost use Rattle.std.specs.List.{Contains};
ghost use Rattle.std.specs.List.Sorted.{IsPermutation, IsNonDecreasingBy, IsPartitionPoint};
ghost use Rattle.ir_fit.specs.declared.place.Place.{Place};

use crate::place::Place;
use std::alloc::{AllocError, Global};
use std::marker::Model;

/// The steps by which one object was entered, or left, for one kind of access.
#[derive(Drop)]
pub struct ObjectPlaces {
    places: Vec<Place>,
}

// How many are before the version. If each version has one step, as among write entries, that is the version's number,
// which is looked at first.
fn count_before(places: &[Place], version: u32) -> usize
    requires { IsNonDecreasingBy (λ (p : Place). p.version) places.now }
    ensures bound { result ≤ length places.now }
    ensures point { IsPartitionPoint (λ (p : Place). p.version < version) (λ p. version ≤ p.version) places.now result }
{
    let guess = version as usize;
    if guess < places.len() && places[guess].version == version {
        if guess == 0 || places[guess - 1].version < version {
            return guess;
        }
    }
    places.partition_point(|place| place.version < version)
}

// How many are at the version or before it. None and one are found immediately.
fn count_up_to(places: &[Place], version: u32) -> usize
    requires { IsNonDecreasingBy (λ (p : Place). p.version) places.now }
    ensures bound { result ≤ length places.now }
    ensures point { IsPartitionPoint (λ (p : Place). p.version ≤ version) (λ p. version < p.version) places.now result }
{
    if places.is_empty() || places[0].version > version {
        return 0;
    }
    if places.len() == 1 || places[1].version > version {
        return 1;
    }
    places.partition_point(|place| place.version <= version)
}

impl Model for ObjectPlaces {
    ghost Value = { List Place };

    ghost view = { λ l. l.places.items };
}

impl ObjectPlaces {
    // None, with room for `room` of them.
    pub fn new(alloc: Global, room: usize) -> Result<ObjectPlaces, AllocError>
        ensures { IfOk result (λ l. l ≡ []) }
    {
        Ok(ObjectPlaces {
            places: Vec::with_capacity(alloc, room)?,
        })
    }

    // One more.
    #[inline(always)]
    pub fn push(&mut self, place: Place) -> Result<(), AllocError>
        ensures { OnOk result (self.new ≡ self.old ++ place ∷ []) }
    {
        self.places.push(place)?;
        Ok(())
    }

    // Brings them into the order of their versions.
    pub fn sort(&mut self) -> Result<(), AllocError>
        ensures permutation { OnOk result (IsPermutation self.old self.new) }
        ensures sorted { OnOk result (IsNonDecreasingBy (λ p. p.version) self.new) }
    {
        self.places.sort_by_key(|place| place.version)?;
        Ok(())
    }

    // Those at this version, where they are in order.
    pub fn at(&self, version: u32) -> &[Place]
        requires { IsNonDecreasingBy (λ (p : Place). p.version) self.now }
        ensures emitted { (p : Place) → Contains result.now p → Contains self.now p × (p.version ≡ version) }
        ensures all { (p : Place) → Contains self.now p → p.version ≡ version → Contains result.now p }
    {
        let places = self.places.as_slice();
        let rest = &places[count_before(places, version)..];
        &rest[..count_up_to(rest, version)]
    }
}
