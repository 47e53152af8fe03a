//! The steps by which objects were entered, or left, looked up by object, access and version.

ghost use Rattle.std.specs.Prelude.{◌≡◌, ◌<◌, [], ◌∷◌, length, OnOk};
ghost use Rattle.std.specs.List.{Contains};
ghost use Rattle.std.specs.List.Sorted.{IsNonDecreasingBy};
ghost use Rattle.ir_fit.specs.Placed.{Listing, lists_for, listed_events};
ghost use Rattle.ir_fit.specs.Listed.{AreSame, IsOneMore, AddsAll, none_listed, AreSorted, IsInOrder};
ghost use Rattle.ir_fit.specs.declared.place.Place.{Place};

use crate::object_places::ObjectPlaces;
use crate::place::Place;
use ir_runs::Access;
use std::alloc::{AllocError, Global};
use std::marker::Model;

// As many as the numbers that an object may have, which are bytes.
const OBJECTS: usize = 256;

/// How many steps enter, or leave, each object for each access.
#[derive(Drop)]
pub struct Rooms {
    reading: [usize; OBJECTS],
    writing: [usize; OBJECTS],
}

impl Rooms {
    // For none.
    pub fn new() -> Rooms {
        Rooms {
            reading: [0; OBJECTS],
            writing: [0; OBJECTS],
        }
    }

    // For one more.
    pub fn add(&mut self, object: u8, access: Access) {
        let rooms = match access {
            Access::Reading => &mut self.reading,
            Access::Writing => &mut self.writing,
        };
        rooms[object as usize] = rooms[object as usize].saturating_add(1);
    }
}

/// The steps by which objects were entered, or left, by object and access: a list for each object up to the last that one
/// of them is of.
#[derive(Drop)]
pub struct Visits {
    alloc: Global,
    reading: Vec<ObjectPlaces>,
    writing: Vec<ObjectPlaces>,
}

impl Model for Visits {
    ghost Value = { Listing };

    ghost view = { λ v. record { reading = v.reading.items; writing = v.writing.items } };
}

// Makes lists up to that of the object, each with its room.
fn reach(
    alloc: Global,
    lists: &mut Vec<ObjectPlaces>,
    rooms: &[usize; OBJECTS],
    object: u8,
) -> Result<(), AllocError>
    ensures reached { OnOk result (object < length lists.new.items) }
    ensures same { OnOk result (AreSame lists.old.items lists.new.items) }
{
    for next in lists.len()..object as usize + 1 {
        lists.push(ObjectPlaces::new(alloc, rooms[next])?)?;
    }
    Ok(())
}

// One more of the object.
#[inline(always)]
fn add_to(
    alloc: Global,
    lists: &mut Vec<ObjectPlaces>,
    rooms: &[usize; OBJECTS],
    object: u8,
    place: Place,
) -> Result<(), AllocError>
    ensures { OnOk result (IsOneMore lists.old.items lists.new.items object place) }
{
    if object as usize >= lists.len() {
        reach(alloc, lists, rooms, object)?;
    }
    lists[object as usize].push(place)
}

// Brings each list into the order of its versions.
fn sort_each(lists: &mut [ObjectPlaces]) -> Result<(), AllocError>
    ensures length { length lists.new ≡ length lists.old }
    ensures sorted { OnOk result (AreSorted lists.old lists.new) }
{
    for object in 0..lists.len() {
        lists[object].sort()?;
    }
    Ok(())
}

impl Visits {
    // None.
    pub fn new(alloc: Global) -> Visits
        ensures { result ≡ none_listed }
    {
        Visits {
            alloc,
            reading: Vec::new(alloc),
            writing: Vec::new(alloc),
        }
    }

    // One more. The list of its object has the room that is said there.
    #[inline(always)]
    pub fn add(
        &mut self,
        rooms: &Rooms,
        object: u8,
        access: Access,
        place: Place,
    ) -> Result<(), AllocError>
        ensures { OnOk result (AddsAll self.old self.new ((object, access, place) ∷ [])) }
    {
        match access {
            Access::Reading => add_to(self.alloc, &mut self.reading, &rooms.reading, object, place),
            Access::Writing => add_to(self.alloc, &mut self.writing, &rooms.writing, object, place),
        }
    }

    // Brings those of each object into the order of their versions.
    pub fn sort(&mut self) -> Result<(), AllocError>
        ensures { OnOk result (IsInOrder self.old self.new) }
    {
        sort_each(&mut self.reading)?;
        sort_each(&mut self.writing)
    }

    // The lists for such access, by object.
    fn lists(&self, access: Access) -> &[ObjectPlaces]
        ensures { result.now ≡ lists_for self.now access }
    {
        match access {
            Access::Reading => self.reading.as_slice(),
            Access::Writing => self.writing.as_slice(),
        }
    }

    // Those at the version.
    pub fn at(&self, object: u8, access: Access, version: u32) -> &[Place]
        requires { IsNonDecreasingBy (λ (p : Place). p.version) (listed_events self.now object access) }
        ensures emitted { (p : Place) → Contains result.now p → Contains (listed_events self.now object access) p × (p.version ≡ version) }
        ensures all { (p : Place) → Contains (listed_events self.now object access) p → p.version ≡ version → Contains result.now p }
    {
        let lists = self.lists(access);
        if lists.len() <= object as usize {
            return &[];
        }
        lists[object as usize].at(version)
    }
}
