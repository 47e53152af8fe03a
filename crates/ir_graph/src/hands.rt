//! The objects that a turn of a thread may be about: the one that it enters or tries to, and those that it holds.

ghost use Rattle.std.specs.Prelude.{◌≡◌, ℕ, ◌<◌, ◌≤◌, true, Some, length, slice_get, IfOk, IfSome};
ghost use Rattle.std.specs.List.{AllByRecursion};
ghost use Rattle.ir_graph.specs.Hand.{AllPairs, IsAtSpot, IsHand, with_items};
ghost use Rattle.ir_image.specs.Guest.{most_objects};
ghost use Rattle.ir_state_store.specs.Nodes.{Grows, HaveWords, SourcedFlat, cells_at};

use ir_object::Object;
use ir_runs::Access;
use ir_state_store::{Spot, Store};
use std::alloc::{AllocError, Global};

/// The numbers of the objects: first the one that the thread enters or tries to, then the others that it holds.
///
/// # Errors
/// Out of memory.
pub fn hand_of(alloc: Global, number: u8, held: &[Option<Access>]) -> Result<Vec<u8>, AllocError>
    requires { length held.now ≤ most_objects }
    ensures { IfOk result (λ numbers. IsHand number numbers.items) }
{
    let mut numbers = Vec::new(alloc);
    numbers.push(number)?;
    for o in 0..held.len() {
        if o != number as usize && held[o].is_some() {
            numbers.push(o as u8)?;
        }
    }
    Ok(numbers)
}

/// Where the objects of these numbers are at a node, if it has them all.
///
/// # Errors
/// Out of memory.
pub fn spots_of(
    alloc: Global,
    flats: &Store<'_>,
    node: usize,
    numbers: &[u8],
) -> Result<Option<Vec<Spot>>, AllocError>
    requires { node < length flats.now.items }
    ensures { IfOk result
        (λ found. IfSome found
        (λ spots. (s : SourcedFlat) → slice_get flats.now.items node ≡ Some s
        → AllPairs (IsAtSpot flats.now.shared.words s.flat.objects) numbers.now spots.items)) }
{
    let mut spots = Vec::with_capacity(alloc, numbers.len())?;
    for number in numbers {
        let Some(spot) = flats.spot(node, *number as usize) else {
            return Ok(None);
        };
        spots.push(spot)?;
    }
    Ok(Some(spots))
}

/// Whether the objects of these numbers are at these spots at a node.
pub fn stand(flats: &Store<'_>, node: usize, numbers: &[u8], spots: &[Spot]) -> bool
    requires { node < length flats.now.items }
    ensures { result ≡ true → (s : SourcedFlat) → slice_get flats.now.items node ≡ Some s → AllPairs (IsAtSpot flats.now.shared.words s.flat.objects) numbers.now spots.now }
{
    if numbers.len() != spots.len() {
        return false;
    }
    for p in 0..numbers.len() {
        let Some(spot) = flats.spot(node, numbers[p] as usize) else {
            return false;
        };
        if spot != spots[p] {
            return false;
        }
    }
    true
}

/// The objects at these spots.
///
/// # Errors
/// Out of memory.
pub fn objects_at(
    alloc: Global,
    flats: &Store<'_>,
    spots: &[Spot],
) -> Result<Vec<Object>, AllocError>
    requires { HaveWords flats.now.shared.words spots.now }
    ensures { IfOk result (λ objects. objects.items ≡ cells_at flats.now.shared.words spots.now) }
{
    let mut objects = Vec::with_capacity(alloc, spots.len())?;
    for spot in spots {
        let object = flats.object(*spot);
        objects.push(object)?;
    }
    Ok(objects)
}

/// Where these objects are, which are added if they are new.
///
/// # Errors
/// Out of memory.
pub fn add_objects(
    alloc: Global,
    flats: &mut Store<'_>,
    objects: &[Object],
) -> Result<Vec<Spot>, AllocError>
    ensures items { flats.new.items ≡ flats.old.items }
    ensures form { flats.new.form ≡ flats.old.form }
    ensures code { flats.new.code ≡ flats.old.code }
    ensures grows { Grows flats.old.shared flats.new.shared }
    ensures within { IfOk result (λ spots. HaveWords flats.new.shared.words spots.items) }
    ensures found { IfOk result (λ spots. cells_at flats.new.shared.words spots.items ≡ objects.now) }
{
    let mut spots = Vec::with_capacity(alloc, objects.len())?;
    for object in objects {
        let spot = flats.add_object(object)?;
        spots.push(spot)?;
    }
    Ok(spots)
}

/// Puts these spots in place of those of these numbers.
pub fn put_spots(objects: &mut [Spot], numbers: &[u8], spots: &[Spot])
    requires each { length spots.now ≡ length numbers.now }
    requires within { AllByRecursion (λ o. o < length objects.old) numbers.now }
    ensures { objects.new ≡ with_items objects.old numbers.now spots.now }
{
    for p in 0..numbers.len() {
        objects[numbers[p] as usize] = spots[p];
    }
}
