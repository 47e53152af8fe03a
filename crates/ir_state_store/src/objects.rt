//! Objects by the numbers of their contents.

ghost use Rattle.std.specs.Prelude.{◌≡◌, ◌<◌, length, IfOk};
ghost use Rattle.ir_state_store.specs.Nodes.{cell_in, cells_at, HaveWords};
ghost use Rattle.ir_state_store.specs.Table.{KeepsNumbers};

use crate::spot::Spot;
use crate::words::Words;
use ir_object::Object;
use std::alloc::{AllocError, Global};

/// An object by numbers, which are added if they are new.
///
/// # Errors
/// Out of memory.
pub fn spot_of(words: &mut Words, object: &Object) -> Result<Spot, AllocError>
    ensures keeps { KeepsNumbers words.old words.new }
    ensures within { IfOk result (λ spot. spot.words < length words.new) }
    ensures found { IfOk result (λ spot. cell_in words.new spot ≡ object.now) }
{
    let n = words.number(object.contents())?;
    let spot = Spot::of(n, object.word())?;
    Ok(spot)
}

/// The object of these numbers.
pub fn object_at(words: &Words, spot: Spot) -> Object
    requires { spot.words < length words.now }
    ensures { result ≡ cell_in words.now spot }
{
    Object::from_parts(spot.word(), words.get(spot.words as usize))
}

/// These objects by numbers, of which the new ones are added.
///
/// # Errors
/// Out of memory.
pub fn spots_of(
    alloc: Global,
    words: &mut Words,
    objects: &[Object],
) -> Result<Vec<Spot>, AllocError>
    ensures keeps { KeepsNumbers words.old words.new }
    ensures within { IfOk result (λ spots. HaveWords words.new spots.items) }
    ensures found { IfOk result (λ spots. cells_at words.new spots.items ≡ objects.now) }
{
    let mut spots = Vec::with_capacity(alloc, objects.len())?;
    for object in objects {
        let spot = spot_of(words, object)?;
        spots.push(spot)?;
    }
    Ok(spots)
}

/// The objects of these numbers.
///
/// # Errors
/// Out of memory.
pub fn objects_at(alloc: Global, words: &Words, spots: &[Spot]) -> Result<Vec<Object>, AllocError>
    requires { HaveWords words.now spots.now }
    ensures { IfOk result (λ objects. objects.items ≡ cells_at words.now spots.now) }
{
    let mut objects = Vec::with_capacity(alloc, spots.len())?;
    for spot in spots {
        let object = object_at(words, *spot);
        objects.push(object)?;
    }
    Ok(objects)
}
