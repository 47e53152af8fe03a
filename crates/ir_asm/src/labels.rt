//! The labels of a source.

ghost use Rattle.std.specs.Prelude.{◌≡◌, [], ◌∷◌, ◌++◌, None, OnOk, length, option_map, slice_get};
ghost use Rattle.ir_asm.specs.Names.{named};

use crate::item::Place;
use indexmap::IndexMap;
use std::alloc::{AllocError, Global};
use std::marker::Model;

/// The labels so far and where they are; in clauses the list of them, in the order of their definitions.
#[derive(Drop)]
pub struct Labels {
    places: IndexMap<Vec<u8>, Place>,
}

impl Model for Labels {
    ghost use Rattle.std.specs.Prelude.{ℕ, List, map};
    ghost use Rattle.ir_asm.specs.declared.item.Place.{Place};

    ghost Value = { List (List ℕ × Place) };

    ghost view = { λ l. map (λ e. (e.0.items, e.1)) l.places.entries };
}

impl Labels {
    pub fn new(alloc: Global) -> Labels
        ensures { result ≡ [] }
    {
        Labels {
            places: IndexMap::new(alloc),
        }
    }

    /// Where the label of a name is.
    pub fn get(&self, name: &[u8]) -> Option<Place>
        ensures { result ≡ named self.now name.now }
    {
        self.places.get(name).copied()
    }

    /// How many labels there are.
    pub fn len(&self) -> usize
        ensures { result ≡ length self.now }
    {
        self.places.len()
    }

    /// The name and the place of a label, by its index in the order of their definitions.
    pub fn get_index(&self, index: usize) -> Option<(&[u8], Place)>
        ensures { option_map (λ label. (label.0.now, label.1)) result ≡ slice_get self.now index }
    {
        let (name, place) = self.places.as_slice().get_index(index)?;
        Some((name.as_slice(), *place))
    }

    /// Adds a label, of whose name there is none yet.
    pub fn insert(&mut self, alloc: Global, name: &[u8], place: Place) -> Result<(), AllocError>
        requires { named self.old name.now ≡ None }
        ensures { OnOk result (self.new ≡ self.old ++ (name.now, place) ∷ []) }
    {
        let key = Vec::from_slice(alloc, name)?;
        self.places.insert(key, place)?;
        Ok(())
    }
}
