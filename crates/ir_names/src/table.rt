//! Names by what they are of.

ghost use Rattle.std.specs.Prelude.{◌≡◌, [], OnOk, option_map};
ghost use Rattle.ir_names.specs.Things.{name_among};
ghost use Rattle.ir_names.specs.Lines.{with_row};

use crate::thing::Thing;
use indexmap::IndexMap;
use std::alloc::{AllocError, Global};
use std::marker::Model;

/// The names of things; in clauses the list of them, in the order of their lines.
#[derive(Drop)]
pub struct Names {
    rows: IndexMap<Thing, Vec<u8>>,
}

impl Model for Names {
    ghost use Rattle.std.specs.Prelude.{map};
    ghost use Rattle.ir_names.specs.Things.{NameTable};

    ghost Value = { NameTable };

    ghost view = { λ n. map (λ row. (row.0, row.1.items)) n.rows.entries };
}

impl Names {
    /// No names.
    pub fn new(alloc: Global) -> Names
        ensures { result ≡ [] }
    {
        Names {
            rows: IndexMap::new(alloc),
        }
    }

    /// What a thing is called, if it has a name.
    pub fn get(&self, thing: Thing) -> Option<&[u8]>
        ensures { option_map (λ name. name.now) result ≡ name_among self.now thing }
    {
        match self.rows.get(&thing) {
            Some(name) => Some(name.as_slice()),
            None => None,
        }
    }

    /// Adds a name of a thing, if the thing has none yet.
    ///
    /// # Errors
    /// Out of memory.
    pub fn add(&mut self, alloc: Global, thing: Thing, name: &[u8]) -> Result<(), AllocError>
        ensures { OnOk result (self.new ≡ with_row self.old (thing, name.now)) }
    {
        if self.get(thing).is_some() {
            return Ok(());
        }
        let name = Vec::from_slice(alloc, name)?;
        self.rows.insert(thing, name)?;
        Ok(())
    }
}
