//! States by numbers, in little memory.

ghost use Rattle.std.specs.Prelude.{◌≡◌, ◌<◌, ◌++◌, [], ◌∷◌, ℕ, List, length, map, OnOk, OnErr};
ghost use Rattle.std.specs.List.{slice_index_or, AllByRecursion};
ghost use Rattle.ir_state_store.specs.Nodes as nodes;
ghost use Rattle.ir_state_store.specs.Places.{node_at, no_node, IsPlacedNode};

use crate::node::Node;
use crate::number::short;
use crate::place::Place;
use crate::put::put;
use crate::spot::Spot;
use ir_image::Code;
use std::alloc::{AllocError, Global};
use std::marker::Model;

/// States by numbers. The numbers of all their threads are in one list, and their objects in another.
#[derive(Drop)]
pub struct Kept<'a> {
    threads: Vec<u32>,
    objects: Vec<Spot>,
    places: Vec<Place<'a>>,
}

impl<'a> Model for Kept<'a> {
    ghost Value = { List nodes.Node };

    ghost view = { λ k. map (node_at k.threads.items k.objects.items) k.places.items };

    ghost invariant = { λ k. AllByRecursion (IsPlacedNode (length k.threads.items) (length k.objects.items)) k.places.items };
}

impl<'a> Kept<'a> {
    /// No states.
    pub fn new(alloc: Global) -> Kept<'a>
        ensures { result ≡ [] }
    {
        Kept {
            threads: Vec::new(alloc),
            objects: Vec::new(alloc),
            places: Vec::new(alloc),
        }
    }

    /// How many states there are.
    pub fn len(&self) -> usize
        ensures { result ≡ length self.now }
    {
        self.places.len()
    }

    /// The code of a state.
    pub fn code(&self, v: usize) -> &'a Code
        requires { v < length self.now }
        ensures { result.now ≡ (slice_index_or self.now v no_node).code }
    {
        self.places[v].code
    }

    /// The numbers of a state's threads.
    pub fn threads(&self, v: usize) -> &[u32]
        requires { v < length self.now }
        ensures { result.now ≡ (slice_index_or self.now v no_node).threads }
    {
        let place = &self.places[v];
        let first = place.thread as usize;
        &self.threads[first..first + place.threads as usize]
    }

    /// The number of a state's thread.
    pub fn thread(&self, v: usize, t: usize) -> u32
        requires node { v < length self.now }
        requires thread { t < length (slice_index_or self.now v no_node).threads }
        ensures { result ≡ slice_index_or (slice_index_or self.now v no_node).threads t 0 }
    {
        let numbers = self.threads(v);
        numbers[t]
    }

    /// A state's objects.
    pub fn objects(&self, v: usize) -> &[Spot]
        requires { v < length self.now }
        ensures { result.now ≡ (slice_index_or self.now v no_node).objects }
    {
        let place = &self.places[v];
        let first = place.object as usize;
        &self.objects[first..first + place.objects as usize]
    }

    /// Adds a state.
    ///
    /// # Errors
    /// Out of memory; nothing is added.
    pub fn push(&mut self, node: Node<'a>) -> Result<(), AllocError>
        ensures ok { OnOk result (self.new ≡ self.old ++ node.entry ∷ []) }
        ensures err { OnErr result (self.new ≡ self.old) }
    {
        let place = Place {
            code: node.code,
            thread: short(self.threads.len())?,
            threads: short(node.threads.len())?,
            object: short(self.objects.len())?,
            objects: short(node.objects.len())?,
        };
        self.threads.extend_from_slice(node.threads.as_slice())?;
        self.objects.extend_from_slice(node.objects.as_slice())?;
        put(&mut self.places, place)
    }
}
