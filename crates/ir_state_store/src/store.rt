//! States by their numbers.

ghost use Rattle.std.specs.Prelude.{◌≡◌, ◌<◌, ◌++◌, [], ◌∷◌, ℕ, List, length, map, true, false, Some, None, slice_get, IfOk, IfSome, OnOk, OnErr};
ghost use Rattle.std.specs.List.{slice_index_or};
ghost use Rattle.ir_flat.specs.Flat.{cell_of};
ghost use Rattle.ir_thread_bytes.specs.Frozen.{is_over};
ghost use Rattle.ir_state_store.specs.Nodes.{SourcedFlat, sourced_thread, with_turn, IsSourced, cell_in, sourced_in, AreKept, AreSameLooks};
ghost use Rattle.ir_state_store.specs.Nodes.{AreSameNumbers, AreMoments, AreNodesFound, Grows, IsNode, IsWithin, Stored};
ghost use Rattle.ir_state_store.specs.Others.{HasOthersOf};
ghost use Rattle.ir_state_store.specs.Places.{no_node};
ghost use Rattle.ir_state_store.specs.Table.{HaveForm, HaveTicks, HaveNoTicks, all_over, idle_beside, AreIn};

use crate::compare::{hash_of, same_looks};
use crate::index::{Index, MOST_STEPS};
use crate::kept::Kept;
use crate::node::Node;
use crate::number::short;
use crate::objects::{object_at, objects_at, spot_of, spots_of};
use crate::sourced::{SourcedFlat, SourcedThread};
use crate::spot::Spot;
use crate::table::Table;
use crate::words::Words;
use ir_flat::Flat;
use ir_image::ImageForm;
use ir_object::Object;
use ir_thread_bytes::{Basis, tells_apart};
use std::alloc::{AllocError, Global};
use std::marker::Model;

/// States of a guest, by their numbers; in clauses a list of them, and the form of the guest's image. What they have in common is kept once.
#[derive(Drop)]
pub struct Store<'a> {
    alloc: Global,
    table: Table<'a>,
    words: Words,
    nodes: Kept<'a>,
    index: Index,
}

impl<'a> Model for Store<'a> {
    ghost Value = { Stored };

    ghost view = { λ s. record {
      items = map (sourced_in (record { threads = s.table.items; words = s.words })) s.nodes;
      form = s.table.form;
      code = s.table.basis.code;
      shared = record { threads = s.table.items; words = s.words };
      nodes = s.nodes;
    } };

    ghost invariant = { λ s. AreKept (record { threads = s.table.items; words = s.words }) s.nodes × AreNodesFound s.index s.table.looks s.nodes };
}

// The number of a state that looks the same as one by numbers.
fn find_node(table: &Table<'_>, nodes: &Kept<'_>, index: &Index, node: &Node<'_>) -> Option<usize>
    requires node { AreIn table.now.items node.now.threads }
    requires nodes { (v : ℕ) → v < length nodes.now → AreIn table.now.items (slice_index_or nodes.now v no_node).threads }
    requires found { AreNodesFound index.now table.now.looks nodes.now }
    ensures within { IfSome result (λ v. v < length nodes.now) }
    ensures alike { IfSome result
        (λ v. (words : List (List ℕ))
        → AreSameLooks table.now.basis.code (sourced_in (record { threads = table.now.items; words = words }) node.now)
        (sourced_in (record { threads = table.now.items; words = words }) (slice_index_or nodes.now v no_node))) }
    ensures none { result ≡ None → (v : ℕ) → v < length nodes.now → AreSameNumbers table.now.looks node.now (slice_index_or nodes.now v no_node) → ⊥ }
{
    let hash = hash_of(table, node);
    for steps in 0..MOST_STEPS {
        let v = index.at(hash, steps)?;
        if is_alike(table, nodes, v, node) {
            return Some(v);
        }
    }
    None
}

// Whether the state of a number looks the same as one by numbers.
fn is_alike(table: &Table<'_>, nodes: &Kept<'_>, v: usize, node: &Node<'_>) -> bool
    requires node { AreIn table.now.items node.now.threads }
    requires nodes { (v : ℕ) → v < length nodes.now → AreIn table.now.items (slice_index_or nodes.now v no_node).threads }
    ensures within { result ≡ true → v < length nodes.now }
    ensures same { result ≡ true → (words : List (List ℕ))
        → AreSameLooks table.now.basis.code (sourced_in (record { threads = table.now.items; words = words }) node.now)
        (sourced_in (record { threads = table.now.items; words = words }) (slice_index_or nodes.now v no_node)) }
    ensures other { result ≡ false → v < length nodes.now → AreSameNumbers table.now.looks node.now (slice_index_or nodes.now v no_node) → ⊥ }
{
    v < nodes.len() && same_looks(table, node, nodes.threads(v), nodes.objects(v))
}

impl<'a> Store<'a> {
    /// No states, of an image of this form, whose threads are frozen against this basis.
    pub fn new(alloc: Global, form: ImageForm, basis: Basis<'a>) -> Store<'a>
        ensures items { result.items ≡ [] }
        ensures form { result.form ≡ form }
        ensures code { result.code ≡ basis.entry.code }
    {
        Store {
            alloc,
            table: Table::new(alloc, form, basis),
            words: Words::new(alloc),
            nodes: Kept::new(alloc),
            index: Index::new(alloc),
        }
    }

    /// What the threads are frozen against.
    pub fn basis(&self) -> &Basis<'a>
        ensures { result.now.code ≡ self.now.code }
    {
        self.table.basis()
    }

    /// How many states there are.
    pub fn len(&self) -> usize
        ensures { result ≡ length self.now.items }
    {
        self.nodes.len()
    }

    /// The state of a number.
    ///
    /// # Errors
    /// Out of memory.
    pub fn get(&self, v: usize) -> Result<SourcedFlat<'a>, AllocError>
        requires { v < length self.now.items }
        ensures found { IfOk result (λ s. slice_get self.now.items v ≡ Some s) }
        ensures form { IfOk result (λ s. HaveForm self.now.form s.flat.threads) }
        ensures sourced { IfOk result (λ s. IsSourced s) }
    {
        let numbers = self.nodes.threads(v);
        let threads = self.table.threads(numbers)?;
        let sources = self.table.sources(numbers)?;
        let objects = objects_at(self.alloc, &self.words, self.nodes.objects(v))?;
        Ok(SourcedFlat {
            flat: Flat::new(self.nodes.code(v), threads, objects),
            sources,
        })
    }

    /// The number of a thread of a state.
    pub fn thread_number(&self, v: usize, t: usize) -> usize
        requires node { v < length self.now.items }
        requires thread { (s : SourcedFlat) → slice_get self.now.items v ≡ Some s → t < length s.flat.threads }
        ensures within { result < length self.now.shared.threads }
        ensures thread { (s : SourcedFlat) → slice_get self.now.items v ≡ Some s → slice_index_or self.now.shared.threads result idle_beside ≡ sourced_thread s t }
        ensures sourced { (s : SourcedFlat) → slice_get self.now.items v ≡ Some s → IsSourced s }
    {
        self.nodes.thread(v, t) as usize
    }

    /// An object of a state, by numbers.
    pub fn spot(&self, v: usize, o: usize) -> Option<Spot>
        requires { v < length self.now.items }
        ensures within { IfSome result (λ spot. spot.words < length self.now.shared.words) }
        ensures object { IfSome result (λ spot. (s : SourcedFlat) → slice_get self.now.items v ≡ Some s → (o < length s.flat.objects) × (cell_in self.now.shared.words spot ≡ cell_of s.flat o)) }
    {
        let objects = self.nodes.objects(v);
        if o < objects.len() {
            Some(objects[o])
        } else {
            None
        }
    }

    /// The thread of a number, beside what answers it.
    ///
    /// # Errors
    /// Out of memory.
    pub fn thread(&self, n: usize) -> Result<SourcedThread<'a>, AllocError>
        requires { n < length self.now.shared.threads }
        ensures found { IfOk result (λ thread. thread ≡ slice_index_or self.now.shared.threads n idle_beside) }
        ensures form { IfOk result (λ thread. thread.0.form ≡ self.now.form) }
    {
        self.table.thread(n)
    }

    /// Whether the thread of a number has ended and holds nothing.
    pub fn thread_over(&self, n: usize) -> bool
        requires { n < length self.now.shared.threads }
        ensures { result ≡ is_over (slice_index_or self.now.shared.threads n idle_beside).0 }
    {
        self.table.over(n)
    }

    /// Whether some call for the time was answered of a thread of a state.
    pub fn is_timed(&self, node: &Node<'_>) -> bool
        requires { AreIn self.now.shared.threads node.now.threads }
        ensures timed { result ≡ true → HaveTicks (sourced_in self.now.shared node.now).sources }
        ensures untimed { result ≡ false → HaveNoTicks (sourced_in self.now.shared node.now).sources }
    {
        self.table.is_timed(node.threads.as_slice())
    }

    /// The object of these numbers.
    pub fn object(&self, spot: Spot) -> Object
        requires { spot.words < length self.now.shared.words }
        ensures { result ≡ cell_in self.now.shared.words spot }
    {
        object_at(&self.words, spot)
    }

    /// The number of a thread beside what answers it, which is added if it is new.
    ///
    /// # Errors
    /// Out of memory.
    pub fn add_thread(&mut self, thread: &SourcedThread<'a>) -> Result<usize, AllocError>
        requires { thread.now.0.form ≡ self.old.form }
        ensures items { self.new.items ≡ self.old.items }
        ensures form { self.new.form ≡ self.old.form }
        ensures code { self.new.code ≡ self.old.code }
        ensures grows { Grows self.old.shared self.new.shared }
        ensures within { IfOk result (λ n. n < length self.new.shared.threads) }
        ensures found { IfOk result (λ n. slice_index_or self.new.shared.threads n idle_beside ≡ thread.now) }
    {
        self.table.each();
        self.table.add(&thread.thread, &thread.source)
    }

    /// An object by numbers, which are added if they are new.
    ///
    /// # Errors
    /// Out of memory.
    pub fn add_object(&mut self, object: &Object) -> Result<Spot, AllocError>
        ensures items { self.new.items ≡ self.old.items }
        ensures form { self.new.form ≡ self.old.form }
        ensures code { self.new.code ≡ self.old.code }
        ensures grows { Grows self.old.shared self.new.shared }
        ensures within { IfOk result (λ spot. spot.words < length self.new.shared.words) }
        ensures found { IfOk result (λ spot. cell_in self.new.shared.words spot ≡ object.now) }
    {
        spot_of(&mut self.words, object)
    }

    /// A state by numbers, with another thread beside what answers it, and another object.
    ///
    /// # Errors
    /// Out of memory.
    pub fn with_both(
        &self,
        v: usize,
        t: usize,
        thread: usize,
        o: usize,
        spot: Spot,
    ) -> Result<Node<'a>, AllocError>
        requires node { v < length self.now.items }
        requires own { (s : SourcedFlat) → slice_get self.now.items v ≡ Some s → (t < length s.flat.threads) × (o < length s.flat.objects) }
        requires thread { thread < length self.now.shared.threads }
        requires spot { spot.words < length self.now.shared.words }
        ensures within { IfOk result (λ node. IsWithin self.now.shared node) }
        ensures state { IfOk result
            (λ node. (s : SourcedFlat) → slice_get self.now.items v ≡ Some s
            → sourced_in self.now.shared node
            ≡ with_turn s t (slice_index_or self.now.shared.threads thread idle_beside) o (cell_in self.now.shared.words spot)) }
    {
        let number = short(thread)?;
        let mut threads = Vec::from_slice(self.alloc, self.nodes.threads(v))?;
        threads[t] = number;
        let mut objects = Vec::from_slice(self.alloc, self.nodes.objects(v))?;
        objects[o] = spot;
        Ok(Node {
            code: self.nodes.code(v),
            threads,
            objects,
        })
    }

    /// Whether all threads of a state have ended and hold nothing.
    pub fn is_over(&self, v: usize) -> bool
        requires { v < length self.now.items }
        ensures { (s : SourcedFlat) → slice_get self.now.items v ≡ Some s → result ≡ all_over s.flat.threads }
    {
        self.table.all_over(self.nodes.threads(v))
    }

    /// A state by numbers, of which the new ones are added.
    ///
    /// # Errors
    /// Out of memory.
    pub fn by_numbers(&mut self, state: &SourcedFlat<'a>) -> Result<Node<'a>, AllocError>
        requires form { HaveForm self.old.form state.now.flat.threads }
        requires sourced { IsSourced state.now }
        ensures items { self.new.items ≡ self.old.items }
        ensures form { self.new.form ≡ self.old.form }
        ensures code { self.new.code ≡ self.old.code }
        ensures grows { Grows self.old.shared self.new.shared }
        ensures node { IfOk result (λ node. IsNode self.new.shared node) }
        ensures state { IfOk result (λ node. sourced_in self.new.shared node ≡ state.now) }
    {
        let flat = &state.flat;
        self.table.each();
        let threads = self
            .table
            .add_all(flat.threads(), state.sources.as_slice())?;
        let objects = spots_of(self.alloc, &mut self.words, flat.objects())?;
        Ok(Node {
            code: flat.code(),
            threads,
            objects,
        })
    }

    /// A state by numbers, whose threads are those of the state of a number, but for one thread or what answers it. That thread and the
    /// objects are added if they are new.
    ///
    /// # Errors
    /// Out of memory.
    pub fn by_number_of(
        &mut self,
        v: usize,
        t: usize,
        state: &SourcedFlat<'a>,
    ) -> Result<Node<'a>, AllocError>
        requires node { v < length self.old.items }
        requires thread { t < length state.now.flat.threads }
        requires form { HaveForm self.old.form state.now.flat.threads }
        requires sourced { IsSourced state.now }
        requires others { (s : SourcedFlat) → slice_get self.old.items v ≡ Some s → HasOthersOf s state.now t }
        ensures items { self.new.items ≡ self.old.items }
        ensures form { self.new.form ≡ self.old.form }
        ensures code { self.new.code ≡ self.old.code }
        ensures grows { Grows self.old.shared self.new.shared }
        ensures node { IfOk result (λ node. IsNode self.new.shared node) }
        ensures state { IfOk result (λ node. sourced_in self.new.shared node ≡ state.now) }
    {
        let flat = &state.flat;
        self.table.each();
        let numbers = self.nodes.threads(v);
        let thread = &flat.threads()[t];
        let threads = self.table.add_at(numbers, t, thread, &state.sources[t])?;
        let objects = spots_of(self.alloc, &mut self.words, flat.objects())?;
        Ok(Node {
            code: flat.code(),
            threads,
            objects,
        })
    }

    /// A state that looks the same as one by numbers.
    pub fn find(&self, node: &Node<'_>) -> Option<usize>
        requires { IsWithin self.now.shared node.now }
        ensures within { IfSome result (λ v. v < length self.now.items) }
        ensures alike { IfSome result (λ v. (s : SourcedFlat) → slice_get self.now.items v ≡ Some s → AreSameLooks self.now.code (sourced_in self.now.shared node.now) s) }
        ensures sourced { (v : ℕ) (s : SourcedFlat) → slice_get self.now.items v ≡ Some s → IsSourced s }
        ensures none { result ≡ None → (v : ℕ) (s : SourcedFlat) → slice_get self.now.items v ≡ Some s
            → AreMoments (sourced_in self.now.shared node.now) s → AreSameLooks self.now.code (sourced_in self.now.shared node.now) s → ⊥ }
    {
        tells_apart();
        self.table.each();
        self.words.each_once();
        find_node(&self.table, &self.nodes, &self.index, node)
    }

    /// Adds a state by numbers.
    ///
    /// # Errors
    /// Out of memory.
    pub fn push(&mut self, node: Node<'a>) -> Result<(), AllocError>
        requires { IsNode self.old.shared node }
        ensures ok { OnOk result (self.new.items ≡ self.old.items ++ sourced_in self.old.shared node.entry ∷ []) }
        ensures err { OnErr result (self.new.items ≡ self.old.items) }
        ensures form { self.new.form ≡ self.old.form }
        ensures code { self.new.code ≡ self.old.code }
        ensures shared { self.new.shared ≡ self.old.shared }
    {
        let hash = hash_of(&self.table, &node);
        self.index.note(hash, self.nodes.len())?;
        self.nodes.push(node)?;
        Ok(())
    }
}
