//! Threads of one image beside what answers them, without the private memory that is as at the start.

ghost use Rattle.std.specs.Prelude.{◌≡◌, ◌⊎◌, ◌<◌, ◌++◌, [], ◌∷◌, ℕ, length, map, true, false, Some, slice_get, IfOk, OnOk, OnErr};
ghost use Rattle.std.specs.List.{slice_index_or, AllByRecursion};
ghost use Rattle.ir_thread_bytes.specs.Basis.{IsBasis};
ghost use Rattle.ir_thread_bytes.specs.Frozen.{frozen, is_over};
ghost use Rattle.ir_thread_bytes.specs.Twins.{KeepsBounds};
ghost use Rattle.ir_state_store.specs.Rows.{beside_in, look_of, packed_of, HasOwnBytes};
ghost use Rattle.ir_state_store.specs.Table.{idle_beside, LooksLike, AreLooks};
ghost use Rattle.ir_state_store.specs.Table as table;
ghost use Rattle.ir_world.specs.Sources.{Source};
ghost use Rattle.ir_thread.specs.State.{ThreadState};

use crate::bounds::bounded;
use crate::packed::Packed;
use crate::put::put;
use crate::row::Row;
use ir_image::ImageForm;
use ir_thread::Thread;
use ir_thread_bytes::{Basis, comes_back};
use ir_world::Sources;
use std::alloc::{AllocError, Global};
use std::marker::Model;

/// Threads of one image beside what answers them, in a list.
#[derive(Drop)]
pub struct Rows<'a> {
    alloc: Global,
    basis: Basis<'a>,
    form: ImageForm,
    rows: Vec<Row<'a>>,
}

impl<'a> Model for Rows<'a> {
    ghost Value = { table.Table };

    ghost view = { λ t. record {
      items = map (beside_in t.basis.memory) t.rows.items;
      form = t.form;
      basis = t.basis;
      looks = map look_of t.rows.items;
    } };

    ghost invariant = { λ t. AllByRecursion (λ (x : ThreadState × Source). x.0.form ≡ t.form) (map (beside_in t.basis.memory) t.rows.items)
        × AllByRecursion (λ (x : ThreadState × Source). KeepsBounds x.0) (map (beside_in t.basis.memory) t.rows.items)
        × AllByRecursion (HasOwnBytes t.basis) t.rows.items
        × AreLooks t.basis (map (beside_in t.basis.memory) t.rows.items) (map look_of t.rows.items) };
}

impl<'a> Rows<'a> {
    /// No threads, of an image of this form, to be frozen against this basis.
    pub fn new(alloc: Global, form: ImageForm, basis: Basis<'a>) -> Rows<'a>
        ensures { result ≡ record { items = []; form = form; basis = basis.entry; looks = [] } }
    {
        Rows {
            alloc,
            basis,
            form,
            rows: Vec::new(alloc),
        }
    }

    /// How many threads there are.
    pub fn len(&self) -> usize
        ensures { result ≡ length self.now.items }
    {
        self.rows.len()
    }

    /// The bytes of a thread, which is frozen against the same basis.
    ///
    /// # Errors
    /// Out of memory.
    pub fn packed(&self, thread: &Thread) -> Result<Packed, AllocError>
        ensures { IfOk result (λ packed. packed ≡ packed_of self.now.basis thread.now) }
    {
        let packed = Packed::of(self.alloc, &self.basis, thread)?;
        Ok(packed)
    }

    /// The thread of a number.
    ///
    /// # Errors
    /// Out of memory.
    pub fn thread(&self, n: usize) -> Result<Thread, AllocError>
        requires { n < length self.now.items }
        ensures found { IfOk result (λ thread. thread ≡ (slice_index_or self.now.items n idle_beside).0) }
        ensures form { IfOk result (λ thread. thread.form ≡ self.now.form) }
    {
        let row = &self.rows[n];
        let thread = row.thread(self.alloc, self.basis.memory())?;
        Ok(thread)
    }

    /// What answers the thread of a number.
    ///
    /// # Errors
    /// Out of memory.
    pub fn source(&self, n: usize) -> Result<Sources<'a>, AllocError>
        requires { n < length self.now.items }
        ensures { IfOk result (λ source. source ≡ (slice_index_or self.now.items n idle_beside).1) }
    {
        let row = &self.rows[n];
        let source = row.source().copy()?;
        Ok(source)
    }

    /// Whether the thread of a number is this one, which has these bytes, and is answered so.
    pub fn has(&self, n: usize, packed: &Packed, thread: &Thread, source: &Sources<'_>) -> bool
        requires { packed.now ≡ packed_of self.now.basis thread.now }
        ensures same { result ≡ true → slice_get self.now.items n ≡ Some (thread.now, source.now) }
        ensures other { result ≡ false → slice_get self.now.items n ≡ Some (thread.now, source.now) → ⊥ }
    {
        comes_back();
        self.basis.is_whole();
        bounded(thread);
        match self.rows.get(n) {
            Some(row) => row.has(packed, thread, source),
            None => false,
        }
    }

    /// Whether the thread of a number has these bytes, which are another thread's, and what answers that one, unless that one is over.
    pub fn looks_like(&self, n: usize, bytes: &[u8], thread: &Thread, source: &Sources<'_>) -> bool
        requires { bytes.now ≡ frozen self.now.basis thread.now [] }
        ensures like { result ≡ true → LooksLike self.now.basis self.now.items n (thread.now, source.now) }
        ensures other { result ≡ false → LooksLike self.now.basis self.now.items n (thread.now, source.now) → ⊥ }
    {
        match self.rows.get(n) {
            Some(row) => row.looks_like(bytes, thread, source),
            None => false,
        }
    }

    /// How many calls for the time were answered of the thread of a number.
    pub fn ticks(&self, n: usize) -> u64
        requires { n < length self.now.items }
        ensures { result ≡ (slice_index_or self.now.items n idle_beside).1.ticks }
    {
        let row = &self.rows[n];
        row.ticks()
    }

    /// Whether the thread of a number has ended and holds nothing.
    pub fn over(&self, n: usize) -> bool
        requires { n < length self.now.items }
        ensures { result ≡ is_over (slice_index_or self.now.items n idle_beside).0 }
    {
        let row = &self.rows[n];
        row.over()
    }

    /// The number of a thread that looks the same.
    pub fn look(&self, n: usize) -> usize
        requires { n < length self.now.items }
        ensures { slice_get self.now.looks n ≡ Some result }
    {
        self.rows[n].look()
    }

    /// What threads are frozen against.
    pub fn basis(&self) -> &Basis<'a>
        ensures { result.now ≡ self.now.basis }
    {
        &self.basis
    }

    /// What is so of each thread.
    pub fn each(&self)
        ensures looks { AreLooks self.now.basis self.now.items self.now.looks }
        ensures basis { IsBasis self.now.basis }
        ensures bounded { AllByRecursion (λ (x : ThreadState × Source). KeepsBounds x.0) self.now.items }
    {
        let _ = &self.rows;
        self.basis.is_whole();
    }

    /// Adds a thread with these bytes beside what answers it, and the number of one that looks the same.
    ///
    /// # Errors
    /// Out of memory; nothing is added.
    pub fn push(
        &mut self,
        thread: &Thread,
        packed: Packed,
        source: &Sources<'a>,
        look: usize,
    ) -> Result<(), AllocError>
        requires form { thread.now.form ≡ self.old.form }
        requires packed { packed ≡ packed_of self.old.basis thread.now }
        requires look { (look ≡ length self.old.items) ⊎ LooksLike self.old.basis self.old.items look (thread.now, source.now) }
        ensures ok { OnOk result (self.new ≡ record self.old { items = self.old.items ++ (thread.now, source.now) ∷ []; looks = self.old.looks ++ look ∷ [] }) }
        ensures err { OnErr result (self.new ≡ self.old) }
    {
        comes_back();
        self.basis.is_whole();
        bounded(thread);
        let row = Row::of(thread, packed, source, look)?;
        put(&mut self.rows, row)
    }
}
