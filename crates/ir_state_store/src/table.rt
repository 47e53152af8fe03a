//! Threads beside what answers them, by their numbers, each of which is kept once.

ghost use Rattle.std.specs.Prelude.{◌≡◌, ◌≢◌, ◌⊎◌, ◌<◌, ℕ, List, [], ◌∷◌, length, true, false, Some, None, slice_get, slice_set, IfOk, IfSome};
ghost use Rattle.std.specs.List.{slice_index_or, AllByRecursion};
ghost use Rattle.ir_thread_bytes.specs.Basis.{Basis, IsBasis};
ghost use Rattle.ir_thread_bytes.specs.Frozen.{frozen, is_over};
ghost use Rattle.ir_thread_bytes.specs.Twins.{KeepsBounds};
ghost use Rattle.ir_state_store.specs.Nodes.{MomentsLookSame};
ghost use Rattle.ir_state_store.specs.Hashes.{IsFoundBy, KeepsFound};
ghost use Rattle.ir_state_store.specs.Hashes as hashes;
ghost use Rattle.ir_state_store.specs.Rows.{packed_of};
ghost use Rattle.ir_state_store.specs.Table.{HaveForm, idle_beside, threads_at, sources_at, all_over, AreIn, HaveTicks, HaveNoTicks};
ghost use Rattle.ir_state_store.specs.Table.{KeepsNumbers, LooksLike, AreLike, AreOnce, HaveOneLook, StandsForNode};
ghost use Rattle.ir_state_store.specs.Table as table;
ghost use Rattle.ir_world.specs.Sources.{Source};
ghost use Rattle.ir_thread.specs.State.{ThreadState};

use crate::hash::{after_bytes, after_number, empty_hash};
use crate::index::{Index, MOST_STEPS};
use crate::number::short;
use crate::packed::Packed;
use crate::rows::Rows;
use crate::sourced::SourcedThread;
use ir_image::ImageForm;
use ir_thread::Thread;
use ir_thread_bytes::{Basis, over, tells_apart};
use ir_world::Sources;
use std::alloc::{AllocError, Global};
use std::marker::Model;

/// Threads of one image beside what answers them, by their numbers.
#[derive(Drop)]
pub struct Table<'a> {
    alloc: Global,
    rows: Rows<'a>,
    index: Index,
    seen: Index,
}

impl<'a> Model for Table<'a> {
    ghost Value = { table.Table };

    ghost view = { λ t. t.rows };

    ghost invariant = { λ t. AreOnce t.index t.rows × HaveOneLook t.seen t.rows };
}

fn same_number(first: usize, second: usize) -> bool
    ensures same { result ≡ true → first ≡ second }
    ensures other { result ≡ false → first ≢ second }
{
    first == second
}

// The hash, after what answers a thread too.
fn after_source(hash: u64, source: &Sources<'_>) -> u64
    ensures { result ≡ hashes.after_numbers hash (table.mark_of_spot source.now) }
{
    let [ticks, random, rest] = source.mark();
    let hash = after_number(hash, ticks);
    let hash = after_number(hash, random);
    after_number(hash, rest)
}

// The hash of what can be seen of a thread: of its bytes, and of what answers it, unless it is over.
fn seen_hash(bytes: &[u8], thread: &Thread, source: &Sources<'_>) -> u64
    ensures { (basis : Basis) → bytes.now ≡ frozen basis thread.now [] → result ≡ table.seen_hash basis (thread.now, source.now) }
{
    let hash = after_bytes(empty_hash(), bytes);
    if over(thread) {
        hash
    } else {
        after_source(hash, source)
    }
}

// The hash of a thread beside what answers it, where what can be seen of it has this one.
fn whole_hash(seen: u64, thread: &Thread, source: &Sources<'_>) -> u64
    ensures { (basis : Basis) → seen ≡ table.seen_hash basis (thread.now, source.now) → result ≡ table.whole_hash basis (thread.now, source.now) }
{
    let hash = after_number(seen, thread.number() as u64);
    let hash = after_number(hash, thread.steps());
    let hash = after_number(hash, thread.events() as u64);
    after_source(hash, source)
}

// The number of a thread with these bytes beside what answers it, which have this hash.
fn find(
    rows: &Rows<'_>,
    index: &Index,
    hash: u64,
    packed: &Packed,
    thread: &Thread,
    source: &Sources<'_>,
) -> Option<usize>
    requires packed { packed.now ≡ packed_of rows.now.basis thread.now }
    requires found { (n : ℕ) → slice_get rows.now.items n ≡ Some (thread.now, source.now) → IsFoundBy index.now hash n }
    ensures found { IfSome result (λ n. slice_get rows.now.items n ≡ Some (thread.now, source.now)) }
    ensures none { result ≡ None → (n : ℕ) → slice_get rows.now.items n ≡ Some (thread.now, source.now) → ⊥ }
{
    for steps in 0..MOST_STEPS {
        let n = index.at(hash, steps)?;
        if rows.has(n, packed, thread, source) {
            return Some(n);
        }
    }
    None
}

// The number of a thread that looks like this one, where this is the hash of what is seen of it.
fn look_for(
    rows: &Rows<'_>,
    seen: &Index,
    hash: u64,
    bytes: &[u8],
    thread: &Thread,
    source: &Sources<'_>,
) -> Option<usize>
    requires bytes { bytes.now ≡ frozen rows.now.basis thread.now [] }
    requires look { HaveOneLook seen.now rows.now }
    requires hash { hash ≡ table.seen_hash rows.now.basis (thread.now, source.now) }
    ensures like { IfSome result (λ m. LooksLike rows.now.basis rows.now.items m (thread.now, source.now)) }
    ensures none { result ≡ None → (n : ℕ) (x : ThreadState × Source) → slice_get rows.now.items n ≡ Some x → AreLike rows.now.basis x (thread.now, source.now) → ⊥ }
{
    rows.each();
    for steps in 0..MOST_STEPS {
        let m = seen.at(hash, steps)?;
        if rows.looks_like(m, bytes, thread, source) {
            return Some(m);
        }
    }
    None
}

// The number that stands for a thread: that of a thread that looks the same, or else of the next one, which is noted.
fn look_of(
    rows: &Rows<'_>,
    seen: &mut Index,
    hash: u64,
    bytes: &[u8],
    thread: &Thread,
    source: &Sources<'_>,
) -> Result<usize, AllocError>
    requires bytes { bytes.now ≡ frozen rows.now.basis thread.now [] }
    requires look { HaveOneLook seen.old rows.now }
    requires hash { hash ≡ table.seen_hash rows.now.basis (thread.now, source.now) }
    ensures keeps { KeepsFound seen.old seen.new }
    ensures found { IfOk result (λ k. IsFoundBy seen.new hash k) }
    ensures like { IfOk result (λ k. (k ≡ length rows.now.items) ⊎ LooksLike rows.now.basis rows.now.items k (thread.now, source.now)) }
    ensures one { IfOk result (λ k. StandsForNode rows.now (thread.now, source.now) k) }
{
    rows.each();
    if let Some(m) = look_for(rows, seen, hash, bytes, thread, source) {
        return Ok(rows.look(m));
    }
    let n = rows.len();
    seen.note(hash, n)?;
    Ok(n)
}

impl<'a> Table<'a> {
    /// No threads, of an image of this form, to be frozen against this basis.
    pub fn new(alloc: Global, form: ImageForm, basis: Basis<'a>) -> Table<'a>
        ensures { result ≡ record { items = []; form = form; basis = basis.entry; looks = [] } }
    {
        Table {
            alloc,
            rows: Rows::new(alloc, form, basis),
            index: Index::new(alloc),
            seen: Index::new(alloc),
        }
    }

    // Adds a new thread with these bytes beside what answers it, and says its number.
    fn put(
        &mut self,
        whole: u64,
        seen: u64,
        packed: Packed,
        thread: &Thread,
        source: &Sources<'a>,
    ) -> Result<usize, AllocError>
        requires form { thread.now.form ≡ self.old.form }
        requires packed { packed ≡ packed_of self.old.basis thread.now }
        requires whole { whole ≡ table.whole_hash self.old.basis (thread.now, source.now) }
        requires seen { seen ≡ table.seen_hash self.old.basis (thread.now, source.now) }
        requires new { (n : ℕ) → slice_get self.old.items n ≡ Some (thread.now, source.now) → ⊥ }
        ensures keeps { KeepsNumbers self.old.items self.new.items }
        ensures looks { KeepsNumbers self.old.looks self.new.looks }
        ensures form { self.new.form ≡ self.old.form }
        ensures basis { self.new.basis ≡ self.old.basis }
        ensures found { IfOk result (λ n. slice_get self.new.items n ≡ Some (thread.now, source.now)) }
        ensures one { IfOk result (λ n. (m : ℕ) → slice_get self.new.items m ≡ Some (thread.now, source.now) → m ≡ n) }
    {
        let n = self.rows.len();
        let look = look_of(
            &self.rows,
            &mut self.seen,
            seen,
            packed.seen(),
            thread,
            source,
        )?;
        self.index.note(whole, n)?;
        self.rows.push(thread, packed, source, look)?;
        Ok(n)
    }

    /// The number of a thread beside what answers it, which is added if it is new.
    ///
    /// # Errors
    /// Out of memory.
    pub fn add(&mut self, thread: &Thread, source: &Sources<'a>) -> Result<usize, AllocError>
        requires { thread.now.form ≡ self.old.form }
        ensures keeps { KeepsNumbers self.old.items self.new.items }
        ensures looks { KeepsNumbers self.old.looks self.new.looks }
        ensures form { self.new.form ≡ self.old.form }
        ensures basis { self.new.basis ≡ self.old.basis }
        ensures found { IfOk result (λ n. slice_get self.new.items n ≡ Some (thread.now, source.now)) }
        ensures one { IfOk result (λ n. (m : ℕ) → slice_get self.new.items m ≡ Some (thread.now, source.now) → m ≡ n) }
    {
        let packed = self.rows.packed(thread)?;
        let seen = seen_hash(packed.seen(), thread, source);
        let whole = whole_hash(seen, thread, source);
        if let Some(n) = find(&self.rows, &self.index, whole, &packed, thread, source) {
            return Ok(n);
        }
        self.put(whole, seen, packed, thread, source)
    }

    /// The numbers of these threads beside what answers them, of which the new ones are added.
    ///
    /// # Errors
    /// Out of memory.
    pub fn add_all(
        &mut self,
        threads: &[Thread],
        sources: &[Sources<'a>],
    ) -> Result<Vec<u32>, AllocError>
        requires form { HaveForm self.old.form threads.now }
        requires each { length sources.now ≡ length threads.now }
        ensures keeps { KeepsNumbers self.old.items self.new.items }
        ensures looks { KeepsNumbers self.old.looks self.new.looks }
        ensures form { self.new.form ≡ self.old.form }
        ensures basis { self.new.basis ≡ self.old.basis }
        ensures within { IfOk result (λ numbers. AreIn self.new.items numbers.items) }
        ensures threads { IfOk result (λ numbers. threads_at self.new.items numbers.items ≡ threads.now) }
        ensures sources { IfOk result (λ numbers. sources_at self.new.items numbers.items ≡ sources.now) }
    {
        let mut numbers = Vec::with_capacity(self.alloc, threads.len())?;
        for t in 0..threads.len() {
            let n = self.add(&threads[t], &sources[t])?;
            let number = short(n)?;
            numbers.push(number)?;
        }
        Ok(numbers)
    }

    /// These numbers, with another thread beside what answers it at one place, which is added if it is new.
    ///
    /// # Errors
    /// Out of memory.
    pub fn add_at(
        &mut self,
        numbers: &[u32],
        t: usize,
        thread: &Thread,
        source: &Sources<'a>,
    ) -> Result<Vec<u32>, AllocError>
        requires form { thread.now.form ≡ self.old.form }
        requires numbers { AreIn self.old.items numbers.now }
        requires place { t < length numbers.now }
        ensures keeps { KeepsNumbers self.old.items self.new.items }
        ensures looks { KeepsNumbers self.old.looks self.new.looks }
        ensures form { self.new.form ≡ self.old.form }
        ensures basis { self.new.basis ≡ self.old.basis }
        ensures within { IfOk result (λ changed. AreIn self.new.items changed.items) }
        ensures threads { IfOk result (λ changed. threads_at self.new.items changed.items ≡ slice_set (threads_at self.old.items numbers.now) t thread.now) }
        ensures sources { IfOk result (λ changed. sources_at self.new.items changed.items ≡ slice_set (sources_at self.old.items numbers.now) t source.now) }
    {
        let n = self.add(thread, source)?;
        let number = short(n)?;
        let mut changed = Vec::from_slice(self.alloc, numbers)?;
        changed[t] = number;
        Ok(changed)
    }

    /// The thread of a number, beside what answers it.
    ///
    /// # Errors
    /// Out of memory.
    pub fn thread(&self, n: usize) -> Result<SourcedThread<'a>, AllocError>
        requires { n < length self.now.items }
        ensures found { IfOk result (λ thread. thread ≡ slice_index_or self.now.items n idle_beside) }
        ensures form { IfOk result (λ thread. thread.0.form ≡ self.now.form) }
    {
        let thread = self.rows.thread(n)?;
        let source = self.rows.source(n)?;
        Ok(SourcedThread { thread, source })
    }

    /// Whether the thread of a number has ended and holds nothing.
    pub fn over(&self, n: usize) -> bool
        requires { n < length self.now.items }
        ensures { result ≡ is_over (slice_index_or self.now.items n idle_beside).0 }
    {
        self.rows.over(n)
    }

    /// Whether some call for the time was answered of a thread of these numbers.
    pub fn is_timed(&self, numbers: &[u32]) -> bool
        requires { AreIn self.now.items numbers.now }
        ensures timed { result ≡ true → HaveTicks (sources_at self.now.items numbers.now) }
        ensures untimed { result ≡ false → HaveNoTicks (sources_at self.now.items numbers.now) }
    {
        for t in 0..numbers.len() {
            if self.rows.ticks(numbers[t] as usize) > 0 {
                return true;
            }
        }
        false
    }

    /// Whether all threads of these numbers have.
    pub fn all_over(&self, numbers: &[u32]) -> bool
        requires { AreIn self.now.items numbers.now }
        ensures { result ≡ all_over (threads_at self.now.items numbers.now) }
    {
        for n in numbers {
            if !self.over(*n as usize) {
                return false;
            }
        }
        true
    }

    /// The number that stands for a thread and for those that look the same.
    pub fn look(&self, n: usize) -> usize
        requires { n < length self.now.items }
        ensures { slice_get self.now.looks n ≡ Some result }
    {
        self.rows.look(n)
    }

    /// What threads are frozen against.
    pub fn basis(&self) -> &Basis<'a>
        ensures { result.now ≡ self.now.basis }
    {
        self.rows.basis()
    }

    /// What is so of each thread.
    pub fn each(&self)
        ensures one { (seen : List (ℕ × ℕ)) × HaveOneLook seen self.now }
        ensures basis { IsBasis self.now.basis }
        ensures bounded { AllByRecursion (λ (x : ThreadState × Source). KeepsBounds x.0) self.now.items }
    {
        self.rows.each();
    }

    /// Whether one number stands for two threads: they look the same.
    pub fn same_look(&self, m: usize, n: usize) -> bool
        requires first { m < length self.now.items }
        requires second { n < length self.now.items }
        ensures same { result ≡ true → (x y : ThreadState × Source) → slice_get self.now.items m ≡ Some x → slice_get self.now.items n ≡ Some y → MomentsLookSame self.now.basis.code x y }
        ensures other { result ≡ false → slice_index_or self.now.looks m 0 ≢ slice_index_or self.now.looks n 0 }
    {
        tells_apart();
        self.rows.each();
        same_number(self.rows.look(m), self.rows.look(n))
    }

    /// The threads of these numbers.
    ///
    /// # Errors
    /// Out of memory.
    pub fn threads(&self, numbers: &[u32]) -> Result<Vec<Thread>, AllocError>
        requires { AreIn self.now.items numbers.now }
        ensures value { IfOk result (λ threads. threads.items ≡ threads_at self.now.items numbers.now) }
        ensures form { IfOk result (λ threads. HaveForm self.now.form threads.items) }
    {
        let mut threads = Vec::with_capacity(self.alloc, numbers.len())?;
        for n in numbers {
            let thread = self.rows.thread(*n as usize)?;
            threads.push(thread)?;
        }
        Ok(threads)
    }

    /// What answers the threads of these numbers.
    ///
    /// # Errors
    /// Out of memory.
    pub fn sources(&self, numbers: &[u32]) -> Result<Vec<Sources<'a>>, AllocError>
        requires { AreIn self.now.items numbers.now }
        ensures { IfOk result (λ sources. sources.items ≡ sources_at self.now.items numbers.now) }
    {
        let mut sources = Vec::with_capacity(self.alloc, numbers.len())?;
        for n in numbers {
            let source = self.rows.source(*n as usize)?;
            sources.push(source)?;
        }
        Ok(sources)
    }
}
