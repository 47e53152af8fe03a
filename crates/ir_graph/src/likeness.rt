//! States that no thread can tell apart.

ghost use Rattle.std.specs.Prelude.{◌≡◌, ℕ, ◌<◌, List, true, false, length, IfOk, IsTrue, MatchOption, slice_index};
ghost use Rattle.std.specs.List.{slice_index_or};
ghost use Rattle.ir_object.specs.Empty.{empty};
ghost use Rattle.ir_thread_bytes.specs.Twins.{AreTwins};
ghost use Rattle.ir_graph.specs.Plain.{LooksAlike};
ghost use Rattle.ir_graph.specs.Nodes.{LookAlike};
ghost use Rattle.ir_likeness.specs.Seen.{Same, view};

use ir_object::Object;
use ir_state_store::{SourcedFlat, bounded};
use ir_thread::Thread;
use ir_thread_bytes::{Basis, freeze, over, tells_apart};
use ir_world::Sources;
use std::alloc::{AllocError, Global};

// Whether two moments of a thread look the same, beside what answers it: as bytes, and what is left of the sources is the same, unless the
// thread is over.
fn same_thread(
    alloc: Global,
    basis: &Basis<'_>,
    first: &Thread,
    second: &Thread,
    one: &Sources<'_>,
    other: &Sources<'_>,
) -> Result<bool, AllocError>
    requires { AreTwins first.now second.now }
    ensures { IfOk result (λ same. same ≡ true → Same basis.now.code (view first.now, one.now) (view second.now, other.now)) }
{
    if !over(first) && !one.same(other) {
        return Ok(false);
    }
    bounded(first);
    bounded(second);
    tells_apart();
    basis.is_whole();
    let bytes = freeze(alloc, basis, first, &[])?;
    let others = freeze(alloc, basis, second, &[])?;
    Ok(bytes.as_slice() == others.as_slice())
}

/// Whether the objects have the same words.
pub fn same_words(first: &[Object], second: &[Object]) -> bool
    requires { length second.now ≡ length first.now }
    ensures same { result ≡ true → (o : ℕ) → (slice_index_or first.now o empty).words ≡ (slice_index_or second.now o empty).words }
    ensures other { result ≡ false → ((o : ℕ) → (slice_index_or first.now o empty).words ≡ (slice_index_or second.now o empty).words) → ⊥ }
{
    for o in 0..first.len() {
        if first[o].contents() != second[o].contents() {
            return false;
        }
    }
    true
}

/// Whether two moments of a guest look the same to every thread; the basis is of their code.
///
/// # Errors
/// Out of memory.
pub fn same_state(
    alloc: Global,
    basis: &Basis<'_>,
    first: &SourcedFlat<'_>,
    second: &SourcedFlat<'_>,
) -> Result<bool, AllocError>
    requires code { first.now.flat.code ≡ basis.now.code }
    requires like { LooksAlike first.now.flat second.now.flat }
    requires sources { length first.now.sources ≡ length first.now.flat.threads }
    requires others { length second.now.sources ≡ length second.now.flat.threads }
    ensures { IfOk result (λ same. same ≡ true → LookAlike first.now second.now) }
{
    if !same_words(first.flat.objects(), second.flat.objects()) {
        return Ok(false);
    }
    for t in 0..first.flat.threads().len() {
        let one = &first.flat.threads()[t];
        let other = &second.flat.threads()[t];
        if !same_thread(
            alloc,
            basis,
            one,
            other,
            &first.sources[t],
            &second.sources[t],
        )? {
            return Ok(false);
        }
    }
    Ok(true)
}
