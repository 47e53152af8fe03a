//! Outcomes are printed as they are found.

ghost use Rattle.std.specs.Prelude.{◌≡◌, ◌⊎◌, ◌++◌, ℕ, List, false, true, ◌<◌, ◌≤◌, None, Some, length, slice_get, IfErr, OnOk};
ghost use Rattle.std.specs.Io.KnownBytes.{Appends};
ghost use Rattle.ir_files.specs.Writers.{writer_of};
ghost use Rattle.ir_state_store.specs.Nodes.{SourcedFlat};
ghost use Rattle.ir_outcomes.specs.Exploring.{ExploringGoesOn, IsExploring};
ghost use Rattle.ir_stream.specs.Answers.{AppendsPrefix};
ghost use Rattle.ir_thread.specs.State.{IsAllowed};
ghost use Rattle.ir_explore.specs.Printed.{HasPrinted, EndsEarly};
ghost use Rattle.ir_explore.specs.Texts.{AreTexts, objects_in, objects_of};
ghost use Rattle.ir_explore.specs.declared.fault.ExploreFault.TheVariants.{NoMem, Write};

use crate::fault::ExploreFault;
use crate::started::Started;
use crate::texts::outcomes_text;
use ir_outcomes::Exploring;
use ir_search::Observer;
use ir_stream::{Sink, write_all};
use std::alloc::Global;

// Prints the outcomes from the one at a place on.
fn print_from<O: Sink>(
    alloc: Global,
    started: Started<'_>,
    exploring: &Exploring<'_>,
    from: usize,
    out: &mut O,
) -> Result<(), ExploreFault>
    requires is { IsExploring exploring.now }
    requires objects { (v : ℕ) (s : SourcedFlat) → slice_get exploring.now.states.graph.flats.items v ≡ Some s → length s.flat.objects ≡ length started.first.now }
    requires from { from ≤ length exploring.now.list.outcomes.items }
    requires works { O.broken out.old ≡ false }
    ensures printed { OnOk result
        ((before : List ℕ) → HasPrinted (objects_in started.entry) exploring.now from before
        → (text : List ℕ)
        × HasPrinted (objects_in started.entry) exploring.now (length exploring.now.list.outcomes.items) (before ++ text)
        × Appends (O.written out.old) (O.written out.new) text) }
    ensures works { OnOk result (O.broken out.new ≡ false) }
    ensures failed { IfErr result (λ e. ((e ≡ NoMem) × (out.new ≡ out.old)) ⊎ ((e ≡ Write) × (O.broken out.new ≡ true)
        × ((before : List ℕ) → HasPrinted (objects_in started.entry) exploring.now from before
        → (text : List ℕ)
        × HasPrinted (objects_in started.entry) exploring.now (length exploring.now.list.outcomes.items) (before ++ text)
        × AppendsPrefix (O.written out.old) (O.written out.new) text))) }
{
    let outcomes = exploring.list.outcomes.as_slice();
    let flats = &exploring.states.graph.flats;
    let text = outcomes_text(alloc, started, flats, outcomes, from, outcomes.len())?;
    write_all(out, text.as_slice())?;
    Ok(())
}

/// Goes over all levels that are wanted, and prints the outcomes of each as they are found. The observer is told how far the search is.
///
/// # Errors
/// Out of memory, or the writer failed. The lines of the outcomes before are printed, or a part of those of all.
pub fn print_levels<W: Observer, O: Sink>(
    alloc: Global,
    started: Started<'_>,
    exploring: &mut Exploring<'_>,
    observer: &W,
    out: &mut O,
) -> Result<(), ExploreFault>
    requires allowed { IsAllowed exploring.old.states.graph.setup.profile exploring.old.states.graph.setup.guest }
    requires is { IsExploring exploring.old }
    requires none { length exploring.old.list.outcomes.items ≡ 0 }
    requires started { objects_in started ≡ objects_of exploring.old.states.graph.setup.guest }
    requires works { O.broken out.old ≡ false }
    ensures kept { ExploringGoesOn exploring.old exploring.new }
    // Once all are gone over
    ensures over { OnOk result
        (exploring.new.stop ≡ None
        → (exploring.new.states.search.level.until ≤ exploring.new.states.search.level.first)
        ⊎ (exploring.new.most < exploring.new.states.search.level.number)) }
    ensures printed { OnOk result
        ((text : List ℕ) × HasPrinted (objects_in started.entry) exploring.new (length exploring.new.list.outcomes.items) text
        × Appends (O.written out.old) (O.written out.new) text) }
    ensures works { OnOk result (O.broken out.new ≡ false) }
    // If not
    ensures failed { IfErr result (λ e. EndsEarly e exploring.old.states.graph.setup (writer_of (O.written out.old) (O.written out.new) (O.broken out.new))) }
{
    'levels: while exploring.goes_on() {
        let printed = exploring.list.outcomes.len();
        exploring.go_over(observer);
        print_from(alloc, started, exploring, printed, out)?;
    }
    Ok(())
}
