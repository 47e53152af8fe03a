//! The lines of a comparison.

ghost use Rattle.std.specs.Prelude.{◌≡◌, ◌<◌, ◌++◌, ℕ, Some, Ok, Err, length, slice_get, IfOk};
ghost use Rattle.std.specs.String.{string_bytes};
ghost use Rattle.ir_explore.specs.Texts.{objects_in, known_of};
ghost use Rattle.ir_outcomes.specs.declared.shown.Shown.{Shown};
ghost use Rattle.ir_state_store.specs.Nodes.{SourcedFlat};
ghost use Rattle.ir_within.specs.Within.{AreMarkedTexts, marked_count, searched_line};

use ir_explore::{Ending, Started, end_line, outcome_text, state_of};
use ir_outcomes::Explored;
use ir_search::{Ended, Stop};
use std::alloc::{AllocError, Global};

/// The lines of the outcomes that are outside.
///
/// # Errors
/// Out of memory.
pub fn marked_text(
    alloc: Global,
    started: Started<'_>,
    explored: &Explored<'_>,
    outside: &[bool],
) -> Result<Vec<u8>, AllocError>
    requires count { length outside.now ≡ length explored.now.outcomes.items }
    requires objects { (v : ℕ) (s : SourcedFlat) → slice_get explored.now.states.graph.flats.items v ≡ Some s → length s.flat.objects ≡ length started.first.now }
    requires nodes { (i : ℕ) (x : Shown) → slice_get explored.now.outcomes.items i ≡ Some x → x.node < length explored.now.states.graph.flats.items }
    ensures { IfOk result (λ text. AreMarkedTexts (objects_in started.entry) (known_of explored.now) outside.now (length explored.now.outcomes.items) text.items) }
{
    let flats = &explored.states.graph.flats;
    let outcomes = explored.outcomes.as_slice();
    let mut text = Vec::new(alloc);
    for i in 0..outcomes.len() {
        if outside[i] {
            let shown = &outcomes[i];
            let state = state_of(flats, shown)?;
            let own = outcome_text(alloc, started, &state.flat, i + 1, shown)?;
            text.extend_from_slice(own.as_slice())?;
        }
    }
    Ok(text)
}

/// How many are outside.
pub fn marked_count(outside: &[bool]) -> usize
    ensures { result ≡ marked_count outside.now }
{
    let mut count = 0;
    for is_outside in outside {
        if *is_outside {
            count += 1;
        }
    }
    count
}

/// The line that says how a search ended.
///
/// # Errors
/// Out of memory.
pub fn known_line(alloc: Global, explored: &Explored<'_>) -> Result<String, AllocError>
    ensures { IfOk result (λ s. string_bytes s ≡ searched_line (Ok (known_of explored.now))) }
{
    let ending = Ending {
        ended: explored.ended,
        levels: explored.levels,
        outcomes: explored.outcomes.len(),
        states: explored.states.graph.flats.len(),
        hangs: explored.hangs,
        timed: explored.states.graph.timed,
    };
    end_line(alloc, ending)
}

/// The line of a search that didn't begin.
///
/// # Errors
/// Out of memory.
pub fn stopped_line(alloc: Global, why: Stop) -> Result<String, AllocError>
    ensures { IfOk result (λ s. string_bytes s ≡ searched_line (Err why)) }
{
    let ending = Ending {
        ended: Ended::Stopped(why),
        levels: 0,
        outcomes: 0,
        states: 0,
        hangs: 0,
        timed: false,
    };
    end_line(alloc, ending)
}
