//! The lines of all outcomes.

ghost use Rattle.std.specs.Prelude.{◌≡◌, ℕ, ◌<◌, ◌≤◌, ◌++◌, List, length, Some, slice_get, IfOk};
ghost use Rattle.std.specs.String.{string_bytes};
ghost use Rattle.ir_state_store.specs.Nodes.{SourcedFlat};
ghost use Rattle.ir_outcomes.specs.declared.shown.Shown.{Shown};
ghost use Rattle.ir_explore.specs.Texts.{AreTexts, IsHangText, end_line, objects_in};

use crate::lines::{clock_text, counts_text, ended_text, hang_line, hangs_text, last_line};
use crate::outcome::outcome_text;
use crate::started::Started;
use crate::states::state_of;
use ir_order::list_of_items;
use ir_outcomes::Shown;
use ir_search::Ended;
use ir_state_store::Store;
use std::alloc::{AllocError, Global};

/// The lines of these outcomes from the one at a place on, up to another.
pub fn outcomes_text(
    alloc: Global,
    started: Started<'_>,
    flats: &Store<'_>,
    outcomes: &[Shown],
    from: usize,
    until: usize,
) -> Result<Vec<u8>, AllocError>
    requires order { from ≤ until }
    requires until { until ≤ length outcomes.now }
    requires objects { (v : ℕ) (s : SourcedFlat) → slice_get flats.now.items v ≡ Some s → length s.flat.objects ≡ length started.first.now }
    requires nodes { (i : ℕ) (x : Shown) → slice_get outcomes.now i ≡ Some x → x.node < length flats.now.items }
    ensures { IfOk result
        (λ text. (before : List ℕ) → AreTexts (objects_in started.entry) flats.now.items outcomes.now from before
        → AreTexts (objects_in started.entry) flats.now.items outcomes.now until (before ++ text.items)) }
{
    let mut text = Vec::new(alloc);
    for i in from..until {
        let shown = &outcomes[i];
        let state = state_of(flats, shown)?;
        let own = outcome_text(alloc, started, &state.flat, i + 1, shown)?;
        text.extend_from_slice(own.as_slice())?;
    }
    Ok(text)
}

/// The line of a hang, if one is known.
pub fn hang_text(alloc: Global, hang: &Option<Shown>) -> Result<String, AllocError>
    ensures { IfOk result (λ text. IsHangText hang.now (string_bytes text)) }
{
    match hang {
        None => Ok(String::new(alloc)),
        Some(shown) => {
            let list = list_of_items(alloc, shown.turns.as_slice())?;
            hang_line(alloc, shown.level, list.as_str())
        }
    }
}

/// How a search ended.
#[derive(Clone, Copy)]
pub struct Ending {
    /// How it ended.
    pub ended: Ended,
    /// How many levels it has gone over.
    pub levels: usize,
    /// How many outcomes there are.
    pub outcomes: usize,
    /// How many states.
    pub states: usize,
    /// How many of them can't be brought to an end.
    pub hangs: usize,
    /// Whether some run of the guest answers a call for the time.
    pub timed: bool,
}

/// The last line.
pub fn end_line(alloc: Global, ending: Ending) -> Result<String, AllocError>
    ensures { IfOk result (λ s. string_bytes s ≡ end_line ending.ended ending.levels ending.outcomes ending.states ending.hangs ending.timed) }
{
    let ended = ended_text(alloc, ending.ended, ending.levels)?;
    let counts = counts_text(alloc, ending.outcomes, ending.states)?;
    let hangs = hangs_text(alloc, ending.ended, ending.hangs)?;
    last_line(
        alloc,
        ended.as_str(),
        counts.as_str(),
        hangs.as_str(),
        clock_text(ending.timed),
    )
}
