//! What is asked about the events of a run, and its answer.

ghost use Rattle.std.specs.Prelude.{IfOk};
ghost use Rattle.ir_past.specs.Replies.{IsDoneWith};
ghost use Rattle.ir_listing.specs.Events.{AreEventLines};

use ir_events::{events_text, pcs};
use ir_files::ExitStatus;
use ir_fit::Fitted;
use ir_opened::RunQuestion;
use ir_past::{Printed, put_bytes};
use ir_stream::Sink;
use ir_symbols::SymbolTable;
use std::alloc::{AllocError, Global};

// The lines of a fitted trace's events.
fn fitted_lines(
    alloc: Global,
    fitted: &Fitted,
    symbols: &SymbolTable,
) -> Result<Vec<u8>, AllocError>
    ensures { IfOk result (λ text. AreEventLines symbols.now fitted.now text.items) }
{
    let pcs = pcs(alloc, fitted)?;
    events_text(alloc, fitted, &pcs, symbols)
}

/// The events of a run: it is answered by a line for each, with its thread and number, the step that logged it, the pc before that step, the name of
/// the pc if these symbols give it any, and what was logged. Nothing is written before all is judged.
#[derive(Clone, Copy)]
pub struct EventsQuestion<'a> {
    /// The names of addresses.
    pub symbols: &'a SymbolTable,
}

impl<'a> RunQuestion for EventsQuestion<'a> {
    ghost is_answer = { λ asked f. IsDoneWith (AreEventLines asked.symbols.now f) };

    ghost is_absent = { λ _ _ _. ⊥ };

    fn print<O: Sink>(&self, alloc: Global, fitted: &Fitted, out: &mut O) -> Printed {
        let text = fitted_lines(alloc, fitted, self.symbols)?;
        put_bytes(text.as_slice(), out)?;
        Ok(ExitStatus::Done)
    }
}
