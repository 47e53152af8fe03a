//! `ir stale` with an image: which writes of a run rest on stale reads.

ghost use Rattle.std.specs.Prelude.{IfOk};
ghost use Rattle.ir_past.specs.Replies.{IsDoneWith};
ghost use Rattle.ir_stale_run.specs.Lines.{IsRestsAnswer};

use crate::lines::rests_text;
use crate::walk::rests;
use ir_files::ExitStatus;
use ir_fit::Fitted;
use ir_opened::RunQuestion;
use ir_past::{Printed, put_bytes, stale_writes};
use ir_stream::Sink;
use std::alloc::{AllocError, Global};

// The lines of a fitted trace's writes that rest on stale reads.
fn fitted_lines(alloc: Global, fitted: &Fitted) -> Result<Vec<u8>, AllocError>
    ensures { IfOk result (λ text. IsRestsAnswer fitted.now text.items) }
{
    fitted.known();
    let rows = stale_writes(alloc, fitted.trace())?;
    let found = rests(alloc, fitted, &rows)?;
    rests_text(alloc, fitted, &rows, &found)
}

/// Which stale writes of a run rest on what was read: it is answered by how many there are, of how many write entries, and a line for each.
/// Nothing is written before all is judged.
#[derive(Clone, Copy, Debug, PartialEq, Eq)]
pub struct RestsQuestion;

impl RunQuestion for RestsQuestion {
    ghost is_answer = { λ _ f. IsDoneWith (IsRestsAnswer f) };

    ghost is_absent = { λ _ _ _. ⊥ };

    fn print<O: Sink>(&self, alloc: Global, fitted: &Fitted, out: &mut O) -> Printed {
        let text = fitted_lines(alloc, fitted)?;
        put_bytes(text.as_slice(), out)?;
        Ok(ExitStatus::Done)
    }
}
