//! An answer is written.

ghost use Rattle.std.specs.Prelude.{◌≡◌, IfOk, IfErr, OnOk, false};
ghost use Rattle.std.specs.String.{string_bytes};
ghost use Rattle.ir_files.specs.Writers.{writer_of};
ghost use Rattle.ir_monitor.specs.Telling.{said_line, IsSaidOf, HasSaid, HasNotSaid};

use ir_fit::Fitted;
use ir_opened::RunQuestion;
use ir_past::{AskErr, PastErr, put_bytes};
use ir_stream::Sink;
use std::alloc::{AllocError, Global};

// Words as a line.
fn said_line(alloc: Global, words: &str) -> Result<String, AllocError>
    ensures { IfOk result (λ s. string_bytes s ≡ said_line words.now) }
{
    format!(in alloc; "{words}\n")
}

/// Writes words as a line.
///
/// # Errors
/// Memory ran out, and nothing was written; or the writer failed, and a prefix of the line was written.
pub fn say_line<O: Sink>(alloc: Global, words: &str, out: &mut O) -> Result<(), PastErr>
    requires { O.broken out.old ≡ false }
    ensures ok { OnOk result (HasSaid (λ text. text ≡ said_line words.now) (writer_of (O.written out.old) (O.written out.new) (O.broken out.new))) }
    ensures fails { IfErr result (λ e. HasNotSaid (λ text. text ≡ said_line words.now) e (writer_of (O.written out.old) (O.written out.new) (O.broken out.new))) }
{
    let line = said_line(alloc, words)?;
    put_bytes(line.as_bytes(), out)
}

/// Writes the answer to a question of a run, or the line of what the run doesn't have.
///
/// # Errors
/// Memory ran out or the writer failed, and a prefix of the answer was written.
pub fn say<Q: RunQuestion, O: Sink>(
    alloc: Global,
    fitted: &Fitted,
    question: &Q,
    out: &mut O,
) -> Result<(), PastErr>
    requires { O.broken out.old ≡ false }
    ensures ok { OnOk result (HasSaid (IsSaidOf (Q.is_answer question.now fitted.now) (Q.is_absent question.now fitted.now))
        (writer_of (O.written out.old) (O.written out.new) (O.broken out.new))) }
    ensures fails { IfErr result (λ e. HasNotSaid (IsSaidOf (Q.is_answer question.now fitted.now) (Q.is_absent question.now fitted.now)) e
        (writer_of (O.written out.old) (O.written out.new) (O.broken out.new))) }
{
    match question.print(alloc, fitted, out) {
        Ok(_) => Ok(()),
        Err(AskErr::Absent(what)) => say_line(alloc, what.words(), out),
        Err(AskErr::Unwritten(why)) => Err(why),
    }
}
