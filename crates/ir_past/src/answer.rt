//! An answer, and the exit status that goes with it.

ghost use Rattle.std.specs.Prelude.{◌≡◌, OnOk, IfOk, IfErr, false};
ghost use Rattle.std.specs.String.{string_bytes};
ghost use Rattle.std.specs.Io.KnownBytes.{Appends};
ghost use Rattle.ir_files.specs.Writers.{writer_of};
ghost use Rattle.ir_past.specs.Answers.{Stops};

use crate::past_err::PastErr;
use ir_files::ExitStatus;
use ir_stream::{Sink, write_all};
use std::alloc::{AllocError, Global};

/// What is written, and the exit status.
#[derive(Drop)]
pub struct Answer {
    /// The exit status.
    pub status: ExitStatus,
    /// The bytes that are written.
    pub text: Vec<u8>,
}

/// The answer that is a line beside a status.
///
/// # Errors
/// Out of memory.
pub fn line_answer(alloc: Global, answered: ExitStatus, line: &String) -> Result<Answer, AllocError>
    ensures { IfOk result (λ a. (a.status ≡ answered) × (a.text.items ≡ string_bytes line.now)) }
{
    let text = Vec::from_slice(alloc, line.as_bytes())?;
    Ok(Answer {
        status: answered,
        text,
    })
}

/// Writes an answer; its exit status.
///
/// # Errors
/// The writer failed; then a prefix was written.
pub fn put_answer<O: Sink>(answer: &Answer, out: &mut O) -> Result<ExitStatus, PastErr>
    requires { O.broken out.old ≡ false }
    ensures status { IfOk result (λ answered. answered ≡ (answer.now).status) }
    ensures ok { OnOk result (Appends (O.written out.old) (O.written out.new) (answer.now).text.items) }
    ensures works { OnOk result (O.broken out.new ≡ false) }
    ensures fails { IfErr result (λ e. Stops e (writer_of (O.written out.old) (O.written out.new) (O.broken out.new)) (answer.now).text.items) }
{
    write_all(out, &answer.text)?;
    Ok(answer.status)
}

/// Writes bytes.
///
/// # Errors
/// The writer failed; then a prefix of them was written.
pub fn put_bytes<O: Sink>(text: &[u8], out: &mut O) -> Result<(), PastErr>
    requires { O.broken out.old ≡ false }
    ensures ok { OnOk result (Appends (O.written out.old) (O.written out.new) text.now) }
    ensures works { OnOk result (O.broken out.new ≡ false) }
    ensures fails { IfErr result (λ e. Stops e (writer_of (O.written out.old) (O.written out.new) (O.broken out.new)) text.now) }
{
    write_all(out, text)?;
    Ok(())
}
