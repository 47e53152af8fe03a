//! `ir stale`: the bytes of a trace in, the lines of its stale writes out.

ghost use Rattle.std.specs.Prelude.{◌≡◌, OnOk, IfErr, false};
ghost use Rattle.std.specs.Io.KnownBytes.{Appends};
ghost use Rattle.ir_files.specs.Writers.{writer_of};
ghost use Rattle.ir_past.specs.Answers.{Stops};
ghost use Rattle.ir_past.specs.Lines.{row_lines, stale_text, IsStaleAnswer};
ghost use Rattle.ir_past.specs.Replies.{IsDoneWith};

use crate::ask_err::Printed;
use crate::asking::TraceQuestion;
use crate::counts::write_count;
use crate::lines::{count_line, row_line};
use crate::past_err::PastErr;
use crate::stale::stale_writes;
use crate::stale_write::StaleWrite;
use ir_files::ExitStatus;
use ir_stream::{Sink, write_all};
use ir_trace::Trace;
use std::alloc::Global;

// Writes the line of each row.
fn put_rows<O: Sink>(alloc: Global, rows: &[StaleWrite], out: &mut O) -> Result<(), PastErr>
    requires { O.broken out.old ≡ false }
    ensures ok { OnOk result (Appends (O.written out.old) (O.written out.new) (row_lines rows.now)) }
    ensures works { OnOk result (O.broken out.new ≡ false) }
    ensures fails { IfErr result (λ e. Stops e (writer_of (O.written out.old) (O.written out.new) (O.broken out.new)) (row_lines rows.now)) }
{
    for row in rows {
        let line = row_line(alloc, row)?;
        write_all(out, line.as_bytes())?;
    }
    Ok(())
}

// Writes how many there are, and the line of each.
fn put_stale<O: Sink>(
    alloc: Global,
    writes: usize,
    rows: &[StaleWrite],
    out: &mut O,
) -> Result<(), PastErr>
    requires { O.broken out.old ≡ false }
    ensures ok { OnOk result (Appends (O.written out.old) (O.written out.new) (stale_text writes rows.now)) }
    ensures works { OnOk result (O.broken out.new ≡ false) }
    ensures fails { IfErr result (λ e. Stops e (writer_of (O.written out.old) (O.written out.new) (O.broken out.new)) (stale_text writes rows.now)) }
{
    let first = count_line(alloc, rows.len(), writes)?;
    write_all(out, first.as_bytes())?;
    put_rows(alloc, rows, out)
}

/// Which writes of a trace rest on a read that was written over: it is answered by how many there are, of how many write entries, and a line for
/// each.
#[derive(Clone, Copy, Debug, PartialEq, Eq)]
pub struct StaleQuestion;

impl TraceQuestion for StaleQuestion {
    ghost is_answer = { λ _ r. IsDoneWith (IsStaleAnswer r) };

    ghost is_absent = { λ _ _ _. ⊥ };

    fn print<O: Sink>(&self, alloc: Global, trace: &Trace, out: &mut O) -> Printed {
        let rows = stale_writes(alloc, trace)?;
        put_stale(alloc, write_count(trace), rows.as_slice(), out)?;
        Ok(ExitStatus::Done)
    }
}
