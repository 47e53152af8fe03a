//! Whether a trace is coherent.

ghost use Rattle.std.specs.Prelude.{length, IfErr, OnOk};
ghost use Rattle.ir_trace.specs.Recorded.{trace_of};
ghost use Rattle.ir_runs.specs.Coherent.{IsCoherent};
ghost use Rattle.ir_fit.specs.Within.{BreaksBy};

use crate::fit_err::FitErr;
use crate::verdict::Verdict;
use ir_coherence::{Incoherence, first_incoherence};
use ir_trace::Trace;
use std::alloc::Global;

/// Whether a trace is coherent, which asks for three conditions. Each entry at a version after the first has the write
/// entry that made its version. No two write entries of an object are at one version. Each write entry names as many
/// readers as there are read entries of its version in the trace. Time and memory are those of
/// `ir_coherence::first_incoherence`.
///
/// # Errors
/// `FitErr::NoMem` if memory runs out; else `FitErr::Refused` with `Verdict::Incoherent`, which names the first
/// event that breaks coherence, by thread and then by place in its log, and its first cause.
pub fn coherent(alloc: Global, trace: &Trace) -> Result<(), FitErr>
    ensures coherent { OnOk result (IsCoherent (length trace.now.threads) (trace_of trace.now)) }
    ensures breaks { IfErr result (BreaksBy trace.now) }
{
    match first_incoherence(alloc, trace)? {
        None => Ok(()),
        Some(
            Incoherence {
                thread,
                event,
                cause,
            },
        ) => Err(FitErr::Refused(Verdict::Incoherent {
            thread,
            event,
            cause,
        })),
    }
}
