//! `ir who`: what is asked about versions of an object of a trace, and its answer: a line for each version, or what made, read and wrote over one.

ghost use Rattle.std.specs.Prelude.{IfOk, IfErr};
ghost use Rattle.std.specs.String.{string_bytes};
ghost use Rattle.ir_past.specs.Answers.{AreCoherent};
ghost use Rattle.ir_past.specs.Replies.{IsDoneWith, IsTextless};
ghost use Rattle.ir_who.specs.Lines.{IsNoVersion, IsObjectAnswer, IsVersionAnswer, IsWhoAnswer, LacksAsked};

use crate::question::Question;
use crate::texts::{object_text, version_text};
use crate::versions::versions_of;
use ir_files::ExitStatus;
use ir_past::{Absent, AskErr, Printed, TraceQuestion, makers_of, put_bytes, readers_of};
use ir_stream::Sink;
use ir_trace::Trace;
use std::alloc::{AllocError, Global};

// The lines of all versions of an object.
fn object_answer(alloc: Global, trace: &Trace, object: u8) -> Result<String, AllocError>
    requires { AreCoherent trace.now }
    ensures { IfOk result (λ s. IsObjectAnswer trace.now object (string_bytes s)) }
{
    let rows = versions_of(alloc, trace, object)?;
    object_text(alloc, object, &rows)
}

// The lines of one version of an object.
fn version_answer(alloc: Global, trace: &Trace, object: u8, version: u32) -> Result<String, AskErr>
    requires { AreCoherent trace.now }
    ensures ok { IfOk result (λ s. IsVersionAnswer trace.now object version (string_bytes s)) }
    ensures fails { IfErr result (IsTextless (IsNoVersion trace.now object version)) }
{
    let rows = versions_of(alloc, trace, object)?;
    let Some(row) = rows.get(version as usize) else {
        return Err(AskErr::Absent(Absent::Version));
    };
    let readers = readers_of(alloc, trace, object, version)?;
    let over = makers_of(alloc, trace)?.get(object, version);
    Ok(version_text(alloc, version as usize, row, &readers, &over)?)
}

// The lines that answer a question about a coherent trace.
fn answer(alloc: Global, trace: &Trace, asked: &Question) -> Result<String, AskErr>
    requires { AreCoherent trace.now }
    ensures ok { IfOk result (λ s. IsWhoAnswer asked.now trace.now (string_bytes s)) }
    ensures fails { IfErr result (IsTextless (LacksAsked asked.now trace.now)) }
{
    if asked.object >= trace.objects() as u32 {
        return Err(AskErr::Absent(Absent::Object));
    }
    let object = asked.object as u8;
    match asked.version {
        None => Ok(object_answer(alloc, trace, object)?),
        Some(version) => version_answer(alloc, trace, object, version),
    }
}

impl TraceQuestion for Question {
    ghost is_answer = { λ asked r. IsDoneWith (IsWhoAnswer asked r) };

    ghost is_absent = { LacksAsked };

    fn print<O: Sink>(&self, alloc: Global, trace: &Trace, out: &mut O) -> Printed {
        let text = answer(alloc, trace, self)?;
        put_bytes(text.as_bytes(), out)?;
        Ok(ExitStatus::Done)
    }
}
