//! `ir who` with an image: what is asked about versions of an object of a run, and its answer, with each event's step and each maker's leave.

ghost use Rattle.std.specs.Prelude.{◌≡◌, ℕ, slice_get, Some, IfOk, IfErr};
ghost use Rattle.std.specs.String.{string_bytes};
ghost use Rattle.ir_past.specs.Replies.{IsDoneWith, IsTextless};
ghost use Rattle.ir_past.specs.declared.place.Place as place;
ghost use Rattle.ir_opened.specs.Paired.{ArePaired};
ghost use Rattle.ir_opened.specs.Positions.{IsInside};
ghost use Rattle.ir_who.specs.FitLines.{IsMadeAt, IsDated, IsFitObjectAnswer, IsFitVersionAnswer, IsFitWhoAnswer, LacksAskedIn};
ghost use Rattle.ir_who.specs.Lines.{IsNoVersion};
ghost use Rattle.ir_who.specs.declared.version.Version as version;

use crate::dated::Dated;
use crate::fit_lines::{dated_text, version_text};
use crate::question::Question;
use crate::version::Version;
use crate::versions::versions_of;
use ir_files::ExitStatus;
use ir_fit::Fitted;
use ir_opened::{RunQuestion, leave_of};
use ir_past::{Absent, AskErr, Place, Printed, makers_of, put_bytes, readers_of};
use ir_stream::Sink;
use std::alloc::{AllocError, Global};

// From which step on what an event made is there.
fn made_at(fitted: &Fitted, maker: &Option<Place>) -> Option<u64>
    requires { (p : place.Place) → maker.now ≡ Some p → IsInside fitted.now p.thread p.event }
    ensures { IsMadeAt fitted.now maker.now result }
{
    match maker {
        Some(place) => leave_of(fitted, *place),
        None => None,
    }
}

// A version, and from which step on it is there.
fn dated(fitted: &Fitted, row: &Version) -> Dated
    requires { (p : place.Place) → row.now.made_by ≡ Some p → IsInside fitted.now p.thread p.event }
    ensures { IsDated fitted.now row.now result }
{
    Dated {
        version: *row,
        step: made_at(fitted, &row.made_by),
    }
}

// Versions, and from which step on each is there.
fn all_dated(alloc: Global, fitted: &Fitted, rows: &[Version]) -> Result<Vec<Dated>, AllocError>
    requires { (k : ℕ) (x : version.Version) (p : place.Place) → slice_get rows.now k ≡ Some x → x.made_by ≡ Some p → IsInside fitted.now p.thread p.event }
    ensures { IfOk result (λ dated. ArePaired (IsDated fitted.now) rows.now dated.items) }
{
    let mut all = Vec::new(alloc);
    for row in rows {
        all.push(dated(fitted, row))?;
    }
    Ok(all)
}

// The lines of all versions of an object.
fn object_answer(alloc: Global, fitted: &Fitted, object: u8) -> Result<String, AllocError>
    ensures { IfOk result (λ s. IsFitObjectAnswer fitted.now object (string_bytes s)) }
{
    fitted.known();
    let rows = versions_of(alloc, fitted.trace(), object)?;
    let dated = all_dated(alloc, fitted, &rows)?;
    dated_text(alloc, object, &dated)
}

// The lines of one version of an object.
fn version_answer(
    alloc: Global,
    fitted: &Fitted,
    object: u8,
    version: u32,
) -> Result<String, AskErr>
    ensures ok { IfOk result (λ s. IsFitVersionAnswer fitted.now object version (string_bytes s)) }
    ensures fails { IfErr result (IsTextless (IsNoVersion fitted.now.recorded object version)) }
{
    fitted.known();
    let trace = fitted.trace();
    let rows = versions_of(alloc, trace, object)?;
    let Some(row) = rows.get(version as usize) else {
        return Err(AskErr::Absent(Absent::Version));
    };
    let dated = dated(fitted, row);
    let readers = readers_of(alloc, trace, object, version)?;
    let over = makers_of(alloc, trace)?.get(object, version);
    Ok(version_text(alloc, fitted, version as usize, &dated, &readers, &over)?)
}

// The lines that answer a question about a run.
fn answer(alloc: Global, fitted: &Fitted, asked: &Question) -> Result<String, AskErr>
    ensures ok { IfOk result (λ s. IsFitWhoAnswer asked.now fitted.now (string_bytes s)) }
    ensures fails { IfErr result (IsTextless (LacksAskedIn asked.now fitted.now)) }
{
    fitted.known();
    if asked.object >= fitted.trace().objects() as u32 {
        return Err(AskErr::Absent(Absent::Object));
    }
    let object = asked.object as u8;
    match asked.version {
        None => Ok(object_answer(alloc, fitted, object)?),
        Some(version) => version_answer(alloc, fitted, object, version),
    }
}

impl RunQuestion for Question {
    ghost is_answer = { λ asked f. IsDoneWith (IsFitWhoAnswer asked f) };

    ghost is_absent = { LacksAskedIn };

    fn print<O: Sink>(&self, alloc: Global, fitted: &Fitted, out: &mut O) -> Printed {
        let text = answer(alloc, fitted, self)?;
        put_bytes(text.as_bytes(), out)?;
        Ok(ExitStatus::Done)
    }
}
