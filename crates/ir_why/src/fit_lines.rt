//! The lines of `ir why` where it is asked with an image.

ghost use Rattle.std.specs.Prelude.{◌≡◌, ◌++◌, flat_map, IfOk, OnOk};
ghost use Rattle.std.specs.String.{string_bytes};
ghost use Rattle.ir_log.specs.Logging.{label_of};
ghost use Rattle.ir_text.specs.Texts.{event_text};
ghost use Rattle.ir_opened.specs.Positions.{IsInside};
ghost use Rattle.ir_why.specs.FitAnswers.{IsHereLine};
ghost use Rattle.ir_why.specs.FitLines.{met_part, left_part, here_line, fit_need_line, least_line, wait_line};

use crate::need::Need;
use crate::wait::Wait;
use ir_cut::Cut;
use ir_fit::Fitted;
use ir_log::Event;
use ir_opened::step_of;
use ir_past::{Place, event_of, place_text};
use ir_text::{Text, put_event_text};
use std::alloc::{AllocError, Global};

// Adds what an event logged.
fn push_logged(text: &mut Vec<u8>, event: Event) -> Result<(), AllocError>
    ensures { OnOk result (text.new.items ≡ text.old.items ++ event_text (label_of event)) }
{
    let mut logged = Text::new();
    put_event_text(&mut logged, event);
    text.extend_from_slice(logged.as_slice())
}

// Whether a cut has a step of a thread, if there is a cut.
fn met_part(at: &Option<Cut>, thread: u8, step: u64) -> &'static str
    ensures { result.now ≡ met_part at.now thread step }
{
    let Some(cut) = at else {
        return "";
    };
    let position = cut.positions().get(thread as usize).copied().unwrap_or(0);
    if step < position { " met" } else { " open" }
}

// Where what was entered is left, if it is, and whether a cut has that step.
fn left_part(
    alloc: Global,
    at: &Option<Cut>,
    thread: u8,
    left: Option<u64>,
) -> Result<String, AllocError>
    ensures { IfOk result (λ s. string_bytes s ≡ left_part at.now thread left) }
{
    match left {
        None => String::from_str(alloc, ""),
        Some(step) => {
            let met = met_part(at, thread, step);
            format!(in alloc; " left at step {step}{met}")
        }
    }
}

// The line of an event that logged this, after so many steps.
fn line_of(alloc: Global, place: &Place, event: Event, step: u64) -> Result<Vec<u8>, AllocError>
    ensures { IfOk result (λ line. line.items ≡ here_line place.now event step) }
{
    let place = place_text(alloc, place)?;
    let first = format!(in alloc; "{place} step {step} ")?;
    let mut line = Vec::from_slice(alloc, first.as_bytes())?;
    push_logged(&mut line, event)?;
    line.extend_from_slice(b"\n")?;
    Ok(line)
}

/// The line of an event of a run.
///
/// # Errors
/// Out of memory.
pub fn here_line(alloc: Global, fitted: &Fitted, here: Place) -> Result<Vec<u8>, AllocError>
    requires { IsInside fitted.now here.thread here.event }
    ensures { IfOk result (λ line. IsHereLine fitted.now here line.items) }
{
    fitted.known();
    let event = event_of(fitted.trace(), here);
    line_of(alloc, &here, event, step_of(fitted, here))
}

// Adds the line of an event that is needed.
fn push_need(
    alloc: Global,
    text: &mut Vec<u8>,
    at: &Option<Cut>,
    need: &Need,
) -> Result<(), AllocError>
    ensures { OnOk result (text.new.items ≡ text.old.items ++ fit_need_line at.now need.now) }
{
    text.extend_from_slice(b"needs ")?;
    text.extend_from_slice(place_text(alloc, &need.place)?.as_bytes())?;
    text.extend_from_slice(b" ")?;
    push_logged(text, need.event)?;
    let left = left_part(alloc, at, need.place.thread, need.left)?;
    text.extend_from_slice(left.as_bytes())?;
    text.extend_from_slice(b"\n")
}

/// Adds the lines of what is needed.
///
/// # Errors
/// Out of memory.
pub fn push_needs(
    alloc: Global,
    text: &mut Vec<u8>,
    at: &Option<Cut>,
    needs: &[Need],
) -> Result<(), AllocError>
    ensures { OnOk result (text.new.items ≡ text.old.items ++ flat_map (fit_need_line at.now) needs.now) }
{
    for need in needs {
        push_need(alloc, text, at, need)?;
    }
    Ok(())
}

/// The line of the least cut.
///
/// # Errors
/// Out of memory.
pub fn least_line(alloc: Global, cut: &Cut) -> Result<String, AllocError>
    ensures { IfOk result (λ s. string_bytes s ≡ least_line cut.now) }
{
    let mut line = String::from_str(alloc, "least")?;
    for position in cut.positions() {
        line.push_str(format!(in alloc; " {position}")?.as_str())?;
    }
    line.push('\n')?;
    Ok(line)
}

// The line of a wait.
fn wait_line(alloc: Global, wait: &Wait) -> Result<String, AllocError>
    ensures { IfOk result (λ s. string_bytes s ≡ wait_line wait.now) }
{
    let waiting = place_text(alloc, &wait.waiting)?;
    let needed = place_text(alloc, &wait.needed)?;
    let step = wait.step;
    let left = wait.left;
    format!(in alloc; "since {waiting} step {step} waited for {needed} step {left}\n")
}

/// Adds the lines of a chain.
///
/// # Errors
/// Out of memory.
pub fn push_waits(alloc: Global, text: &mut Vec<u8>, waits: &[Wait]) -> Result<(), AllocError>
    ensures { OnOk result (text.new.items ≡ text.old.items ++ flat_map wait_line waits.now) }
{
    for wait in waits {
        text.extend_from_slice(wait_line(alloc, wait)?.as_bytes())?;
    }
    Ok(())
}
