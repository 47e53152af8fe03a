//! Conditions that arguments give.

ghost use Rattle.std.specs.Prelude.{◌≡◌, IfErr, OnErr, OnOk, OnSome, IfOk, false};
ghost use Rattle.ir_files.specs.Writers.{writer_of};
ghost use Rattle.ir_files.specs.declared.exit_status.ExitStatus.TheVariants as exit;
ghost use Rattle.ir_commands.specs.Conditions.{AreAboutNothing, AreWritten};
ghost use Rattle.ir_commands.specs.Files.{TellsFault};
ghost use Rattle.ir_commands.specs.Writing.{IsStatusOfNoRecording};

use crate::files::{out_of_memory, say};
use ir_arguments::ConditionText;
use ir_files::ExitStatus;
use ir_record_command::ParsedImage;
use ir_schedule::Condition;
use ir_stream::Sink;
use std::alloc::{AllocError, Global};

// The conditions that these texts write.
fn read_conditions(alloc: Global, texts: &[ConditionText]) -> Result<Vec<Condition<'_>>, AllocError>
    ensures { IfOk result (λ conditions. AreWritten texts.now conditions.items) }
{
    let mut conditions = Vec::new(alloc);
    for text in texts {
        let condition = text.condition(alloc)?;
        conditions.push(condition)?;
    }
    Ok(conditions)
}

// The text of the first of these conditions that is about a thread, an object or a word that the image hasn't.
fn about_nothing<'a>(
    image: &ParsedImage<'_>,
    conditions: &[Condition<'_>],
    texts: &'a [ConditionText],
) -> Option<&'a str>
    requires { AreWritten texts.now conditions.now }
    ensures { OnSome result (AreAboutNothing texts.now image.now) }
{
    let guest = image.guest()?;
    let place = conditions
        .iter()
        .position(|condition| !condition.is_about(guest))?;
    texts.get(place).map(|text| text.as_str())
}

/// The conditions that these texts write; if they can't be given, the reason is reported.
pub fn conditions_of<'a, E: Sink>(
    alloc: Global,
    faults: &mut E,
    image: &ParsedImage<'_>,
    texts: &'a [ConditionText],
) -> Result<Vec<Condition<'a>>, ExitStatus>
    ensures kept { OnOk result (faults.new ≡ faults.old) }
    ensures status { IfErr result (IsStatusOfNoRecording (AreAboutNothing texts.now image.now)) }
    ensures told { OnErr result (E.broken faults.old ≡ false → TellsFault (writer_of (E.written faults.old) (E.written faults.new) (E.broken faults.new))) }
    ensures read { IfOk result (λ conditions. AreWritten texts.now conditions.items) }
{
    let Ok(conditions) = read_conditions(alloc, texts) else {
        return Err(out_of_memory(faults));
    };
    if let Some(text) = about_nothing(image, conditions.as_slice(), texts) {
        let why = ": the image has no such thread, object or word";
        say(faults, text, why, "");
        return Err(ExitStatus::Refused);
    }
    Ok(conditions)
}

// Copies of the texts.
fn copied_texts(alloc: Global, texts: &[ConditionText]) -> Result<Vec<String>, AllocError> {
    let mut copies = Vec::new(alloc);
    for text in texts {
        copies.push(String::from_str(alloc, text.as_str())?)?;
    }
    Ok(copies)
}

/// The texts as they are written; if memory runs out, that is reported.
pub fn texts_of<E: Sink>(
    alloc: Global,
    faults: &mut E,
    texts: &[ConditionText],
) -> Result<Vec<String>, ExitStatus>
    ensures kept { OnOk result (faults.new ≡ faults.old) }
    ensures status { IfErr result (λ answered. answered ≡ exit.Failed) }
    ensures told { OnErr result (E.broken faults.old ≡ false → TellsFault (writer_of (E.written faults.old) (E.written faults.new) (E.broken faults.new))) }
{
    match copied_texts(alloc, texts) {
        Ok(copies) => Ok(copies),
        Err(_) => Err(out_of_memory(faults)),
    }
}
