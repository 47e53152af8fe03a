//! What a search for a run reads, and where what its threads print goes.

ghost use Rattle.std.specs.Prelude.{◌≡◌, IfErr, IfOk, IfSome, OnErr, OnOk, false, map, option_map};
ghost use Rattle.std.specs.String.{string_bytes};
ghost use Rattle.ir_files.specs.Writers.{writer_of};
ghost use Rattle.ir_commands.specs.Conditions.{AreAboutNothing, AreWritten};
ghost use Rattle.ir_commands.specs.Exploring.{IsInput};
ghost use Rattle.ir_commands.specs.Files.{IsImageIn, IsNoGuest, TellsFault};
ghost use Rattle.ir_commands.specs.Writing.{AreOutputPaths, IsStatusOfNoRecording};

use crate::conditions::conditions_of;
use crate::files::image_in;
use crate::recording::{RecordingPaths, beside_of, loses_input};
use crate::surroundings::Surroundings;
use ir_arguments::ConditionText;
use ir_files::{ExitStatus, Folder};
use ir_record_command::ParsedImage;
use ir_schedule::Condition;
use ir_stream::Sink;

/// The bytes of the image of a recording. If there are none, or a file that is read would be lost, that is reported.
pub fn image_of<R: AllocGlobal, D: Folder, G, E: Sink>(
    around: &Surroundings<'_, R, D, G>,
    faults: &mut E,
    paths: &RecordingPaths<'_>,
) -> Result<Vec<u8>, ExitStatus>
    ensures kept { OnOk result (faults.new ≡ faults.old) }
    ensures bytes { IfOk result (λ image. IsImageIn (D.bytes_at around.now.folder.now paths.now.image.now) image.items) }
    ensures status { IfErr result (IsStatusOfNoRecording (IfSome (D.bytes_at around.now.folder.now paths.now.image.now) IsNoGuest)) }
    ensures told { OnErr result (E.broken faults.old ≡ false → TellsFault (writer_of (E.written faults.old) (E.written faults.new) (E.broken faults.new))) }
{
    if loses_input(around.folder, faults, paths) {
        return Err(ExitStatus::BadArguments);
    }
    image_in(around.rt.alloc(), around.folder, faults, paths.image)
}

/// What a search for a run reads beside its image, and where what the threads print goes.
#[derive(Drop)]
pub struct SearchFiles<'a> {
    /// The conditions that the run fulfils.
    pub conditions: Vec<Condition<'a>>,
    /// The paths of what its threads print, if they are asked for.
    pub outputs: Option<Vec<String>>,
    /// The bytes that it reads.
    pub input: Vec<u8>,
}

impl<'a> SearchFiles<'a> {
    /// Reads it; if it can't be had, the reason is reported.
    pub fn of<R: AllocGlobal, D: Folder, G, E: Sink>(
        around: &Surroundings<'_, R, D, G>,
        faults: &mut E,
        paths: &RecordingPaths<'_>,
        image: &ParsedImage<'_>,
        until: &'a [ConditionText],
    ) -> Result<SearchFiles<'a>, ExitStatus>
        ensures kept { OnOk result (faults.new ≡ faults.old) }
        ensures read { IfOk result (λ files. AreWritten until.now files.conditions.items) }
        ensures paths { IfOk result (λ files. AreOutputPaths (option_map (λ prefix. prefix.now) paths.now.output) (option_map (λ each. map string_bytes each.items) files.outputs)) }
        ensures input { IfOk result (λ files. IsInput (D.bytes_at around.now.folder.now) paths.now.input.now files.input.items) }
        ensures status { IfErr result (IsStatusOfNoRecording (AreAboutNothing until.now image.now)) }
        ensures told { OnErr result (E.broken faults.old ≡ false → TellsFault (writer_of (E.written faults.old) (E.written faults.new) (E.broken faults.new))) }
    {
        let (alloc, folder) = (around.rt.alloc(), around.folder);
        let conditions = conditions_of(alloc, faults, image, until)?;
        let (outputs, input) = beside_of(alloc, folder, faults, paths, image)?;
        Ok(SearchFiles {
            conditions,
            outputs,
            input,
        })
    }
}
