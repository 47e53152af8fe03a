//! `ir explore`: the outcomes of a guest are printed.

ghost use Rattle.std.specs.Prelude.{◌≡◌, ◌⊎◌, IfErr, IfOk, OnErr, OnOk, false};
ghost use Rattle.std.specs.String.{string_bytes};
ghost use Rattle.ir_files.specs.Writers.{writer_of};
ghost use Rattle.ir_commands.specs.Exploring.{Explores, IsInput, IsPlanOf};
ghost use Rattle.ir_commands.specs.Files.{IsImageIn, IsStatusOfNone, TellsFault};
ghost use Rattle.ir_commands.specs.Printing.{LeavesUnread};

use crate::files::image_in;
use crate::recording::input_of;
use crate::surroundings::Surroundings;
use ir_arguments::{ExploreArguments, Reach};
use ir_explore::{ExplorePlan, explore_run};
use ir_files::{ExitStatus, Folder};
use ir_search::Observer;
use ir_stream::Sink;
use std::alloc::Global;

// How a guest is explored, which reads these bytes.
pub fn plan_of<'a>(arguments: &ExploreArguments, input: &'a [u8]) -> ExplorePlan<'a>
    ensures { IsPlanOf arguments.now input.now result }
{
    let Reach {
        states,
        private,
        switches,
        seconds,
        outcomes,
        ..
    } = arguments.reach;
    let plan = ExplorePlan::new(
        states,
        private,
        switches,
        arguments.profile,
        arguments.random,
        input,
    );
    plan.bounded(seconds, outcomes)
}

/// What is read to explore a guest.
#[derive(Drop)]
pub struct GuestFiles {
    /// The guest's image.
    pub image: Vec<u8>,
    /// What it reads.
    pub input: Vec<u8>,
}

impl GuestFiles {
    /// Reads the files that the arguments name; if they can't be had, the reason is reported.
    ///
    /// # Errors
    /// The exit status.
    pub fn of<D: Folder, E: Sink>(
        alloc: Global,
        folder: &D,
        arguments: &ExploreArguments,
        faults: &mut E,
    ) -> Result<GuestFiles, ExitStatus>
        ensures kept { OnOk result (faults.new ≡ faults.old) }
        ensures image { IfOk result (λ files. IsImageIn (D.bytes_at folder.now (string_bytes arguments.now.image)) files.image.items) }
        ensures input { IfOk result (λ files. IsInput (D.bytes_at folder.now) arguments.now.input files.input.items) }
        ensures status { IfErr result (IsStatusOfNone (D.bytes_at folder.now (string_bytes arguments.now.image))) }
        ensures told { OnErr result (E.broken faults.old ≡ false → TellsFault (writer_of (E.written faults.old) (E.written faults.new) (E.broken faults.new))) }
    {
        let image = image_in(alloc, folder, faults, arguments.image.as_str())?;
        match input_of(alloc, folder, faults, &arguments.input) {
            Some(input) => Ok(GuestFiles { image, input }),
            None => Err(ExitStatus::Failed),
        }
    }
}

// Prints the outcomes of the guest in a file.
pub fn explore_file<R, D, G, O, E>(
    around: &Surroundings<'_, R, D, G>,
    arguments: &ExploreArguments,
    out: &mut O,
    faults: &mut E,
) -> ExitStatus
where
    R: AllocGlobal,
    D: Folder,
    G: Observer,
    O: Sink,
    E: Sink,
    requires writes { O.broken out.old ≡ false }
    requires reports { E.broken faults.old ≡ false }
    ensures prints { Explores (D.bytes_at around.now.folder.now) arguments.now result
        (writer_of (O.written out.old) (O.written out.new) (O.broken out.new)) (writer_of (E.written faults.old) (E.written faults.new) (E.broken faults.new))
        ⊎ LeavesUnread (IsStatusOfNone (D.bytes_at around.now.folder.now (string_bytes arguments.now.image)) result) (out.new ≡ out.old)
        (writer_of (E.written faults.old) (E.written faults.new) (E.broken faults.new)) }
{
    let alloc = around.rt.alloc();
    let files = match GuestFiles::of(alloc, around.folder, arguments, faults) {
        Ok(files) => files,
        Err(status) => return status,
    };
    let plan = plan_of(arguments, files.input.as_slice());
    let image = files.image.as_slice();
    explore_run(alloc, image, &plan, around.gate, out, faults)
}
