//! `ir explore --within`: the outcomes of a guest that another guest doesn't have are printed; and `--only`: outcomes by classes.

ghost use Rattle.std.specs.Prelude.{◌≡◌, ◌⊎◌, IfErr, IfOk, OnErr, OnOk, true, false};
ghost use Rattle.std.specs.String.{string_bytes};
ghost use Rattle.ir_within.specs.Plans.{aspects_of, comparison_of};
ghost use Rattle.ir_files.specs.Writers.{writer_of};
ghost use Rattle.ir_commands.specs.Exploring.{Compares, ExploresClasses, HasCounted, HasObjects, IsComparisonOf, IsInput, LacksCounted, LacksObject, counted_asked};
ghost use Rattle.ir_commands.specs.Exploring.{IsStatusOfLack, IsStatusOfNoClasses, IsStatusOfNoComparison};
ghost use Rattle.ir_commands.specs.Files.{IsImageIn, TellsFault};
ghost use Rattle.ir_commands.specs.Printing.{LeavesUnread};

use crate::explore::{GuestFiles, plan_of};
use crate::files::{image_in, out_of_memory, say};
use crate::surroundings::Surroundings;
use ir_arguments::{ClassesArguments, Counted, WithinArguments};
use ir_explore::{ExplorePlan, guest_of};
use ir_files::{ExitStatus, Folder};
use ir_image::Image;
use ir_record_command::ParsedImage;
use ir_search::Observer;
use ir_stream::Sink;
use ir_within::{Aspects, ClassesPlan, WithinPlan, classes_run, within_run};
use std::alloc::Global;

/// What counts of outcomes.
pub fn aspects_of(counted: &Counted) -> Aspects<'_>
    ensures { aspects_of result ≡ counted_asked counted.now }
{
    Aspects {
        outputs: counted.outputs,
        ends: counted.ends,
        objects: counted.objects.as_ref().map(|each| each.as_slice()),
    }
}

// Whether a guest lacks an object whose words count; that is reported.
fn lacks_object<E: Sink>(
    alloc: Global,
    guest: &Image,
    counted: &Counted,
    path: &str,
    faults: &mut E,
) -> bool
    ensures kept { result ≡ false → faults.new ≡ faults.old }
    ensures told { result ≡ true → E.broken faults.old ≡ false → TellsFault (writer_of (E.written faults.old) (E.written faults.new) (E.broken faults.new)) }
    ensures lacks { result ≡ true → LacksObject guest.now counted.now }
    ensures has { result ≡ false → HasObjects guest.now counted.now }
{
    let Some(objects) = &counted.objects else {
        return false;
    };
    let Some(lacking) = objects
        .as_slice()
        .iter()
        .find(|object| usize::from(**object) >= guest.object_count())
    else {
        return false;
    };
    match format!(in alloc; "the guest has no object {lacking}, which --only names") {
        Ok(why) => say(faults, path, ": ", why.as_str()),
        Err(_) => say(
            faults,
            path,
            ": ",
            "the guest lacks an object that --only names",
        ),
    }
    true
}

// Whether the guest of an image has each object whose words count, if it can be explored. If it lacks one, or memory ran out, that is reported, and the
// exit status is answered.
fn check_counted<E: Sink>(
    alloc: Global,
    explore: &ExplorePlan<'_>,
    image: &ParsedImage<'_>,
    counted: &Counted,
    path: &str,
    faults: &mut E,
) -> Result<(), ExitStatus>
    ensures kept { OnOk result (faults.new ≡ faults.old) }
    ensures has { OnOk result (HasCounted image.now explore.now.profile counted.now) }
    ensures lacks { IfErr result (IsStatusOfLack (LacksCounted image.now explore.now.profile counted.now)) }
    ensures told { OnErr result (E.broken faults.old ≡ false → TellsFault (writer_of (E.written faults.old) (E.written faults.new) (E.broken faults.new))) }
{
    let guest = match guest_of(image, explore) {
        Ok(guest) => guest,
        Err(why) => match why.status() {
            // A guest that is refused isn't explored, which the search reports.
            ExitStatus::Refused => return Ok(()),
            _ => return Err(out_of_memory(faults)),
        },
    };
    if lacks_object(alloc, guest, counted, path, faults) {
        return Err(ExitStatus::BadArguments);
    }
    Ok(())
}

/// What is read to compare two guests.
#[derive(Drop)]
pub struct ComparedFiles {
    /// The guest's image, and what both read.
    pub guest: GuestFiles,
    /// The other guest's image.
    pub other: Vec<u8>,
}

/// The images of two guests, as far as their bytes are any.
pub fn both_images(alloc: Global, files: &ComparedFiles) -> (ParsedImage<'_>, ParsedImage<'_>)
    ensures { (result.0 ≡ files.now.guest.image.items) × (result.1 ≡ files.now.other.items) }
{
    (
        ParsedImage::new(alloc, files.guest.image.as_slice()),
        ParsedImage::new(alloc, files.other.as_slice()),
    )
}

/// The images of the guests in two files, and what both read; if there are none, the reason is reported.
pub fn compared_files<D: Folder, E: Sink>(
    alloc: Global,
    folder: &D,
    arguments: &WithinArguments,
    faults: &mut E,
) -> Result<ComparedFiles, ExitStatus>
    ensures kept { OnOk result (faults.new ≡ faults.old) }
    ensures image { IfOk result (λ files. IsImageIn (D.bytes_at folder.now (string_bytes arguments.now.explore.image)) files.guest.image.items) }
    ensures other { IfOk result (λ files. IsImageIn (D.bytes_at folder.now (string_bytes arguments.now.other)) files.other.items) }
    ensures input { IfOk result (λ files. IsInput (D.bytes_at folder.now) arguments.now.explore.input files.guest.input.items) }
    ensures status { IfErr result (IsStatusOfNoComparison (D.bytes_at folder.now) arguments.now) }
    ensures told { OnErr result (E.broken faults.old ≡ false → TellsFault (writer_of (E.written faults.old) (E.written faults.new) (E.broken faults.new))) }
{
    let guest = GuestFiles::of(alloc, folder, &arguments.explore, faults)?;
    let other = image_in(alloc, folder, faults, arguments.other.as_str())?;
    Ok(ComparedFiles { guest, other })
}

/// How the outcomes of two guests are compared. If a guest lacks an object whose words count, or memory ran out, that is reported.
///
/// # Errors
/// The exit status.
pub fn comparison_plan<'a, 'o, R: AllocGlobal, D, G, E: Sink>(
    around: &Surroundings<'o, R, D, G>,
    arguments: &'a WithinArguments,
    both: &'a (ParsedImage<'a>, ParsedImage<'a>),
    input: &'a [u8],
    faults: &mut E,
) -> Result<WithinPlan<'a, 'a, 'o, G>, ExitStatus>
    ensures kept { OnOk result (faults.new ≡ faults.old) }
    ensures plan { IfOk result (λ plan. IsComparisonOf arguments.now both.now.0 both.now.1 input.now (comparison_of plan)) }
    ensures lacks { IfErr result (IsStatusOfLack (LacksCounted both.now.0 arguments.now.explore.profile arguments.now.counted
        ⊎ LacksCounted both.now.1 arguments.now.explore.profile arguments.now.counted)) }
    ensures told { OnErr result (E.broken faults.old ≡ false → TellsFault (writer_of (E.written faults.old) (E.written faults.new) (E.broken faults.new))) }
{
    let (alloc, counted) = (around.rt.alloc(), &arguments.counted);
    let explore = plan_of(&arguments.explore, input);
    let path = arguments.explore.image.as_str();
    check_counted(alloc, &explore, &both.0, counted, path, faults)?;
    let path = arguments.other.as_str();
    check_counted(alloc, &explore, &both.1, counted, path, faults)?;
    Ok(WithinPlan {
        image: &both.0,
        other: &both.1,
        explore,
        aspects: aspects_of(counted),
        observer: around.gate,
    })
}

// Compares the outcomes of the guests in two files.
pub fn within_file<R: AllocGlobal, D: Folder, G: Observer, O: Sink, E: Sink>(
    around: &Surroundings<'_, R, D, G>,
    arguments: &WithinArguments,
    out: &mut O,
    faults: &mut E,
) -> ExitStatus
    requires writes { O.broken out.old ≡ false }
    requires reports { E.broken faults.old ≡ false }
    ensures prints { Compares (D.bytes_at around.now.folder.now) arguments.now result
        (writer_of (O.written out.old) (O.written out.new) (O.broken out.new)) (writer_of (E.written faults.old) (E.written faults.new) (E.broken faults.new))
        ⊎ LeavesUnread (IsStatusOfNoComparison (D.bytes_at around.now.folder.now) arguments.now result) (out.new ≡ out.old)
        (writer_of (E.written faults.old) (E.written faults.new) (E.broken faults.new)) }
{
    let alloc = around.rt.alloc();
    let files = match compared_files(alloc, around.folder, arguments, faults) {
        Ok(files) => files,
        Err(status) => return status,
    };
    let both = both_images(alloc, &files);
    let input = files.guest.input.as_slice();
    match comparison_plan(around, arguments, &both, input, faults) {
        Ok(plan) => within_run(alloc, &plan, out, faults),
        Err(status) => status,
    }
}

// Prints the outcomes of the guest in a file by classes.
pub fn classes_file<R: AllocGlobal, D: Folder, G: Observer, O: Sink, E: Sink>(
    around: &Surroundings<'_, R, D, G>,
    arguments: &ClassesArguments,
    out: &mut O,
    faults: &mut E,
) -> ExitStatus
    requires writes { O.broken out.old ≡ false }
    requires reports { E.broken faults.old ≡ false }
    ensures prints { ExploresClasses (D.bytes_at around.now.folder.now) arguments.now result
        (writer_of (O.written out.old) (O.written out.new) (O.broken out.new)) (writer_of (E.written faults.old) (E.written faults.new) (E.broken faults.new))
        ⊎ LeavesUnread (IsStatusOfNoClasses (D.bytes_at around.now.folder.now) arguments.now result) (out.new ≡ out.old)
        (writer_of (E.written faults.old) (E.written faults.new) (E.broken faults.new)) }
{
    let alloc = around.rt.alloc();
    let files = match GuestFiles::of(alloc, around.folder, &arguments.explore, faults) {
        Ok(files) => files,
        Err(status) => return status,
    };
    let image = ParsedImage::new(alloc, files.image.as_slice());
    let counted = &arguments.counted;
    let plan = ClassesPlan {
        image: &image,
        explore: plan_of(&arguments.explore, files.input.as_slice()),
        aspects: aspects_of(counted),
        observer: around.gate,
    };
    let path = arguments.explore.image.as_str();
    match check_counted(alloc, &plan.explore, &image, counted, path, faults) {
        Ok(()) => classes_run(alloc, &plan, out, faults),
        Err(status) => status,
    }
}
