//! What the command-line arguments ask for.

use crate::assemble::AssembleArguments;
use crate::debug::DebugArguments;
use crate::diff::DiffArguments;
use crate::elf::ElfArguments;
use crate::events::EventsArguments;
use crate::explore::{ExploreArguments, UntilArguments};
use crate::hunt::HuntArguments;
use crate::list::ListArguments;
use crate::record::RecordArguments;
use crate::shrink::ShrinkArguments;
use crate::stale::StaleArguments;
use crate::trace::TraceArguments;
use crate::view::ViewArguments;
use crate::who::WhoArguments;
use crate::why::WhyArguments;
use crate::within::{ClassesArguments, OutsideArguments, WithinArguments};

/// An image that is made of another file.
#[derive(Drop)]
pub enum Make {
    /// Of a source.
    Source(AssembleArguments),
    /// Of an ELF file.
    Elf(ElfArguments),
}

/// What is printed of files.
#[derive(Drop)]
pub enum Print {
    /// The code of an image.
    Code(ListArguments),
    /// The lines of a trace.
    Trace(TraceArguments),
    /// The events of a recorded run, with their places.
    Events(EventsArguments),
    /// The writes of a trace that may rest on a read that was written over.
    Stale(StaleArguments),
    /// Who made and read the versions of an object.
    Who(WhoArguments),
    /// Why an event came when it did.
    Why(WhyArguments),
    /// What two traces have in common, and where they part.
    Diff(DiffArguments),
    /// A picture of a trace.
    View(ViewArguments),
}

/// What is printed of the outcomes of a guest.
#[derive(Drop)]
pub enum Explored {
    /// All of them.
    Outcomes(ExploreArguments),
    /// The first of each class.
    Classes(ClassesArguments),
    /// Those that another guest doesn't have.
    Within(WithinArguments),
}

/// What the arguments ask for.
#[derive(Drop)]
pub enum Asked {
    /// A session over standard input and output.
    Session,
    /// An image.
    Make(Make),
    /// A recording.
    Record(RecordArguments),
    /// A hunt.
    Hunt(HuntArguments),
    /// A run with fewer context switches than a recorded one.
    Shrink(ShrinkArguments),
    /// The recording of an outcome that fulfils conditions.
    Until(UntilArguments),
    /// The recording of the first outcome that another guest doesn't have.
    Outside(OutsideArguments),
    /// A session of an image and a trace in files.
    Debug(DebugArguments),
    /// gdb's protocol over an image and a trace in files.
    Gdb(DebugArguments),
    /// Lines about files.
    Print(Print),
    /// The outcomes of a guest.
    Explore(Explored),
    /// This text, about the program.
    Help(String),
    /// Nothing that there is, for this reason.
    Nothing(String),
    /// Memory ran out.
    NoMem,
}
