//! The arguments of `ir who`.

ghost use Rattle.ir_arguments.specs.Asking.{versions_asked};
ghost use Rattle.ir_arguments.specs.Views.{AsksFor};

use crate::argument_err::ArgumentErr;
use crate::asked::{Asked, Print};
use crate::bonds::Bond;
use crate::forms::Form;
use crate::subcommands::Row;
use crate::values::{
    FROM_IMAGE, TRACE, TRACE_FORM, given_number, given_text, number_in, text_for, text_of,
};
use clap::ArgMatches;
use std::alloc::Global;

/// What follows the help of `ir who`.
pub const WHO_AFTER: &str =
    "An object has its first words at version 0, and each write entry makes the next version. Without V the first line is
`object O versions N`. Then comes a line for each version, and the last line says who wrote last:
  version 0 by first words readers R             R read entries are at version 0
  version V by thread T event E readers R        event E of thread T made version V, and R read entries are at it
With V there is the line of that version. Then come its read entries, by rising thread and event, and who wrote over it:
  read thread T event E                          event E of thread T read it
  overwritten by thread T event E                event E of thread T wrote over it; or `last`, if no thread did
With --word K there are lines of version 0 and of each version in which word K differs from the version before:
  version V by thread T event E step S word K W  W is the word in hexadecimal, and S how many steps thread T takes before the last
                                                 PUT of word K between event E and its leave
Events are numbered as in `ir trace`. With --image each has ` step S` after it, how many steps its thread takes before it;
after `by` how many it takes before it leaves the object: from then on the version is there.
What is refused has the lines that `ir stale` has.
Exit status: 0 printed, 1 a file that can't be read or standard output that can't be written, 2 bad arguments, or an object, a
version or a word that isn't there, 3 a refused image or trace, 4 an incoherent trace, or a trace of no run of the image.
";

/// What the help says of it, and its arguments.
pub const ROW: Row<'static> = Row {
    name: "who",
    about: "Prints who made and who read the versions of an object",
    after: WHO_AFTER,
    forms: &[
        TRACE_FORM,
        Form::NeededPlace(OBJECT, "The number of the object"),
        Form::Place(
            VERSION_NUMBER,
            "The number of the version; without it all versions are printed",
        ),
        Form::Valued(
            FROM_IMAGE,
            "IMAGE",
            "The file with the image, or an ELF file of the guest: the steps of the events",
        ),
        Form::Valued(
            WORD,
            "K",
            "The number of a word of the object: only the versions that change it",
        ),
    ],
    bonds: &[
        Bond::Excludes(WORD, VERSION_NUMBER),
        Bond::Needs(WORD, FROM_IMAGE),
    ],
};

/// The number of the object.
const OBJECT: &str = "O";

/// The version.
const VERSION_NUMBER: &str = "V";

/// The number of the word.
const WORD: &str = "word";

/// The object whose versions are printed, or the version that is.
#[derive(Drop)]
pub struct WhoArguments {
    /// The file of the trace.
    pub trace: String,
    /// The number of the object.
    pub object: u32,
    /// The version, if one is asked about.
    pub version: Option<u32>,
    /// The word, if its changes are asked about.
    pub word: Option<u32>,
    /// The file of the image, if steps are told too.
    pub image: Option<String>,
}

/// What its arguments ask for.
#[tactic(auto, unfolding(crate::specs::Asking::versions_in))]
pub fn asked(alloc: Global, matches: &ArgMatches<'_>) -> Result<Asked, ArgumentErr>
    ensures { AsksFor versions_asked matches.now result }
{
    let object = number_in(alloc, OBJECT, text_for(matches, OBJECT))?;
    let version = given_number(alloc, matches, VERSION_NUMBER, VERSION_NUMBER)?;
    let word = given_number(alloc, matches, WORD, "--word")?;
    Ok(Asked::Print(Print::Who(WhoArguments {
        trace: text_of(alloc, matches, TRACE)?,
        object,
        version,
        word,
        image: given_text(alloc, matches, FROM_IMAGE)?,
    })))
}
