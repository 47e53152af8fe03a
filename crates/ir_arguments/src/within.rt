//! The arguments of `ir explore --within` and `--only`.

ghost use Rattle.std.specs.Prelude.{◌≡◌, Some, None, codes, IfOk, MatchBool};
ghost use Rattle.std.specs.String.{string_bytes};
ghost use Rattle.ir_arguments.specs.Exploring.{parts_given, parts_listed, parts_taken, with_part};
ghost use Rattle.ir_arguments.specs.Values.{YieldsOrNothing, rows_of_matches, first_given, text_for};
ghost use Rattle.ir_arguments.specs.Views.{parts_view, taken_view};

use crate::argument_err::ArgumentErr;
use crate::explore::ExploreArguments;
use crate::forms::Form;
use crate::texts::first_part;
use crate::values::{UNTIL, given, text_of};
use clap::ArgMatches;
use ir_record_command::number_within;
use std::alloc::{AllocError, Global};

/// The name of the option that names the image of the other guest.
pub const WITHIN: &str = "within";

/// The name of the option that says what of outcomes counts.
pub const ONLY: &str = "only";

/// The option that names the image of the other guest.
pub const WITHIN_FORM: Form<'static> = Form::Valued(
    WITHIN,
    "OTHER",
    "The file with the image of another guest, or its ELF file: print the outcomes that it doesn't have",
);

/// The option that says what of outcomes counts.
pub const ONLY_FORM: Form<'static> = Form::Valued(
    ONLY,
    "PARTS",
    "What of outcomes counts, with commas between: out, codes, objects, or the number of an object",
);

// The greatest number of an object.
const LAST_OBJECT: u64 = 63;

/// What of outcomes counts.
#[derive(Drop)]
pub struct Counted {
    /// What each thread printed.
    pub outputs: bool,
    /// How each thread ended, with its code.
    pub ends: bool,
    /// The words of these objects, in this order; or of all.
    pub objects: Option<Vec<u8>>,
}

/// Which guests are compared, and in what.
#[derive(Drop)]
pub struct WithinArguments {
    /// The guest whose outcomes are looked for among the other's, and how far both are explored.
    pub explore: ExploreArguments,
    /// The file of the other guest's image.
    pub other: String,
    /// What of outcomes counts.
    pub counted: Counted,
}

/// Which guests are compared, and where a run with the first outcome goes that the other guest doesn't have.
#[derive(Drop)]
pub struct OutsideArguments {
    /// Which guests are compared, and in what.
    pub within: WithinArguments,
    /// The file that the trace is written to.
    pub trace: String,
    /// What the paths of the files of what threads print begin with, if they are asked for.
    pub output: Option<String>,
}

/// Whose outcomes are told by classes, and in what they are the same.
#[derive(Drop)]
pub struct ClassesArguments {
    /// Which guest is explored, and how far.
    pub explore: ExploreArguments,
    /// What of outcomes counts.
    pub counted: Counted,
}

// What counts by the parts so far.
#[derive(Drop)]
struct Taken {
    outputs: bool,
    ends: bool,
    // Whether all objects count, and else which.
    all: bool,
    objects: Vec<u8>,
}

// Takes a part of what counts; whether it is one.
#[tactic(auto, unfolding(crate::specs::Exploring::with_part))]
fn take_part(taken: &mut Taken, part: &str) -> Result<bool, AllocError>
    ensures taken { IfOk result (λ is_part. MatchBool is_part (with_part (taken_view taken.old) part.now ≡ Some (taken_view taken.new)) (with_part (taken_view taken.old) part.now ≡ None)) }
{
    match part {
        "out" => taken.outputs = true,
        "codes" => taken.ends = true,
        "objects" => taken.all = true,
        number => match number_within(0, LAST_OBJECT, number) {
            Some(object) => taken.objects.push(object as u8)?,
            None => return Ok(false),
        },
    }
    Ok(true)
}

// What counts of outcomes by what was taken.
fn counted_by(taken: Taken) -> Counted
    ensures { parts_view result ≡ parts_taken (taken_view taken) }
{
    Counted {
        outputs: taken.outputs,
        ends: taken.ends,
        objects: if taken.all { None } else { Some(taken.objects) },
    }
}

// What counts by the parts that a text lists, or what is wrong with it.
#[tactic(auto, using(crate::proofs::Parts::parts_after_part, crate::proofs::Parts::parts_fail))]
fn counted_in(alloc: Global, text: &str) -> Result<Counted, ArgumentErr>
    ensures { YieldsOrNothing parts_view result (parts_listed text.now) }
{
    let mut taken = Taken {
        outputs: false,
        ends: false,
        all: false,
        objects: Vec::new(alloc),
    };
    let mut rest = Some(text);
    'parts: while let Some(text) = rest {
        let (part, others) = first_part(text, ',');
        if !take_part(&mut taken, part)? {
            return Err(ArgumentErr::Wrong(format!(in alloc;
                "--{ONLY}: '{part}' isn't out, codes, objects or the number of an object up to {LAST_OBJECT}"
            )?));
        }
        rest = others;
    }
    Ok(counted_by(taken))
}

/// What counts of outcomes, all of them without the option; or what is wrong with it.
pub fn counted_of(alloc: Global, matches: &ArgMatches<'_>) -> Result<Counted, ArgumentErr>
    ensures { YieldsOrNothing parts_view result (parts_given (first_given (rows_of_matches matches.now) (codes "only"))) }
{
    match given(matches, ONLY) {
        Some(text) => counted_in(alloc, text),
        None => Ok(Counted {
            outputs: true,
            ends: true,
            objects: None,
        }),
    }
}

/// The file of the other guest's image.
pub fn other_of(alloc: Global, matches: &ArgMatches<'_>) -> Result<String, AllocError>
    ensures { IfOk result (λ text. string_bytes text ≡ text_for (rows_of_matches matches.now) (codes "within")) }
{
    text_of(alloc, matches, WITHIN)
}
